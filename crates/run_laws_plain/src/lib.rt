//! Definitions of a run that a reader could doubt, a second time, as plain, slow functions over plain data: the
//! statistics and the account that a list of told events comes to, a fate's account and the attempt law, and the
//! attempts of a unit, with their timers, by its own turns. Each answers the defined value, by its contract. No program
//! runs them, and none calls what the engine does, but for the reading of an environment file.
#![tactic(auto)]

mod accounts;
mod attempts;
mod delays;
mod env;
mod fates;
mod front;
mod outcomes;
mod pauses;
mod results;
mod standing;
mod statistics;
mod story;
mod streams;
mod timing;

pub use accounts::{News, account_of};
pub use attempts::{is_due, none_goes_on, statuses_of};
pub use fates::{account, has_retry_left, meets_attempt_law};
pub use statistics::{stats_are_of_told_events, stats_told};
pub use story::OwnTurn;
