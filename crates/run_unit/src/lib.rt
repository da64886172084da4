//! A setup script, or a test with its attempts, as a state: each step is one row of the unit table of
//! `run_model`, with the message that it sends and what it asks. The engine uses these contracts and
//! nothing else.
#![tactic(auto)]

mod acting;
mod alike;
mod effects;
mod ending;
mod env;
mod first;
mod hearing;
mod info;
mod messages;
mod pauses;
mod requests;
mod retry;
mod same;
mod script;
mod slow;
mod start;
mod status;
mod terminate;
mod timing;
mod unit;
mod wants;

pub use alike::Alike;
pub use effects::UnitEffects;
pub use messages::skip_message;
// What a caller of a unit names besides is named here too: it stands in crates below.
pub use run_events::create_execution_result;
pub use run_model::{BackoffIter, Phase, UnitTurn};
pub use start::start_of;
pub use terminate::terminate_method;
pub use unit::Unit;
pub use wants::Wants;
