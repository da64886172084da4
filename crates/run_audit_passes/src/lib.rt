//! The laws that an auditor asks of a list of events, event by event.
#![tactic(auto)]

mod cancel;
mod due_script;
mod due_test;
mod endless;
mod known_status;
mod known_value;
mod limit;
mod limit_table;
mod parts;
mod places;
mod plan_places;
mod script;
mod seat_told;
mod shape;
mod status;
mod taken;
mod test_news;
mod test_part;
mod test_places;

pub use cancel::CancelPart;
pub use due_script::DueScript;
pub use due_test::DueTest;
pub use endless::{EndlessParts, PartAgain};
pub use known_status::KnownStatus;
pub use known_value::KnownValue;
pub use limit::LimitPart;
pub use parts::{PartLaw, Parts};
pub use places::{cancel_place, limit_place, script_place, shape_place, test_place};
pub use plan_places::{PlanPlaces, places_of};
pub use script::ScriptPart;
pub use shape::ShapeLaw;
pub use status::DueStatus;
pub use test_part::TestPart;
pub use test_places::TestPlaces;
