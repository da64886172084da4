//! What an auditor of recorded runs speaks of: the events that it sees, its verdict, what it is for a list of them to
//! keep a run (specs/Kept.antt), and where a list first can't be continued to one that keeps a law (specs/Places.antt).
//! It stands on the model of runs and on what lines say of statuses. The layers above read lines and judge them.
#![tactic(auto)]

mod audit_event;
mod law;

pub use audit_event::{AuditEvent, Verdict};
pub use law::{Law, first_stop};
