//! The auditor of recorded runs: `audit` carries out the turns of a run and judges events by what that run told. What a
//! verdict says stands in `run_audit_model`; that what a run told is what is due of it, in `run_laws_audit`; and the
//! laws are judged event by event by the passes of `run_audit_passes`.
#![tactic(auto)]

mod absent;
mod auditing;
mod due;
mod needs;
mod scripts;
mod stops;
mod tests;
mod verdict;

pub use auditing::audit;
