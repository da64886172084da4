//! The laws for a program that stands on the calls of `run_engine` and keeps what it was told: what one more turn adds;
//! that a run has one sub-run, but a stress run; of which units events tell; how often each is told started, finished
//! and skipped; which events tell that a run is cancelled; what the ends of sub-runs say; and the outcome by what was
//! told. Each is a public function with an empty body, whose contract is a theorem over the definitions of `run_model`.
//! It stands on the lemmas of `run_laws`; `run_laws_audit`, `run_jobs` and `example_supervisor` stand on it.
#![tactic(auto)]

mod laws;

pub use laws::{
    a_run_has_one_sub_run, a_success_is_of_all, an_outcome_is_of_what_was_told,
    an_uncancelled_run_ends_as_told, causes_are_told, each_unit_finishes_once, events_are_numbered,
    nothing_stops_without_a_cause, reasons_rise, runs_end_as_told, runs_stop, sub_runs_are_told,
    told_of_one_more,
};
