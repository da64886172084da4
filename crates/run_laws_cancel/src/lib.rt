//! The laws of what a cause does, over every legal journal: what it asks of units and which of them that reaches; when
//! the global timer, the report of a refused event and a signal are enabled; which keys can come, and what each does;
//! whose children have a group of processes, and which are asked to stop and to go on; and that scripts come one by
//! one. Each is a public function with an empty body, whose contract is a theorem over the definitions of `run_model`.
//! It stands on the lemmas of `run_laws`; of the crates only `run_laws_audit` stands on it.
#![tactic(auto)]

mod laws;

pub use laws::{
    a_paused_run_goes_on, children_are_ended, keys_and_ticks_come_freely, keys_are_t_and_enter,
    pauses_are_of_signals, refusals_are_reported_once, requests_are_of_causes,
    requests_reach_the_live, rounds_are_waited_for, runs_take_turns, scripts_come_one_by_one,
    signals_are_heard_twice, signals_go_to_groups, stops_are_asked, sub_runs_are_timed,
    the_global_timer_is_counted, the_runner_stops_itself,
};
