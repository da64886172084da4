//! The law of refused plans: which rules a plan is held to, and which broken one `build` names. A public function with
//! an empty body, whose contract is a theorem over the definitions of `run_engine`; nothing stands on it.
#![tactic(auto)]

mod laws;

pub use laws::plans_are_refused_in_order;
