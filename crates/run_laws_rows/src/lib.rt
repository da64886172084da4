//! Laws of single rows of the tables, over every legal journal: what the result of an attempt is, by what its child
//! did; the delay before an attempt, in whole numbers; and what the statistics count. Each is a public function with an
//! empty body, whose contract is a theorem over the definitions of `run_model`. It stands on the lemmas of `run_laws`;
//! nothing stands on it.
#![tactic(auto)]

mod laws;

pub use laws::{
    delays_are_whole, results_are_by_children, statistics_count_finishes, units_go_by_the_plan,
    usual_values_are_numbers,
};
