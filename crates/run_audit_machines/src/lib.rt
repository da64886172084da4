//! The five laws that an auditor asks of a list of events, each as a machine that takes the events one by one: it
//! accepts just the lists that keep the law, and can be continued to an end from each state that comes. The layer
//! above has code for them, whose contracts name the machines.
#![tactic(auto)]

mod laws;
mod shape;

pub use laws::{
    accounts_are_a_machine, cancels_are_a_machine, limits_are_a_machine, scripts_are_a_machine,
    shape_is_a_machine,
};
pub use shape::ShapePlace;
