//! The line of a plan that lists tests, groups and setup scripts: `said_plan_line` writes it, and a reader of plan
//! lines reads it as just that plan. What is as usual is left out. It stands on the data of `run_events`.
#![tactic(auto)]

mod fields;
mod line;
mod said;
mod settings;
mod stress;
mod units;

pub use line::said_plan_line;
pub use said::SaidPlan;
