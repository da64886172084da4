//! Laws of the plans of a project: which tests they have, why some are skipped, and how the parts of a partition share
//! them. Public functions with an empty body, whose contracts are theorems over the definitions of `run_plan`; nothing
//! stands on them.
#![tactic(auto)]

mod laws;

pub use laws::{parts_share_plans, plans_have_listed_tests, skips_have_first_reasons};
