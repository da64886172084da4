//! From a project to a plan line: `read_words` reads the words of a call, and `plan_of` makes the line of a list of
//! tests in nextest's shape, the project's `nextest.toml`, and what the words choose. Each text is read whole, or
//! refused with the place of what is wrong. The layer stands on the filters of `run_filter`, the profiles of
//! `run_profile` and the printer of `run_plan_line`; it reads no file.
#![tactic(auto)]

mod asked;
mod asking;
mod calls;
mod choices;
mod columns;
mod filters;
mod kept;
mod list;
mod plan;
mod plan_fault;
mod plan_line;
mod planned;
mod platform;
mod reasons;
mod rows;
mod scripted;
mod settings;
mod suites;
mod taking;
mod test_list;
mod testcases;
mod texts;
mod values;
mod versions;
mod word_fault;
mod words;

pub use asked::{Asked, Call};
pub use calls::{NotedLine, Texts, plan_of};
pub use choices::{Choices, Files, Part, Picks, RunIgnored, Ways};
pub use list::read_list;
pub use plan_fault::PlanFault;
pub use test_list::{BinaryFacts, ListedTest, TestBinary, TestList};
pub use word_fault::{WordError, WordFault};
pub use words::read_words;
