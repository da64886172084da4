//! The plan line of a wave of jobs: of a plan of tests that say a name and a command and nothing else, whose output is
//! captured combined, and that hears no key. A reader of plan lines reads it as that plan.
#![tactic(auto)]

mod line;
mod values;

pub use line::{text_of, wave_line};
pub use values::{id_value, put_member, text_value, words_value};
