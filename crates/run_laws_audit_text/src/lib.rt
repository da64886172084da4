//! The law that the text of a replay gets `yes`: an auditor that is given the lines of a replay's input, the line that
//! says that event lines follow, and the lines that the replay wrote reads the plan, the turns and what an auditor sees
//! of the events that the run told, and so answers that these keep the run. It stands on the laws of event lines and on
//! what the contracts of the two programs say. The laws are public functions with an empty body.
#![tactic(auto)]

mod laws;

pub use laws::{audits_have_these_lines, replayed_text_gets_yes, replayed_text_is_read};
