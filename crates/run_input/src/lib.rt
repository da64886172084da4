//! The input of a run: all bytes of a source, its lines, and what each line means. The first line is
//! the plan, each later one a turn. A line is a JSON object with the keys of its table, and no float;
//! the first line that is anything else is named by its number. A reader that refuses says what is wrong, and where
//! (`Refusal`, `Misfit`). Those of fields are for other lines too.
#![tactic(auto)]

mod both;
mod errors;
mod fields;
mod floats;
mod input;
mod laws;
mod lines;
mod misfit;
mod not_json;
mod objects;
mod plan_expected;
mod plan_head;
mod plan_interceptor;
mod plan_keys;
mod plan_line;
mod plan_retries;
mod plan_runners;
mod plan_scripts;
mod plan_stress;
mod plan_test;
mod reading;
mod refusal;
mod turn_fields;
mod turn_line;
mod turn_name;
mod value;

pub use errors::{InputError, LineError};
pub use fields::{
    no_text, optional_text_at, optional_u32_at, str_at, text_at, text_or, texts_at, texts_or_none,
    time_at, truth_at, truth_or, u32_at, u32_or, u64_at,
};
pub use input::{Input, JsonTurns, ReadTurn, read_input, read_input_by, read_plan_alone};
pub use laws::an_input_has_no_bad_line;
pub use lines::split_line;
pub use misfit::{Misfit, Wrong};
pub use objects::{has_keys_of, only_keys};
pub use plan_line::{RunnerKeys, plan_line_misfit, read_plan_line};
pub use plan_stress::parse_repeats;
pub use reading::{INPUT_LIMIT, read_all};
pub use refusal::{Refusal, in_item, missing, or_not, under};
pub use turn_line::{read_turn_line, turn_line_misfit};
pub use value::read_value;

// Names that callers know from here.
pub use run_capture::{ReadError as ReadAllError, StdSink, StdSource};
