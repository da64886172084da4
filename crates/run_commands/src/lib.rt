//! What a child process is started with: the commands of debuggers and tracers as words, the
//! variables that a setup script hands on, target runners, the variables that tell versions, and
//! the counts of a stress run. It stands on `run_capture`; the layers above use its types in plans,
//! events and asks.
#![tactic(auto)]

mod command;
mod env_file;
mod env_line;
mod env_map;
mod errors;
mod handle_inheritance;
mod interceptor;
mod laws;
mod script_helpers;
mod stress_count;
mod target_runner;
mod version_env_vars;
mod words;

pub use command::{DebuggerCommand, TracerCommand};
pub use env_file::{ENV_FILE_LIMIT, read_env_file};
pub use env_map::EnvMap;
pub use errors::{DebuggerCommandParseError, SetupScriptOutputError, TracerCommandParseError};
pub use interceptor::Interceptor;
pub use laws::{
    a_command_has_its_words, a_text_has_one_reading, an_env_text_has_no_bad_line,
    an_environment_is_given_one_way,
};
pub use script_helpers::{EnvInput, env_outcome, parse_env_text};
pub use stress_count::{StressCondition, StressCount, StressCountParseError};
pub use target_runner::{BuildPlatform, PlatformRunner, TargetRunner};
pub use version_env_vars::VersionEnvVars;

// For callers of this library. No crate above names these.
pub use handle_inheritance::{ConfigureHandleInheritanceError, configure_handle_inheritance};
pub use target_runner::{CargoConfigSource, PlatformRunnerSource, RunnerArgs};
