//! The settings that a project's profile gives its tests: times as texts, the platforms that a setting is for, and, for
//! each test, which override or plain key each of its settings comes from, and which setup scripts run before it.
//! Filters stay texts with their places: whether an override or a rule matches a test is the caller's to say. It stands
//! on `run_capture`, `run_commands` and `run_events`.
#![tactic(auto)]

mod both;
mod cfg;
mod errors;
mod fields;
mod group_table;
mod groups;
mod level_keys;
mod levels;
mod lists;
mod notes;
mod overrides;
mod retries;
mod run_keys;
mod said;
mod scan;
mod script_lines;
mod script_rules;
mod script_table;
mod scripts;
mod settings;
mod time;
mod timeouts;
mod version;

pub use cfg::{Cfg, PlatformFault, ROOM, platform_holds};
pub use errors::{Fault, ProfileError};
pub use groups::{TestGroup, Threads};
pub use levels::{LEVELS, Project, read_profile};
pub use notes::notes_of;
pub use run_keys::RunKeys;
pub use script_lines::script_order;
pub use scripts::{RelativeTo, ScriptCommand, ScriptRule, SetupScript};
pub use settings::{Chosen, Origin, Override, Profile, Said, Setting, TestSettings, Weight};
pub use time::{TimeFault, read_time};
pub use version::VersionsAsked;
