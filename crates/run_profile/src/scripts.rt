// The setup scripts of a project, and which tests they run before.
ghost use Rattle.std.specs.Prelude.{◌≡◌};
ghost use Rattle.run_profile.specs.Settings.{names_script, wants_script};

use crate::settings::Profile;
use run_capture::{List, Text};
use run_events::{LeakTimeout, SlowTimeout};

/// The folder that the program of a script's command is a path below.
#[derive(Clone, Copy, Drop)]
pub enum RelativeTo {
    /// None: the program is what its word says.
    Nothing,
    WorkspaceRoot,
    /// The folder that cargo builds into.
    Target,
}

/// The command of a setup script.
#[derive(Drop)]
pub struct ScriptCommand {
    /// The program and its arguments: one word at least.
    pub words: List<Text>,
    pub relative_to: RelativeTo,
}

/// A setup script, as a project's file says it.
pub struct SetupScript {
    pub name: Text,
    pub command: ScriptCommand,
    pub slow: Option<SlowTimeout>,
    pub leak: Option<LeakTimeout>,
    pub capture_stdout: Option<bool>,
    pub capture_stderr: Option<bool>,
}

// A call of its own, which keeps the proofs of all that hold scripts small.
impl Drop for SetupScript {
    fn drop(self) {
        let SetupScript {
            name: _,
            command: _,
            slow: _,
            leak: _,
            capture_stdout: _,
            capture_stderr: _,
        } = self;
    }
}

/// Setup scripts that run before the tests that a filter holds of.
pub struct ScriptRule {
    /// The profile that it stands in, and its number among the rules there, from 0.
    pub profile: Text,
    pub number: usize,
    /// The filter's text; where there is none, it holds of each test.
    pub filter: Option<Text>,
    /// The names of the scripts.
    pub scripts: List<Text>,
}

// The same for a rule.
impl Drop for ScriptRule {
    fn drop(self) {
        let ScriptRule {
            profile: _,
            number: _,
            filter: _,
            scripts: _,
        } = self;
    }
}

impl ScriptRule {
    /// Whether it names this script.
    pub fn names(&self, script: &str) -> bool
        ensures { result ≡ names_script script.now self.now }
    {
        self.scripts
            .as_slice()
            .iter()
            .any(|name| script == name.as_str())
    }
}

impl Profile {
    /// Whether a setup script runs before a test that rules match so, a truth value for each rule in their order: a
    /// rule that matches names it.
    pub fn wants_script(&self, script: &str, matches: &[bool]) -> bool
        ensures { result ≡ wants_script self.now script.now matches.now }
    {
        matches
            .iter()
            .zip(self.rules.as_slice().iter())
            .any(|(matches, rule)| *matches && rule.names(script))
    }
}
