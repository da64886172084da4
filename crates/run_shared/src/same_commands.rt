// Whether two commands, their runners or their versions are the same.
ghost use Rattle.std.specs.Prelude.{◌≡◌, ◌↔◌, IsTrue, option_map};
ghost use Rattle.std.specs.Option.{option_copied};
ghost use Rattle.run_commands.specs.TargetRunner.{args_left};
ghost use Rattle.semver.specs.Identifiers.{parts_of};

use crate::same::{Same, same_items};
use run_commands::{
    CargoConfigSource, DebuggerCommand, Interceptor, PlatformRunner, PlatformRunnerSource,
    RunnerArgs, TargetRunner, TracerCommand, VersionEnvVars,
};
use semver::Version;

// Whether two lists of arguments that are left are the same.
fn same_args(mut a: RunnerArgs<'_>, mut b: RunnerArgs<'_>) -> bool
    ensures { IsTrue result ↔ (args_left a.entry ≡ args_left b.entry) }
{
    loop {
        match (a.next(), b.next()) {
            (Some(x), Some(y)) => {
                if x != y {
                    return false;
                }
            }
            (None, None) => return true,
            _ => return false,
        }
    }
}

impl Same for CargoConfigSource {
    fn same(&self, other: &CargoConfigSource) -> bool {
        match (self, other) {
            (CargoConfigSource::CliOption, CargoConfigSource::CliOption) => true,
            (CargoConfigSource::File(a), CargoConfigSource::File(b)) => a.same(b),
            _ => false,
        }
    }
}

impl Same for PlatformRunnerSource {
    fn same(&self, other: &PlatformRunnerSource) -> bool {
        match (self, other) {
            (PlatformRunnerSource::Env(a), PlatformRunnerSource::Env(b)) => a.same(b),
            (
                PlatformRunnerSource::CargoConfig {
                    source,
                    target_table,
                },
                PlatformRunnerSource::CargoConfig {
                    source: other_source,
                    target_table: other_table,
                },
            ) => source.same(other_source) && target_table.same(other_table),
            _ => false,
        }
    }
}

impl Same for PlatformRunner {
    fn same(&self, other: &PlatformRunner) -> bool {
        self.binary() == other.binary()
            && same_args(self.args(), other.args())
            && self.source().same(other.source())
    }
}

fn same_runner(a: Option<&PlatformRunner>, b: Option<&PlatformRunner>) -> bool
    ensures { IsTrue result ↔ (option_copied a.entry ≡ option_copied b.entry) }
{
    match (a, b) {
        (Some(a), Some(b)) => a.same(b),
        (None, None) => true,
        _ => false,
    }
}

impl Same for TargetRunner {
    fn same(&self, other: &TargetRunner) -> bool {
        same_runner(self.host(), other.host()) && same_runner(self.target(), other.target())
    }
}

// Whether two versions have the same parts.
fn same_version(a: &Version, b: &Version) -> bool
    ensures { IsTrue result ↔ (parts_of a.now ≡ parts_of b.now) }
{
    a.major == b.major
        && a.minor == b.minor
        && a.patch == b.patch
        && a.pre.as_str() == b.pre.as_str()
        && a.build.as_str() == b.build.as_str()
}

fn same_maybe(a: &Option<Version>, b: &Option<Version>) -> bool
    ensures { IsTrue result ↔ (option_map parts_of a.now ≡ option_map parts_of b.now) }
{
    match (a, b) {
        (Some(a), Some(b)) => same_version(a, b),
        (None, None) => true,
        _ => false,
    }
}

impl Same for VersionEnvVars {
    fn same(&self, other: &VersionEnvVars) -> bool {
        same_version(&self.current_version, &other.current_version)
            && same_maybe(&self.required_version, &other.required_version)
            && same_maybe(&self.recommended_version, &other.recommended_version)
    }
}

impl Same for DebuggerCommand {
    fn same(&self, other: &DebuggerCommand) -> bool {
        self.program() == other.program() && same_items(self.args(), other.args())
    }
}

impl Same for TracerCommand {
    fn same(&self, other: &TracerCommand) -> bool {
        self.program() == other.program() && same_items(self.args(), other.args())
    }
}

impl Same for Interceptor {
    fn same(&self, other: &Interceptor) -> bool {
        match (self, other) {
            (Interceptor::None, Interceptor::None) => true,
            (Interceptor::Debugger(a), Interceptor::Debugger(b)) => a.same(b),
            (Interceptor::Tracer(a), Interceptor::Tracer(b)) => a.same(b),
            _ => false,
        }
    }
}
