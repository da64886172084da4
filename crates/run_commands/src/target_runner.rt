// Runners: programs that run a test's binary in place of running it directly.
ghost use Rattle.std.specs.Prelude.{◌≡◌, [], ◌∷◌, ◌++◌, Option, None, IfOk, OnOk, map, string_bytes};
ghost use Rattle.std.specs.Option.{option_copied};
ghost use Rattle.std.specs.Iterator.{YieldsFirstRef, item_count};
ghost use Rattle.run_commands.specs.declared.target_runner.BuildPlatform.{BuildPlatform};
ghost use Rattle.run_commands.specs.declared.target_runner.BuildPlatform.TheVariants as built_for;
ghost use Rattle.run_commands.specs.declared.target_runner.PlatformRunner.{PlatformRunner};
ghost use Rattle.run_commands.specs.TargetRunner.{no_runners, runners_with, runner_with, runner_for};
ghost use Rattle.run_commands.specs.TargetRunner.{binary_of, args_of, source_of, args_left};
ghost use Rattle.run_commands.specs.RunnerVariable.{letter_in_variable, runner_variable};

use run_capture::{Duplicate, List, Mem, Text};
use std::alloc::Global;
use std::fmt;
use std::fmt::{Display, Write};

/// The platform that a binary was built for.
#[derive(Clone, Copy, Debug, PartialEq, Eq)]
pub enum BuildPlatform {
    /// The platform that the tests are for.
    Target,
    /// The platform that runs the build.
    Host,
}

/// The runners of both platforms, each where there is one.
#[derive(Debug, Drop, PartialEq, Eq)]
pub struct TargetRunner {
    host: Option<PlatformRunner>,
    target: Option<PlatformRunner>,
}

/// A runner's program, its arguments, and where it was named.
#[derive(Debug, PartialEq, Eq)]
pub struct PlatformRunner {
    runner_binary: Text,
    args: List<Text>,
    source: PlatformRunnerSource,
}

/// Which configuration of Cargo names a runner.
#[derive(Debug, Drop, PartialEq, Eq)]
pub enum CargoConfigSource {
    /// A value given by `--config`.
    CliOption,
    /// The file of this path.
    File(Text),
}

/// Where a runner was named.
#[derive(Debug, Drop, PartialEq, Eq)]
pub enum PlatformRunnerSource {
    /// The environment variable of this name.
    Env(Text),
    /// A configuration of Cargo.
    CargoConfig {
        /// Which configuration it is.
        source: CargoConfigSource,
        /// The table under `target` that names the runner.
        target_table: Text,
    },
}

// A call of its own, which keeps the proofs of all that hold a runner small.
impl Drop for PlatformRunner {
    fn drop(self) {
        let PlatformRunner {
            runner_binary: _,
            args: _,
            source: _,
        } = self;
    }
}

impl TargetRunner {
    /// No runner on either platform.
    pub fn empty() -> Self
        ensures same { result ≡ no_runners }
        ensures none { (platform : BuildPlatform) → runner_for result platform ≡ None }
    {
        TargetRunner {
            host: None,
            target: None,
        }
    }

    /// These runners.
    pub fn of(host: Option<PlatformRunner>, target: Option<PlatformRunner>) -> Self
        ensures same { result ≡ runners_with host target }
        ensures host { runner_for result built_for.Host ≡ host }
        ensures target { runner_for result built_for.Target ≡ target }
    {
        TargetRunner { host, target }
    }

    pub fn target(&self) -> Option<&PlatformRunner>
        ensures { option_copied result ≡ runner_for self.now built_for.Target }
    {
        self.target.as_ref()
    }

    pub fn host(&self) -> Option<&PlatformRunner>
        ensures { option_copied result ≡ runner_for self.now built_for.Host }
    {
        self.host.as_ref()
    }

    pub fn for_build_platform(&self, build_platform: BuildPlatform) -> Option<&PlatformRunner>
        ensures { option_copied result ≡ runner_for self.now build_platform }
    {
        match build_platform {
            BuildPlatform::Target => self.target(),
            BuildPlatform::Host => self.host(),
        }
    }

    /// The target's runner, then the host's.
    pub fn all_build_platforms(&self) -> [(BuildPlatform, Option<&PlatformRunner>); 2]
        ensures { map {B = BuildPlatform × Option PlatformRunner} (λ p. (p.0, option_copied p.1)) result
            ≡ (built_for.Target, runner_for self.now built_for.Target)
            ∷ (built_for.Host, runner_for self.now built_for.Host) ∷ [] }
    {
        [
            (BuildPlatform::Target, self.target()),
            (BuildPlatform::Host, self.host()),
        ]
    }
}

impl PlatformRunner {
    /// A runner of these parts.
    pub fn debug_new(
        runner_binary: Text,
        args: List<Text>,
        source: PlatformRunnerSource,
    ) -> PlatformRunner
        ensures same { result ≡ runner_with runner_binary args source }
        ensures binary { binary_of result ≡ runner_binary }
        ensures args { args_of result ≡ args }
        ensures source { source_of result ≡ source }
    {
        PlatformRunner {
            runner_binary,
            args,
            source,
        }
    }

    pub fn binary(&self) -> &str
        ensures { result.now ≡ binary_of self.now }
    {
        self.runner_binary.as_str()
    }

    /// The arguments that come before the test's binary, in order.
    pub fn args(&self) -> RunnerArgs<'_>
        ensures { args_left result ≡ args_of self.now }
    {
        RunnerArgs {
            rest: self.args.as_slice(),
        }
    }

    pub fn source(&self) -> &PlatformRunnerSource
        ensures { result.now ≡ source_of self.now }
    {
        &self.source
    }

    /// The variable that names the runner of a target triple.
    pub fn runner_env_var(alloc: Global, triple: &str) -> Mem<Text>
        ensures { IfOk result (λ name. name ≡ runner_variable triple.now) }
    {
        let mut name = String::from_str(alloc, "CARGO_TARGET_")?;
        push_letters(&mut name, triple)?;
        name.push_str("_RUNNER")?;
        Ok(Text::from_string(name))
    }
}

/// The arguments of a runner that are left, in order.
#[derive(Clone, Copy, Debug)]
pub struct RunnerArgs<'a> {
    rest: &'a [Text],
}

impl<'a> Iterator for RunnerArgs<'a> {
    type Item = &'a str;

    ghost next_gives = { YieldsFirstRef args_left };

    ghost remaining = { item_count args_left };

    fn next(&mut self) -> Option<&'a str> {
        let (first, rest) = self.rest.split_first()?;
        self.rest = rest;
        Some(first.as_str())
    }
}

// A letter of a target triple in the name of a variable.
fn variable_letter(letter: char) -> char
    ensures { result ≡ letter_in_variable letter }
{
    if letter == '-' {
        '_'
    } else {
        letter.to_ascii_uppercase()
    }
}

// Adds a target triple as it stands in the name of a variable.
fn push_letters(name: &mut String, triple: &str) -> Mem<()>
    ensures { OnOk result (string_bytes name.new ≡ string_bytes name.old ++ map letter_in_variable triple.now) }
{
    for letter in triple.chars() {
        name.push(variable_letter(letter))?;
    }
    Ok(())
}

impl Display for CargoConfigSource {
    ghost use Rattle.run_commands.specs.RunnerSource.{config_text};
    ghost use Rattle.std.specs.Prelude.{Some};

    ghost output = { λ s. Some (config_text s) };

    fn fmt<W: Write>(&self, f: &mut fmt::Formatter<W>) -> fmt::Result {
        match self {
            CargoConfigSource::CliOption => f.write_str("specified by `--config`"),
            CargoConfigSource::File(path) => {
                let path = path.as_str();
                write!(f, "within `{path}`")
            }
        }
    }
}

impl Display for PlatformRunnerSource {
    ghost use Rattle.run_commands.specs.RunnerSource.{source_text};
    ghost use Rattle.std.specs.Prelude.{Some};

    ghost output = { λ s. Some (source_text s) };

    fn fmt<W: Write>(&self, f: &mut fmt::Formatter<W>) -> fmt::Result {
        match self {
            PlatformRunnerSource::Env(name) => {
                let name = name.as_str();
                write!(f, "environment variable `{name}`")
            }
            PlatformRunnerSource::CargoConfig {
                source,
                target_table,
            } => {
                let table = target_table.as_str();
                write!(f, "`target.{table}.runner` {source}")
            }
        }
    }
}

impl Duplicate for BuildPlatform {
    fn copy(&self, _alloc: Global) -> Mem<BuildPlatform> {
        Ok(*self)
    }
}

impl Duplicate for TargetRunner {
    fn copy(&self, alloc: Global) -> Mem<TargetRunner> {
        Ok(TargetRunner {
            host: self.host.copy(alloc)?,
            target: self.target.copy(alloc)?,
        })
    }
}

impl Duplicate for PlatformRunner {
    fn copy(&self, alloc: Global) -> Mem<PlatformRunner> {
        Ok(PlatformRunner {
            runner_binary: self.runner_binary.copy(alloc)?,
            args: self.args.copy(alloc)?,
            source: self.source.copy(alloc)?,
        })
    }
}

impl Duplicate for CargoConfigSource {
    fn copy(&self, alloc: Global) -> Mem<CargoConfigSource> {
        match self {
            CargoConfigSource::CliOption => Ok(CargoConfigSource::CliOption),
            CargoConfigSource::File(path) => Ok(CargoConfigSource::File(path.copy(alloc)?)),
        }
    }
}

impl Duplicate for PlatformRunnerSource {
    fn copy(&self, alloc: Global) -> Mem<PlatformRunnerSource> {
        match self {
            PlatformRunnerSource::Env(name) => Ok(PlatformRunnerSource::Env(name.copy(alloc)?)),
            PlatformRunnerSource::CargoConfig {
                source,
                target_table,
            } => Ok(PlatformRunnerSource::CargoConfig {
                source: source.copy(alloc)?,
                target_table: target_table.copy(alloc)?,
            }),
        }
    }
}
