// The settings that a profile gives a test.
ghost use Rattle.std.specs.Prelude.{◌≡◌, [], pos, unwrap_or, None, IfOk};
ghost use Rattle.std.specs.Option.{option_copied};
ghost use Rattle.run_profile.specs.Settings.{chosen, first_match, first_plain, names, no_profile, origin_of, said_at};
ghost use Rattle.run_profile.specs.Settings.{test_settings, weight_count, ComesFrom, IsFirstGiver, IsFirstSaid};
ghost use Rattle.run_profile.specs.declared.settings.Setting.TheVariants as settings;
ghost use Rattle.run_profile.specs.declared.settings.Weight.TheVariants as weights;
ghost use Rattle.run_events.specs.declared.result.FlakyResult.TheVariants as flakies;
ghost use Rattle.run_profile.specs.declared.groups.Threads.TheVariants as threads;
ghost use Rattle.run_events.specs.declared.retry_policy.MaxFail.TheVariants as limits;
ghost use Rattle.run_events.specs.declared.retry_policy.TerminateMode.TheVariants as modes;
ghost use Rattle.run_events.specs.Usual.{no_retries, usual_leak, usual_slow};

use crate::groups::Threads;
use crate::run_keys::RunKeys;
use crate::scripts::ScriptRule;
use run_capture::{Duplicate, List, Mem, Text};
use run_events::{FlakyResult, LeakTimeout, MaxFail, RetryPolicy, SlowTimeout, TerminateMode};
use std::alloc::Global;

/// What overrides and plain keys can say of a test.
#[derive(Clone, Copy)]
pub enum Setting {
    Retries,
    Flaky,
    Slow,
    Leak,
    Weight,
    Group,
    Priority,
    ExtraArgs,
}

/// How much of the limits a test takes while it runs.
#[derive(Clone, Copy, Drop)]
pub enum Weight {
    Count(u32),
    /// As much as there are processors.
    Processors,
    /// As much as there is in all.
    Threads,
}

impl Weight {
    /// The number, with so many processors, and so many tests that may run at a time.
    pub fn count(self, processors: u32, threads: u32) -> u32
        ensures { result ≡ weight_count processors threads self }
    {
        match self {
            Weight::Count(count) => count,
            Weight::Processors => processors,
            Weight::Threads => threads,
        }
    }
}

/// What an override, or the plain keys of a profile, say of tests.
pub struct Said {
    pub retries: Option<RetryPolicy>,
    pub flaky: Option<FlakyResult>,
    pub slow: Option<SlowTimeout>,
    pub leak: Option<LeakTimeout>,
    pub weight: Option<Weight>,
    /// The name of a group, or, where none is within, no group.
    pub group: Option<Option<Text>>,
    /// From -100 to 100.
    pub priority: Option<i8>,
    /// Words after those of the test's command.
    pub extra_args: Option<List<Text>>,
}

// A call of its own, which keeps the proofs of all that hold what is said small.
impl Drop for Said {
    fn drop(self) {
        let Said {
            retries: _,
            flaky: _,
            slow: _,
            leak: _,
            weight: _,
            group: _,
            priority: _,
            extra_args: _,
        } = self;
    }
}

/// Settings for the tests that a filter holds of.
pub struct Override {
    /// The profile that it stands in, and its number among the overrides there, from 0.
    pub profile: Text,
    pub number: usize,
    /// The filter's text; where there is none, it holds of each test.
    pub filter: Option<Text>,
    /// The text of the filter that tests of this platform run by, where it says one.
    pub default_filter: Option<Text>,
    pub said: Said,
}

// The same for an override.
impl Drop for Override {
    fn drop(self) {
        let Override {
            profile: _,
            number: _,
            filter: _,
            default_filter: _,
            said: _,
        } = self;
    }
}

/// Where a setting comes from.
#[derive(Clone, Copy, Drop)]
pub enum Origin {
    /// The override at this place, in order of precedence.
    Override(usize),
    /// The plain key of the profile at this place among the chosen one, those that it inherits, and `default`.
    Plain(usize),
    /// Nothing is said.
    Usual,
}

/// A setting, and where it comes from.
#[derive(Drop)]
pub struct Chosen<T> {
    pub value: T,
    pub origin: Origin,
}

/// The settings of a test.
#[derive(Drop)]
pub struct TestSettings {
    pub retries: Chosen<RetryPolicy>,
    pub flaky: Chosen<FlakyResult>,
    pub slow: Chosen<SlowTimeout>,
    pub leak: Chosen<LeakTimeout>,
    pub weight: Chosen<Weight>,
    pub group: Chosen<Option<Text>>,
    pub priority: Chosen<i8>,
    pub extra_args: Chosen<List<Text>>,
}

impl Said {
    /// Whether it says this setting.
    pub fn names(&self, setting: Setting) -> bool
        ensures { result ≡ names setting self.now }
    {
        match setting {
            Setting::Retries => self.retries.is_some(),
            Setting::Flaky => self.flaky.is_some(),
            Setting::Slow => self.slow.is_some(),
            Setting::Leak => self.leak.is_some(),
            Setting::Weight => self.weight.is_some(),
            Setting::Group => self.group.is_some(),
            Setting::Priority => self.priority.is_some(),
            Setting::ExtraArgs => self.extra_args.is_some(),
        }
    }
}

// The first override that matches and says a setting.
#[tactic(auto, using(crate::proofs::SettingsLemmas::first_giver))]
fn first_match(setting: Setting, overrides: &[Override], matches: &[bool]) -> Option<usize>
    ensures value { result ≡ first_match setting overrides.now matches.now }
    ensures place { IsFirstGiver setting overrides.now matches.now result }
{
    matches
        .iter()
        .zip(overrides.iter())
        .position(|(matches, o)| *matches && o.said.names(setting))
}

// The first profile whose plain keys say a setting.
#[tactic(auto, using(crate::proofs::SettingsLemmas::first_said))]
fn first_plain(setting: Setting, plain: &[Said]) -> Option<usize>
    ensures value { result ≡ first_plain setting plain.now }
    ensures place { IsFirstSaid setting plain.now result }
{
    plain.iter().position(|said| said.names(setting))
}

/// What a profile gives, with all that it inherits.
#[derive(Drop)]
pub struct Profile {
    /// In order of precedence: those of the chosen profile, of those it inherits, of `default`; each on this platform.
    pub overrides: List<Override>,
    /// The plain keys of the same profiles, in the same order.
    pub plain: List<Said>,
    /// The rules of setup scripts of the same profiles, in the same order; each on this platform.
    pub rules: List<ScriptRule>,
    /// Each from the first of these profiles that says it.
    pub run: RunKeys,
}

// A setting that is there, and else the usual one.
fn or_usual<T: Copy>(said: Option<T>, usual: T) -> T
    ensures { result ≡ unwrap_or said usual }
{
    match said {
        Some(value) => value,
        None => usual,
    }
}

// A copy of a setting that is there, and else the usual one.
fn copy_or<T: Duplicate + Drop>(alloc: Global, said: &Option<T>, usual: T) -> Mem<T>
    ensures { IfOk result (λ value. value ≡ unwrap_or said.now usual) }
{
    match said {
        Some(value) => value.copy(alloc),
        None => Ok(usual),
    }
}

impl Profile {
    /// Nothing is said.
    pub fn none() -> Profile
        ensures { result ≡ no_profile }
    {
        Profile {
            overrides: List::new(),
            plain: List::new(),
            rules: List::new(),
            run: RunKeys {
                threads: None,
                max_fail: None,
                global_timeout: None,
                default_filter: None,
            },
        }
    }

    /// How many tests may run at a time: as many as there are processors where nothing is said.
    pub fn threads(&self) -> Threads
        ensures { result ≡ unwrap_or self.now.run.threads (threads.Processors 0) }
    {
        or_usual(self.run.threads, Threads::Processors { less: 0 })
    }

    /// When a run gives up: at the first failure, where nothing is said, and then the tests that run go on.
    pub fn max_fail(&self) -> MaxFail
        ensures { result ≡ unwrap_or self.now.run.max_fail (limits.Count 1 modes.Wait) }
    {
        let usual = MaxFail::Count {
            max_fail: 1,
            terminate: TerminateMode::Wait,
        };
        or_usual(self.run.max_fail, usual)
    }

    /// Where a setting comes from, of a test that overrides match so, in order of precedence: the first override that
    /// matches and says it, else the first plain key.
    pub fn origin_of(&self, setting: Setting, matches: &[bool]) -> Origin
        ensures place { ComesFrom setting self.now matches.now result }
        ensures value { result ≡ origin_of setting self.now matches.now }
    {
        match first_match(setting, self.overrides.as_slice(), matches) {
            Some(place) => Origin::Override(place),
            None => match first_plain(setting, self.plain.as_slice()) {
                Some(level) => Origin::Plain(level),
                None => Origin::Usual,
            },
        }
    }

    /// What is said at an origin.
    pub fn said_at(&self, origin: Origin) -> Option<&Said>
        ensures { option_copied result ≡ said_at self.now origin }
    {
        match origin {
            Origin::Override(place) => match self.overrides.get(place) {
                Some(o) => Some(&o.said),
                None => None,
            },
            Origin::Plain(level) => self.plain.get(level),
            Origin::Usual => None,
        }
    }

    fn retries_of(&self, matches: &[bool]) -> Chosen<RetryPolicy>
        ensures { result
            ≡ chosen self.now (origin_of settings.Retries self.now matches.now) (λ s. s.retries) no_retries }
    {
        let origin = self.origin_of(Setting::Retries, matches);
        let value = match self.said_at(origin) {
            Some(said) => or_usual(said.retries, RetryPolicy::none()),
            None => RetryPolicy::none(),
        };
        Chosen { value, origin }
    }

    fn flaky_of(&self, matches: &[bool]) -> Chosen<FlakyResult>
        ensures { result ≡ chosen self.now (origin_of settings.Flaky self.now matches.now) (λ s. s.flaky) flakies.Pass }
    {
        let origin = self.origin_of(Setting::Flaky, matches);
        let value = match self.said_at(origin) {
            Some(said) => or_usual(said.flaky, FlakyResult::Pass),
            None => FlakyResult::Pass,
        };
        Chosen { value, origin }
    }

    fn slow_of(&self, matches: &[bool]) -> Chosen<SlowTimeout>
        ensures { result ≡ chosen self.now (origin_of settings.Slow self.now matches.now) (λ s. s.slow) usual_slow }
    {
        let origin = self.origin_of(Setting::Slow, matches);
        let value = match self.said_at(origin) {
            Some(said) => or_usual(said.slow, SlowTimeout::usual()),
            None => SlowTimeout::usual(),
        };
        Chosen { value, origin }
    }

    fn leak_of(&self, matches: &[bool]) -> Chosen<LeakTimeout>
        ensures { result ≡ chosen self.now (origin_of settings.Leak self.now matches.now) (λ s. s.leak) usual_leak }
    {
        let origin = self.origin_of(Setting::Leak, matches);
        let value = match self.said_at(origin) {
            Some(said) => or_usual(said.leak, LeakTimeout::usual()),
            None => LeakTimeout::usual(),
        };
        Chosen { value, origin }
    }

    fn weight_of(&self, matches: &[bool]) -> Chosen<Weight>
        ensures { result
            ≡ chosen self.now (origin_of settings.Weight self.now matches.now) (λ s. s.weight) (weights.Count 1) }
    {
        let origin = self.origin_of(Setting::Weight, matches);
        let value = match self.said_at(origin) {
            Some(said) => or_usual(said.weight, Weight::Count(1)),
            None => Weight::Count(1),
        };
        Chosen { value, origin }
    }

    fn priority_of(&self, matches: &[bool]) -> Chosen<i8>
        ensures { result
            ≡ chosen self.now (origin_of settings.Priority self.now matches.now) (λ s. s.priority) (pos 0) }
    {
        let origin = self.origin_of(Setting::Priority, matches);
        let value = match self.said_at(origin) {
            Some(said) => or_usual(said.priority, 0),
            None => 0,
        };
        Chosen { value, origin }
    }

    fn group_of(&self, alloc: Global, matches: &[bool]) -> Mem<Chosen<Option<Text>>>
        ensures { IfOk result
            (λ r. r ≡ chosen self.now (origin_of settings.Group self.now matches.now) (λ s. s.group) None) }
    {
        let origin = self.origin_of(Setting::Group, matches);
        let value = match self.said_at(origin) {
            Some(said) => copy_or(alloc, &said.group, None)?,
            None => None,
        };
        Ok(Chosen { value, origin })
    }

    fn extra_args_of(&self, alloc: Global, matches: &[bool]) -> Mem<Chosen<List<Text>>>
        ensures { IfOk result
            (λ r. r ≡ chosen self.now (origin_of settings.ExtraArgs self.now matches.now) (λ s. s.extra_args) []) }
    {
        let origin = self.origin_of(Setting::ExtraArgs, matches);
        let value = match self.said_at(origin) {
            Some(said) => copy_or(alloc, &said.extra_args, List::new())?,
            None => List::new(),
        };
        Ok(Chosen { value, origin })
    }

    /// The settings of a test that overrides match so: a truth value for each override, in order of precedence. Each
    /// setting is that of the first override that matches and says it, else that of the first plain key, else the
    /// usual.
    #[tactic(auto, unfolding(crate::specs::Settings::test_settings))]
    pub fn settings_of(&self, alloc: Global, matches: &[bool]) -> Mem<TestSettings>
        ensures { IfOk result (λ s. s ≡ test_settings self.now matches.now) }
    {
        let group = self.group_of(alloc, matches)?;
        let extra_args = self.extra_args_of(alloc, matches)?;
        Ok(TestSettings {
            retries: self.retries_of(matches),
            flaky: self.flaky_of(matches),
            slow: self.slow_of(matches),
            leak: self.leak_of(matches),
            weight: self.weight_of(matches),
            group,
            priority: self.priority_of(matches),
            extra_args,
        })
    }
}
