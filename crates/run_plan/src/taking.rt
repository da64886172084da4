// What is chosen, with a word more.
ghost use Rattle.std.specs.Prelude.{◌≡◌, Ok, Some};
ghost use Rattle.run_plan.specs.Words.{TakesValue, file_taken, no_choices, no_files, no_picks, no_ways};
ghost use Rattle.run_plan.specs.Words.{with_flag, with_name};
ghost use Rattle.run_plan.specs.Words.{once, pick_taken, with_setting, way_taken};

use crate::choices::{Choices, Files, Picks, Ways};
use crate::settings::{FileSetting, Flag, PickSetting, Setting, WaySetting};
use crate::values::{
    flaky_by_name, max_fail_named, partition_named, repeats_by_name, retries_named,
    run_ignored_named, some_number_named, time_by_name,
};
use crate::word_fault::{Untaken, WordFault};
use run_capture::{List, Text};
use run_events::MaxFail;
use std::alloc::Global;

// Puts a value that is one where none stands.
fn put<T: Drop>(slot: &mut Option<T>, value: Option<T>) -> Result<(), Untaken>
    ensures { TakesValue result (once slot.old value) slot.new }
{
    let Some(value) = value else {
        return Err(Untaken::Fault(WordFault::BadValue));
    };
    if slot.is_some() {
        return Err(Untaken::Fault(WordFault::Twice));
    }
    *slot = Some(value);
    Ok(())
}

// Puts a text where none stands.
fn put_text(alloc: Global, slot: &mut Option<Text>, value: &str) -> Result<(), Untaken>
    ensures { TakesValue result (once slot.old (Some value.now)) slot.new }
{
    put(slot, Some(Text::from_str(alloc, value)?))
}

impl Files {
    fn none() -> Files
        ensures { result ≡ no_files }
    {
        Files {
            list: None,
            cfg: None,
            config: None,
        }
    }

    #[tactic(auto, using(crate::proofs::WordLemmas::takes_with))]
    fn take(&mut self, alloc: Global, setting: FileSetting, value: &str) -> Result<(), Untaken>
        ensures { TakesValue result (file_taken setting value.now self.old) self.new }
    {
        match setting {
            FileSetting::List => put_text(alloc, &mut self.list, value),
            FileSetting::Cfg => put_text(alloc, &mut self.cfg, value),
            FileSetting::Config => put_text(alloc, &mut self.config, value),
        }
    }
}

impl Picks {
    fn none() -> Picks
        ensures { result ≡ no_picks }
    {
        Picks {
            filters: List::new(),
            names: List::new(),
            skips: List::new(),
            is_exact: false,
            ignores_default_filter: false,
            run_ignored: None,
            partition: None,
        }
    }

    #[tactic(auto, using(crate::proofs::WordLemmas::takes_with))]
    fn take(&mut self, alloc: Global, setting: PickSetting, value: &str) -> Result<(), Untaken>
        ensures { TakesValue result (pick_taken setting value.now self.old) self.new }
    {
        match setting {
            PickSetting::Filter => Ok(self.filters.push(alloc, Text::from_str(alloc, value)?)?),
            PickSetting::Skip => Ok(self.skips.push(alloc, Text::from_str(alloc, value)?)?),
            PickSetting::RunIgnored => put(&mut self.run_ignored, run_ignored_named(value)),
            PickSetting::Partition => put(&mut self.partition, partition_named(value)),
        }
    }
}

impl Ways {
    fn none() -> Ways
        ensures { result ≡ no_ways }
    {
        Ways {
            profile: None,
            threads: None,
            retries: None,
            flaky: None,
            max_fail: None,
            stress: None,
            no_capture: false,
        }
    }

    #[tactic(auto, using(crate::proofs::WordLemmas::takes_with))]
    fn take(&mut self, alloc: Global, setting: WaySetting, value: &str) -> Result<(), Untaken>
        ensures { TakesValue result (way_taken setting value.now self.old) self.new }
    {
        match setting {
            WaySetting::Profile => put_text(alloc, &mut self.profile, value),
            WaySetting::Threads => put(&mut self.threads, some_number_named(value)),
            WaySetting::Retries => put(&mut self.retries, retries_named(value)),
            WaySetting::Flaky => put(&mut self.flaky, flaky_by_name(value)),
            WaySetting::MaxFail => put(&mut self.max_fail, max_fail_named(value)),
            WaySetting::StressCount => put(&mut self.stress, repeats_by_name(value)),
            WaySetting::StressDuration => put(&mut self.stress, time_by_name(value)),
        }
    }
}

impl Choices {
    /// Nothing is chosen.
    pub(crate) fn none() -> Choices
        ensures { result ≡ no_choices }
    {
        Choices {
            files: Files::none(),
            picks: Picks::none(),
            ways: Ways::none(),
        }
    }

    /// Takes a value for a setting.
    #[tactic(auto, using(crate::proofs::WordLemmas::takes_with))]
    pub(crate) fn take(
        &mut self,
        alloc: Global,
        setting: Setting,
        value: &str,
    ) -> Result<(), Untaken>
        ensures { TakesValue result (with_setting setting value.now self.old) self.new }
    {
        match setting {
            Setting::File(setting) => self.files.take(alloc, setting, value),
            Setting::Pick(setting) => self.picks.take(alloc, setting, value),
            Setting::Way(setting) => self.ways.take(alloc, setting, value),
        }
    }

    /// Takes a word that has no value.
    #[tactic(auto, using(crate::proofs::WordLemmas::takes_with))]
    pub(crate) fn take_flag(&mut self, flag: Flag) -> Result<(), Untaken>
        ensures { TakesValue result (with_flag flag self.old) self.new }
    {
        match flag {
            Flag::Exact => self.picks.is_exact = true,
            Flag::IgnoreDefaultFilter => self.picks.ignores_default_filter = true,
            Flag::NoFailFast => return put(&mut self.ways.max_fail, Some(MaxFail::All)),
            Flag::NoCapture => self.ways.no_capture = true,
        }
        Ok(())
    }

    /// Takes a name.
    pub(crate) fn take_name(&mut self, alloc: Global, name: &str) -> Result<(), Untaken>
        ensures { TakesValue result (Ok (with_name name.now self.old)) self.new }
    {
        Ok(self.picks.names.push(alloc, Text::from_str(alloc, name)?)?)
    }
}
