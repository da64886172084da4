// What the value of a word says.
ghost use Rattle.std.specs.Prelude.{◌≡◌, option_map};
ghost use Rattle.std.specs.Result.{result_ok};
ghost use Rattle.run_commands.specs.declared.stress_count.StressCondition.TheVariants as conditions;
ghost use Rattle.run_filter.specs.PartitionWord.{partition_of};
ghost use Rattle.run_input.specs.PlanStress.{repeats_named};
ghost use Rattle.run_profile.specs.Time.{time_said};
ghost use Rattle.run_plan.specs.Values.{flaky_by_name, max_fail_named, mode_by_name, number_named};
ghost use Rattle.run_plan.specs.Values.{parts_at, retries_named, run_ignored_named};
ghost use Rattle.run_plan.specs.Values.{some_number_named};

use crate::choices::{Part, RunIgnored};
use run_commands::StressCondition;
use run_events::{FlakyResult, MaxFail, TerminateMode};
use run_filter::read_partition;
use run_input::parse_repeats;
use run_profile::read_time;

/// The parts of a text round its first `=`.
pub fn parts_at_equals(text: &str) -> Option<(&str, &str)>
    ensures { option_map (λ p. (p.0.now, p.1.now)) result ≡ parts_at 61 text.now }
{
    text.split_once('=')
}

fn parts_at_colon(text: &str) -> Option<(&str, &str)>
    ensures { option_map (λ p. (p.0.now, p.1.now)) result ≡ parts_at 58 text.now }
{
    text.split_once(':')
}

fn number_named(text: &str) -> Option<u32>
    ensures { result ≡ number_named text.now }
{
    text.parse::<u32>().ok()
}

/// A number from 1.
pub fn some_number_named(text: &str) -> Option<u32>
    ensures { result ≡ some_number_named text.now }
{
    let number = number_named(text)?;
    if number == 0 { None } else { Some(number) }
}

/// How often all is repeated.
pub fn repeats_by_name(text: &str) -> Option<StressCondition>
    ensures { result ≡ option_map conditions.Count (repeats_named text.now) }
{
    match parse_repeats(text) {
        Some(count) => Some(StressCondition::Count(count)),
        None => None,
    }
}

/// For how long.
pub fn time_by_name(text: &str) -> Option<StressCondition>
    ensures { result ≡ option_map conditions.Duration (result_ok (time_said text.now)) }
{
    match read_time(text) {
        Ok(time) => Some(StressCondition::Duration(time)),
        Err(_) => None,
    }
}

pub fn retries_named(text: &str) -> Option<u32>
    ensures { result ≡ retries_named text.now }
{
    let number = number_named(text)?;
    if number < 4294967295 {
        Some(number)
    } else {
        None
    }
}

pub fn run_ignored_named(text: &str) -> Option<RunIgnored>
    ensures { result ≡ run_ignored_named text.now }
{
    match text {
        "default" => Some(RunIgnored::Default),
        "only" => Some(RunIgnored::Only),
        "all" => Some(RunIgnored::All),
        _ => None,
    }
}

pub fn flaky_by_name(text: &str) -> Option<FlakyResult>
    ensures { result ≡ flaky_by_name text.now }
{
    match text {
        "pass" => Some(FlakyResult::Pass),
        "fail" => Some(FlakyResult::Fail),
        _ => None,
    }
}

fn mode_by_name(text: &str) -> Option<TerminateMode>
    ensures { result ≡ mode_by_name text.now }
{
    match text {
        "wait" => Some(TerminateMode::Wait),
        "immediate" => Some(TerminateMode::Immediate),
        _ => None,
    }
}

pub fn max_fail_named(text: &str) -> Option<MaxFail>
    ensures { result ≡ max_fail_named text.now }
{
    if text == "all" {
        return Some(MaxFail::All);
    }
    match parts_at_colon(text) {
        Some((count, mode)) => Some(MaxFail::Count {
            max_fail: number_named(count)?,
            terminate: mode_by_name(mode)?,
        }),
        None => Some(MaxFail::Count {
            max_fail: number_named(text)?,
            terminate: TerminateMode::Wait,
        }),
    }
}

pub fn partition_named(text: &str) -> Option<Part>
    ensures { result ≡ result_ok (partition_of text.now) }
{
    match read_partition(text) {
        Ok(partition) => Some(Part { partition }),
        Err(_) => None,
    }
}
