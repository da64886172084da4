// What a profile says of the whole run.
ghost use Rattle.std.specs.Prelude.{◌≡◌, codes, None};
ghost use Rattle.toml.specs.View.{view};
ghost use Rattle.run_profile.specs.Refusals.{Agrees};
ghost use Rattle.run_profile.specs.Fields.{needed, optional_key};
ghost use Rattle.run_profile.specs.Levels.{fail_fast_of, fail_fast_said, failures_of, max_fail_with, mode_read};
ghost use Rattle.run_profile.specs.Levels.{run_keys_of};
ghost use Rattle.run_profile.specs.Levels.{run_or, threads_number, threads_read};

use crate::errors::{Fault, ProfileError, dotted, refused};
use crate::fields::{number_from, only_keys, optional_text, optional_time};
use crate::groups::Threads;
use run_capture::Text;
use run_events::{MaxFail, TerminateMode};
use std::alloc::Global;
use toml::Value;

/// What profiles say of the whole run, each where it is said.
pub struct RunKeys {
    /// How many tests may run at a time.
    pub threads: Option<Threads>,
    /// After how many failures no test starts any more.
    pub max_fail: Option<MaxFail>,
    /// In nanoseconds.
    pub global_timeout: Option<u64>,
    /// The text of the filter that tests run by.
    pub default_filter: Option<Text>,
}

// A call of its own, which keeps the proofs of all that hold keys of a run small.
impl Drop for RunKeys {
    fn drop(self) {
        let RunKeys {
            threads: _,
            max_fail: _,
            global_timeout: _,
            default_filter: _,
        } = self;
    }
}

impl RunKeys {
    /// Each key that these say, else what the others say of it.
    pub fn or(self, others: RunKeys) -> RunKeys
        ensures { result ≡ run_or self others }
    {
        let RunKeys {
            threads,
            max_fail,
            global_timeout,
            default_filter,
        } = self;
        let RunKeys {
            threads: other_threads,
            max_fail: other_max_fail,
            global_timeout: other_timeout,
            default_filter: other_filter,
        } = others;
        RunKeys {
            threads: threads.or(other_threads),
            max_fail: max_fail.or(other_max_fail),
            global_timeout: global_timeout.or(other_timeout),
            default_filter: default_filter.or(other_filter),
        }
    }
}

const MOST: u32 = 4_294_967_295;

fn threads_number(number: i64) -> Option<Threads>
    ensures { result ≡ threads_number number }
{
    if 0 < number && number <= 4_294_967_295 {
        return Some(Threads::Count(number as u32));
    }
    if number < 0 && -4_294_967_295 <= number {
        return Some(Threads::Processors {
            less: number.unsigned_abs() as u32,
        });
    }
    None
}

/// How many tests may run at a time: a number, `num-cpus`, or a negative number for as many as there are processors,
/// less so many.
#[tactic(auto, unfolding(crate::specs::Levels::threads_read))]
pub fn threads_from(alloc: Global, path: &str, value: &Value) -> Result<Threads, ProfileError>
    ensures { Agrees result (threads_read path.now (view value.now)) }
{
    match value.as_str() {
        Some("num-cpus") => return Ok(Threads::Processors { less: 0 }),
        Some(_) => return refused(alloc, path, Fault::NotWord),
        None => {}
    }
    let Some(number) = value.as_integer() else {
        return refused(alloc, path, Fault::NotNumber);
    };
    match threads_number(number) {
        Some(threads) => Ok(threads),
        None => refused(alloc, path, Fault::OutOfRange),
    }
}

fn threads_at(alloc: Global, path: &str, table: &Value) -> Result<Option<Threads>, ProfileError>
    ensures { Agrees result (optional_key threads_read path.now (codes "test-threads") (view table.now)) }
{
    match table.get("test-threads") {
        Some(value) => {
            let path = dotted(alloc, path, "test-threads")?;
            Ok(Some(threads_from(alloc, path.as_str(), value)?))
        }
        None => Ok(None),
    }
}

fn failures_from(alloc: Global, path: &str, value: &Value) -> Result<Option<u32>, ProfileError>
    ensures { Agrees result (failures_of path.now (view value.now)) }
{
    match value.as_str() {
        Some("all") => Ok(None),
        Some(_) => refused(alloc, path, Fault::NotWord),
        None => Ok(Some(number_from(alloc, path, 1, MOST, value)?)),
    }
}

fn failures_at(alloc: Global, path: &str, table: &Value) -> Result<Option<u32>, ProfileError>
    ensures { Agrees result (needed failures_of path.now (codes "max-fail") (view table.now)) }
{
    let path = dotted(alloc, path, "max-fail")?;
    match table.get("max-fail") {
        Some(value) => failures_from(alloc, path.as_str(), value),
        None => refused(alloc, path.as_str(), Fault::MissingKey),
    }
}

fn mode_from(alloc: Global, path: &str, value: &Value) -> Result<TerminateMode, ProfileError>
    ensures { Agrees result (mode_read path.now (view value.now)) }
{
    match value.as_str() {
        Some("wait") => Ok(TerminateMode::Wait),
        Some("immediate") => Ok(TerminateMode::Immediate),
        Some(_) => refused(alloc, path, Fault::NotWord),
        None => refused(alloc, path, Fault::NotText),
    }
}

fn mode_at(alloc: Global, path: &str, table: &Value) -> Result<Option<TerminateMode>, ProfileError>
    ensures { Agrees result (optional_key mode_read path.now (codes "terminate") (view table.now)) }
{
    match table.get("terminate") {
        Some(value) => {
            let path = dotted(alloc, path, "terminate")?;
            Ok(Some(mode_from(alloc, path.as_str(), value)?))
        }
        None => Ok(None),
    }
}

fn max_fail_with(failures: Option<u32>, terminate: TerminateMode) -> MaxFail
    ensures { result ≡ max_fail_with failures terminate }
{
    match failures {
        Some(max_fail) => MaxFail::Count {
            max_fail,
            terminate,
        },
        None => MaxFail::All,
    }
}

fn max_fail_table(alloc: Global, path: &str, table: &Value) -> Result<MaxFail, ProfileError>
    ensures { Agrees result (fail_fast_said None path.now (view table.now)) }
{
    only_keys(alloc, path, &["max-fail", "terminate"], table)?;
    let failures = failures_at(alloc, path, table)?;
    let mode = mode_at(alloc, path, table)?;
    Ok(max_fail_with(failures, mode.unwrap_or(TerminateMode::Wait)))
}

fn fail_fast_from(alloc: Global, path: &str, value: &Value) -> Result<MaxFail, ProfileError>
    ensures { Agrees result (fail_fast_of path.now (view value.now)) }
{
    match value.as_bool() {
        Some(true) => Ok(MaxFail::Count {
            max_fail: 1,
            terminate: TerminateMode::Wait,
        }),
        Some(false) => Ok(MaxFail::All),
        None => max_fail_table(alloc, path, value),
    }
}

fn fail_fast_at(alloc: Global, path: &str, table: &Value) -> Result<Option<MaxFail>, ProfileError>
    ensures { Agrees result (optional_key fail_fast_of path.now (codes "fail-fast") (view table.now)) }
{
    match table.get("fail-fast") {
        Some(value) => {
            let path = dotted(alloc, path, "fail-fast")?;
            Ok(Some(fail_fast_from(alloc, path.as_str(), value)?))
        }
        None => Ok(None),
    }
}

/// What the table of a profile says of the whole run.
#[tactic(auto, unfolding(crate::specs::Levels::run_keys_of))]
pub fn run_keys_from(alloc: Global, path: &str, table: &Value) -> Result<RunKeys, ProfileError>
    ensures { Agrees result (run_keys_of path.now (view table.now)) }
{
    let threads = threads_at(alloc, path, table)?;
    let max_fail = fail_fast_at(alloc, path, table)?;
    let global_timeout = optional_time(alloc, path, table, "global-timeout")?;
    let default_filter = optional_text(alloc, path, table, "default-filter")?;
    Ok(RunKeys {
        threads,
        max_fail,
        global_timeout,
        default_filter,
    })
}
