// Finished tests and setup scripts, in suites.
ghost use Rattle.std.specs.Prelude.{◌≡◌, ◌+◌, [], not, bytes_eq, string_bytes, Some, IfOk, OnOk};
ghost use Rattle.run_junit.specs.Heard.{IsBehindLast, counts_with, kept_empty, kept_with, put_kept};
ghost use Rattle.run_junit.specs.Suites.{
  counts_of,
  fault_by,
  script,
  script_fault,
  sub_run_lead,
  suite_of,
  test,
  test_fault,
};

use crate::case::{Ended, ended_of, main_of};
use crate::page::Page;
use crate::reason::Fault;
use run_capture::{List, Mem, OutOfMemory, Text};
use run_events::{ExecuteStatus, ScriptFinish, StressIndex, TestFinish};
use std::alloc::Global;
use std::mem;

/// How many cases there are, and how many of them count as failures and as errors.
#[derive(Clone, Copy, Drop)]
pub(crate) struct Counts {
    pub tests: u64,
    pub failures: u64,
    pub errors: u64,
}

/// A suite: its counts, and the texts of its cases.
#[derive(Drop)]
pub(crate) struct Kept {
    pub name: Text,
    pub counts: Counts,
    pub cases: List<Page>,
}

// One more; the greatest count is never reached.
fn one_more(count: u64) -> Mem<u64>
    ensures { IfOk result (λ n. n ≡ count + 1) }
{
    match count.checked_add(1) {
        Some(count) => Ok(count),
        None => Err(OutOfMemory),
    }
}

impl Counts {
    /// Of nothing.
    pub(crate) fn nothing() -> Counts
        ensures { result ≡ counts_of [] }
    {
        Counts {
            tests: 0,
            failures: 0,
            errors: 0,
        }
    }

    /// With one case more.
    pub(crate) fn with(self, fault: Option<Fault>) -> Mem<Counts>
        ensures { IfOk result (λ counts. counts ≡ counts_with self fault) }
    {
        let tests = one_more(self.tests)?;
        let mut counts = Counts { tests, ..self };
        match fault {
            Some(Fault::Failure) => counts.failures = one_more(self.failures)?,
            Some(Fault::Error) => counts.errors = one_more(self.errors)?,
            None => {}
        }
        Ok(counts)
    }
}

// The sub-run that a suite is of, in a stress run.
fn sub_run_lead(alloc: Global, index: Option<StressIndex>) -> Mem<String>
    ensures { IfOk result (λ s. string_bytes s ≡ sub_run_lead index) }
{
    match index {
        Some(index) => {
            let current = index.current;
            Ok(format!(in alloc; "@stress-{current}:")?)
        }
        None => Ok(String::new(alloc)),
    }
}

/// The suite of a test.
#[tactic(auto, unfolding(crate::specs::Suites::suite_of))]
pub(crate) fn test_suite(alloc: Global, finish: &TestFinish) -> Mem<Text>
    ensures { IfOk result (λ name. name ≡ suite_of (test finish.now)) }
{
    let mut name = sub_run_lead(alloc, finish.test.stress_index)?;
    name.push_str(finish.test.id.binary.as_str())?;
    Ok(Text::from_string(name))
}

/// The suite of a script.
#[tactic(auto, unfolding(crate::specs::Suites::suite_of))]
pub(crate) fn script_suite(alloc: Global, finish: &ScriptFinish) -> Mem<Text>
    ensures { IfOk result (λ name. name ≡ suite_of (script finish.now)) }
{
    let id = finish.script.id.as_str();
    let script = format!(in alloc; "@setup-script:{id}")?;
    let mut name = sub_run_lead(alloc, finish.script.stress_index)?;
    name.push_str(script.as_str())?;
    Ok(Text::from_string(name))
}

// As what the case of a test counts that ended so, and is this attempt.
fn fault_by(ended: Ended, main: &ExecuteStatus) -> Option<Fault>
    ensures { result ≡ fault_by ended (Some main.now) }
{
    match ended {
        Ended::Failed => Some(Fault::of(main.result)),
        Ended::FlakyFailed => Some(Fault::Failure),
        Ended::Passed => None,
    }
}

/// As what the case of a test counts, if it is none of a success.
pub(crate) fn test_fault(finish: &TestFinish) -> Option<Fault>
    ensures { result ≡ test_fault finish.now }
{
    match main_of(finish) {
        Some(main) => fault_by(ended_of(finish), main),
        None => Some(Fault::Error),
    }
}

/// The same of a script.
pub(crate) fn script_fault(finish: &ScriptFinish) -> Option<Fault>
    ensures { result ≡ script_fault finish.now }
{
    if finish.status.result.is_success() {
        None
    } else {
        Some(Fault::of(finish.status.result))
    }
}

// Whether a suite has another name.
fn is_other(suite: &Kept, name: &str) -> bool
    ensures { result ≡ not (bytes_eq suite.now.name name.now) }
{
    suite.name.as_str() != name
}

// The place right behind the last suite of a name, and 0 where there is none.
fn behind_named(suites: &[Kept], name: &str) -> usize
    ensures { IsBehindLast (λ suite. bytes_eq suite.name name.now) suites.now result }
{
    let mut at = suites.len();
    while at > 0 && is_other(&suites[at - 1], name) {
        at -= 1;
    }
    at
}

// Adds a case to a suite.
fn add(alloc: Global, suite: &mut Kept, fault: Option<Fault>, case: Page) -> Mem<()>
    ensures { OnOk result (suite.new ≡ kept_with fault case suite.old) }
{
    suite.counts = suite.counts.with(fault)?;
    suite.cases.push(alloc, case)
}

// A suite of one case.
fn one(alloc: Global, name: Text, fault: Option<Fault>, case: Page) -> Mem<Kept>
    ensures { IfOk result (λ suite. suite ≡ kept_with fault case (kept_empty name)) }
{
    let counts = Counts::nothing().with(fault)?;
    let mut cases = List::new();
    cases.push(alloc, case)?;
    Ok(Kept {
        name,
        counts,
        cases,
    })
}

// Puts a case into the suite before a place, or into a new one where that is 0.
fn put_before(
    alloc: Global,
    suites: Vec<Kept>,
    place: usize,
    name: Text,
    fault: Option<Fault>,
    case: Page,
) -> Mem<Vec<Kept>>
    requires { IsBehindLast (λ suite. bytes_eq suite.name name) suites.items place }
    ensures { IfOk result (λ after. after.items ≡ put_kept name fault case suites.items) }
{
    let mut after = suites;
    if place == 0 {
        let suite = one(alloc, name, fault, case)?;
        after.push(suite)?;
        return Ok(after);
    }
    add(alloc, &mut after[place - 1], fault, case)?;
    Ok(after)
}

/// Puts a case into the suite of its name.
pub(crate) fn put_case(
    alloc: Global,
    suites: &mut List<Kept>,
    name: Text,
    fault: Option<Fault>,
    case: Page,
) -> Mem<()>
    ensures { OnOk result (suites.new ≡ put_kept name fault case suites.old) }
{
    let list = mem::replace(suites, List::new()).into_vec(alloc);
    let place = behind_named(list.as_slice(), name.as_str());
    *suites = List::from_vec(put_before(alloc, list, place, name, fault, case)?);
    Ok(())
}
