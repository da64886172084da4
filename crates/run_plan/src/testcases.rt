// The tests of a binary of a list.
ghost use Rattle.std.specs.Prelude.{◌≡◌, [], None, codes};
ghost use Rattle.serde_json.specs.Find.{get};
ghost use Rattle.serde_json.specs.View.{members_view, view};
ghost use Rattle.run_input.specs.Fields.{or_usual};
ghost use Rattle.run_input.specs.ReadsValue.{ReadsValue};
ghost use Rattle.run_plan.specs.TestList.{reason_of, listed_test, tests_read, listed_tests};

use crate::test_list::ListedTest;
use run_capture::{List, Text};
use run_input::{Refusal, Wrong, no_text, str_at, text_at, truth_at, under};
use serde_json::{Map, Value};
use std::alloc::Global;

// Why a list leaves a test out, if it does.
fn reason_from(alloc: Global, value: &Value) -> Result<Option<Text>, Refusal>
    ensures { ReadsValue result (reason_of (view value.now)) }
{
    let Some(status) = str_at(value, "status") else {
        return Err(no_text(alloc, value, "status"));
    };
    match status {
        "matches" => Ok(None),
        "mismatch" => Ok(Some(text_at(alloc, value, "reason")?)),
        _ => Err(Refusal::at(alloc, "status", Wrong::Not("matches or mismatch"))),
    }
}

// The same of a test, which matches where nothing is said.
fn left_out_at(alloc: Global, test: &Value) -> Result<Option<Text>, Refusal>
    ensures { ReadsValue result (or_usual None reason_of (get (codes "filter-match") (view test.now))) }
{
    match test.get("filter-match") {
        Some(value) => under(alloc, "filter-match", reason_from(alloc, value)),
        None => Ok(None),
    }
}

// A test of this name.
#[tactic(auto, unfolding(crate::specs::TestList::listed_test))]
fn test_from(alloc: Global, name: &str, value: &Value) -> Result<ListedTest, Refusal>
    ensures { ReadsValue result (listed_test name.now (view value.now)) }
{
    let is_ignored = truth_at(alloc, value, "ignored")?;
    let left_out = left_out_at(alloc, value)?;
    let name = Text::from_str(alloc, name)?;
    Ok(ListedTest {
        name,
        is_ignored,
        left_out,
    })
}

// The same, of which a refusal names the test.
fn named_test(alloc: Global, name: &str, value: &Value) -> Result<ListedTest, Refusal>
    ensures { ReadsValue result (listed_test name.now (view value.now)) }
{
    under(alloc, name, test_from(alloc, name, value))
}

// The tests that stand at their names.
fn tests_in(alloc: Global, members: &Map<String, Value>) -> Result<List<ListedTest>, Refusal>
    ensures { ReadsValue result (tests_read (members_view members.now.entries)) }
{
    let mut tests = List::new();
    for (name, value) in members.iter() {
        tests.push(alloc, named_test(alloc, name.as_str(), value)?)?;
    }
    Ok(tests)
}

fn tests_read(alloc: Global, value: &Value) -> Result<List<ListedTest>, Refusal>
    ensures { ReadsValue result (listed_tests (view value.now)) }
{
    match value.as_object() {
        Some(members) => tests_in(alloc, members),
        None => Err(Refusal::of(alloc, Wrong::Not("an object"))),
    }
}

/// The tests of a binary, none where it names none.
pub fn tests_at(alloc: Global, binary: &Value) -> Result<List<ListedTest>, Refusal>
    ensures { ReadsValue result (or_usual [] listed_tests (get (codes "testcases") (view binary.now))) }
{
    match binary.get("testcases") {
        Some(value) => under(alloc, "testcases", tests_read(alloc, value)),
        None => Ok(List::new()),
    }
}
