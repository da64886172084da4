// The variables of a child, written out.
ghost use Rattle.std.specs.Prelude.{◌≡◌, ◌++◌, ◌∷◌, [], IfOk, decimal, codes};
ghost use Rattle.uuid.specs.Text.{hyphenated_text, lower};
ghost use Rattle.run_events.specs.Variables.{mode_name, group_name, group_number, run_variables, shared_variables};
ghost use Rattle.run_events.specs.Variables.{identity_variables, place_variables, test_variables, script_variables};
ghost use Rattle.run_events.specs.Variables.{count_text, stress_current, stress_total};

use crate::{
    GroupSlot, RunContext, RunMode, ScriptVariables, StressIndex, TestInstanceId,
    TestSlotAssignment, TestVariables,
};
use run_capture::{Duplicate, List, Mem, Text, with_copies};
use std::alloc::Global;
use uuid::Uuid;

type Pairs = Vec<(Text, Text)>;

// How many variables a child has beside those of versions and those that are handed on.
const OWN: usize = 13;

fn with(alloc: Global, list: Pairs, key: &str, value: Text) -> Mem<Pairs>
    ensures { IfOk result (λ v. v.items ≡ list.items ++ (key.now, value) ∷ []) }
{
    let mut list = list;
    list.push((Text::from_str(alloc, key)?, value))?;
    Ok(list)
}

fn with_text(alloc: Global, list: Pairs, key: &str, value: &str) -> Mem<Pairs>
    ensures { IfOk result (λ v. v.items ≡ list.items ++ (key.now, value.now) ∷ []) }
{
    with(alloc, list, key, Text::from_str(alloc, value)?)
}

fn with_number(alloc: Global, list: Pairs, key: &str, value: u32) -> Mem<Pairs>
    ensures { IfOk result (λ v. v.items ≡ list.items ++ (key.now, decimal value) ∷ []) }
{
    with(alloc, list, key, Text::from_number(alloc, value)?)
}

fn with_id(alloc: Global, list: Pairs, key: &str, value: Uuid) -> Mem<Pairs>
    ensures { IfOk result (λ v. v.items ≡ list.items ++ (key.now, hyphenated_text lower value) ∷ []) }
{
    with(
        alloc,
        list,
        key,
        Text::from_string(format!(in alloc; "{value}")?),
    )
}

// What the tests of a run are run as.
fn mode_name(mode: RunMode) -> &'static str
    ensures { result.now ≡ mode_name mode }
{
    match mode {
        RunMode::Test => "test",
        RunMode::Benchmark => "benchmark",
    }
}

// Which run it is.
fn with_run(alloc: Global, list: Pairs, run: &RunContext) -> Mem<Pairs>
    ensures { IfOk result (λ v. v.items ≡ list.items ++ run_variables run.now) }
{
    let mode = Text::from_str(alloc, mode_name(run.mode))?;
    let list = with_id(alloc, list, "NEXTEST_RUN_ID", run.run_id)?;
    with(alloc, list, "NEXTEST_RUN_MODE", mode)
}

// How much runs at a time, and in which folder.
fn with_shared(alloc: Global, list: Pairs, run: &RunContext) -> Mem<Pairs>
    ensures { IfOk result (λ v. v.items ≡ list.items ++ shared_variables run.now) }
{
    let root = run.workspace_root.as_str();
    let list = with_number(alloc, list, "NEXTEST_TEST_THREADS", run.threads)?;
    with_text(alloc, list, "NEXTEST_WORKSPACE_ROOT", root)
}

// Which test it is.
fn with_name(alloc: Global, list: Pairs, id: &TestInstanceId) -> Mem<Pairs>
    ensures { IfOk result (λ v. v.items ≡ list.items ++ (codes "NEXTEST_BINARY_ID", id.now.binary)
        ∷ (codes "NEXTEST_TEST_NAME", id.now.name) ∷ []) }
{
    let list = with(alloc, list, "NEXTEST_BINARY_ID", id.binary.copy(alloc)?)?;
    with(alloc, list, "NEXTEST_TEST_NAME", id.name.copy(alloc)?)
}

// Which attempt it is, and of how many.
fn with_attempts(alloc: Global, list: Pairs, test: &TestVariables) -> Mem<Pairs>
    ensures { IfOk result (λ v. v.items ≡ list.items ++ (codes "NEXTEST_ATTEMPT", decimal test.now.attempt)
        ∷ (codes "NEXTEST_TOTAL_ATTEMPTS", decimal test.now.attempts) ∷ []) }
{
    let list = with_number(alloc, list, "NEXTEST_ATTEMPT", test.attempt)?;
    with_number(alloc, list, "NEXTEST_TOTAL_ATTEMPTS", test.attempts)
}

// Which attempt of which test it is.
#[tactic(auto, unfolding(crate::specs::Variables::identity_variables))]
fn with_identity(alloc: Global, list: Pairs, test: &TestVariables) -> Mem<Pairs>
    ensures { IfOk result (λ v. v.items ≡ list.items ++ identity_variables test.now) }
{
    let list = with_name(alloc, list, &test.id)?;
    with_attempts(alloc, list, test)
}

// How many sub-runs of a stress run there are to be.
fn count_text(alloc: Global, count: Option<u32>) -> Mem<Text>
    ensures { IfOk result (λ t. t ≡ count_text count) }
{
    match count {
        Some(count) => Text::from_number(alloc, count),
        None => Text::from_str(alloc, "unknown"),
    }
}

// The texts of which sub-run of a stress run it is in, and of how many there are to be.
fn stress_texts(alloc: Global, index: Option<StressIndex>) -> Mem<(Text, Text)>
    ensures { IfOk result (λ texts. texts ≡ (stress_current index, stress_total index)) }
{
    match index {
        Some(index) => {
            let total = count_text(alloc, index.total)?;
            Ok((Text::from_number(alloc, index.current)?, total))
        }
        None => {
            let total = Text::from_str(alloc, "none")?;
            Ok((Text::from_str(alloc, "none")?, total))
        }
    }
}

// Which sub-run of a stress run it is in.
fn with_stress(alloc: Global, list: Pairs, index: Option<StressIndex>) -> Mem<Pairs>
    ensures { IfOk result (λ v. v.items ≡ list.items ++ (codes "NEXTEST_STRESS_CURRENT", stress_current index)
        ∷ (codes "NEXTEST_STRESS_TOTAL", stress_total index) ∷ []) }
{
    let (current, total) = stress_texts(alloc, index)?;
    let list = with(alloc, list, "NEXTEST_STRESS_CURRENT", current)?;
    with(alloc, list, "NEXTEST_STRESS_TOTAL", total)
}

// The name of the group that a test runs in, and its slot there.
fn group_texts(alloc: Global, group: &Option<GroupSlot>) -> Mem<(Text, Text)>
    ensures { IfOk result (λ texts. texts ≡ (group_name group.now, group_number group.now)) }
{
    match group {
        Some(group) => {
            let name = group.name.copy(alloc)?;
            Ok((name, Text::from_number(alloc, group.slot)?))
        }
        None => {
            let name = Text::from_str(alloc, "@global")?;
            Ok((name, Text::from_str(alloc, "none")?))
        }
    }
}

// The group that a test runs in, and its slot there.
fn with_group(alloc: Global, list: Pairs, group: &Option<GroupSlot>) -> Mem<Pairs>
    ensures { IfOk result (λ v. v.items ≡ list.items ++ (codes "NEXTEST_TEST_GROUP", group_name group.now)
        ∷ (codes "NEXTEST_TEST_GROUP_SLOT", group_number group.now) ∷ []) }
{
    let (name, slot) = group_texts(alloc, group)?;
    let list = with(alloc, list, "NEXTEST_TEST_GROUP", name)?;
    with(alloc, list, "NEXTEST_TEST_GROUP_SLOT", slot)
}

// The slots in which it runs.
fn with_slots(alloc: Global, list: Pairs, slot: &TestSlotAssignment) -> Mem<Pairs>
    ensures { IfOk result (λ v. v.items ≡ list.items ++ (codes "NEXTEST_TEST_GLOBAL_SLOT", decimal slot.now.global)
        ∷ (codes "NEXTEST_TEST_GROUP", group_name slot.now.group)
        ∷ (codes "NEXTEST_TEST_GROUP_SLOT", group_number slot.now.group) ∷ []) }
{
    let list = with_number(alloc, list, "NEXTEST_TEST_GLOBAL_SLOT", slot.global)?;
    with_group(alloc, list, &slot.group)
}

// Where it runs.
#[tactic(auto, unfolding(crate::specs::Variables::place_variables))]
fn with_place(alloc: Global, list: Pairs, test: &TestVariables) -> Mem<Pairs>
    ensures { IfOk result (λ v. v.items ≡ list.items ++ place_variables test.now) }
{
    let list = with_stress(alloc, list, test.stress_index)?;
    with_slots(alloc, list, &test.slot)
}

// Room for the variables of a child, beside which there are so many of versions and so many that are handed on.
fn room(alloc: Global, versions: usize, handed: usize) -> Mem<Pairs>
    ensures { IfOk result (λ v. v.items ≡ []) }
{
    let outside = versions.saturating_add(handed);
    Ok(Vec::with_capacity(alloc, outside.saturating_add(OWN))?)
}

// Those that all children have alike.
fn with_alike(alloc: Global, list: Pairs, run: &RunContext) -> Mem<Pairs>
    ensures { IfOk result (λ v. v.items ≡ list.items ++ (shared_variables run.now ++ run.now.versions)) }
{
    let list = with_shared(alloc, list, run)?;
    with_copies(alloc, list, run.versions.as_slice())
}

// Those of a test's child.
#[tactic(auto, unfolding(crate::specs::Variables::test_variables))]
fn test_pairs(alloc: Global, test: &TestVariables) -> Mem<Pairs>
    ensures { IfOk result (λ v. v.items ≡ test_variables test.now) }
{
    let run = test.run.get();
    let list = room(alloc, run.versions.len(), test.handed.len())?;
    let list = with_run(alloc, list, run)?;
    let list = with_identity(alloc, list, test)?;
    let list = with_place(alloc, list, test)?;
    let list = with_alike(alloc, list, run)?;
    with_copies(alloc, list, test.handed.as_slice())
}

/// Those of a test's child, in order.
pub fn test_list(alloc: Global, test: &TestVariables) -> Mem<List<(Text, Text)>>
    ensures { IfOk result (λ list. list ≡ test_variables test.now) }
{
    Ok(List::from_vec(test_pairs(alloc, test)?))
}

// Those of a setup script's child.
#[tactic(auto, unfolding(crate::specs::Variables::script_variables))]
fn script_pairs(alloc: Global, script: &ScriptVariables) -> Mem<Pairs>
    ensures { IfOk result (λ v. v.items ≡ script_variables script.now) }
{
    let run = script.run.get();
    let list = room(alloc, run.versions.len(), 0)?;
    let list = with_text(alloc, list, "NEXTEST_ENV", script.env_path.as_str())?;
    let list = with_run(alloc, list, run)?;
    with_alike(alloc, list, run)
}

/// Those of a setup script's child, in order.
pub fn script_list(alloc: Global, script: &ScriptVariables) -> Mem<List<(Text, Text)>>
    ensures { IfOk result (λ list. list ≡ script_variables script.now) }
{
    Ok(List::from_vec(script_pairs(alloc, script)?))
}
