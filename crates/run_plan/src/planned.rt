// The plan that a list, a profile and words make.
ghost use Rattle.std.specs.Prelude.{◌≡◌, ◌<◌, ◌^◌, ◌++◌, ◌∷◌, [], IfOk, IsOkAnd, OnOk, length, map};
ghost use Rattle.run_plan.specs.Planned.{plan_group, plan_test, plan_tests, test_with, test_words, threads_of_call};
ghost use Rattle.run_plan.specs.Planned.{ignored_words, name_words, scripted_test, test_id, within_100};
ghost use Rattle.run_plan.specs.Rows.{asked_row, listed_row};

use crate::asked::Call;
use crate::choices::{Picks, Ways};
use crate::kept::kept_tests;
use crate::reasons::{part_reason, reason_of_filters};
use crate::rows::{AskedRow, ListRow};
use crate::scripted::numbers_of;
use crate::test_list::{ListedTest, TestBinary};
use run_capture::{Duplicate, List, Mem, Text, with_copies};
use run_events::{Group, PlanTest, TestInstanceId};
use run_profile::{Profile, SetupScript, TestGroup, TestSettings};
use std::alloc::Global;

/// How many tests may run at a time.
pub(crate) fn threads_of_call(call: &Call, profile: &Profile, ways: &Ways) -> u32
    ensures { result ≡ threads_of_call call.now profile.now ways.now }
{
    match ways.threads {
        Some(threads) => threads,
        None => profile.threads().count(call.processors),
    }
}

fn push_word(alloc: Global, words: &mut List<Text>, word: &str) -> Mem<()>
    ensures { OnOk result (words.new ≡ words.old ++ word.now ∷ []) }
{
    words.push(alloc, Text::from_str(alloc, word)?)
}

// The words for a test by its name, after those that run its binary.
fn push_name(alloc: Global, words: &mut List<Text>, name: &str) -> Mem<()>
    ensures { OnOk result (words.new ≡ words.old ++ name_words name.now) }
{
    push_word(alloc, words, "--exact")?;
    push_word(alloc, words, name)?;
    push_word(alloc, words, "--nocapture")
}

fn push_ignored(alloc: Global, words: &mut List<Text>, is_ignored: bool) -> Mem<()>
    ensures { OnOk result (words.new ≡ words.old ++ ignored_words is_ignored) }
{
    match is_ignored {
        true => push_word(alloc, words, "--ignored"),
        false => Ok(()),
    }
}

fn test_words(
    alloc: Global,
    binary: &TestBinary,
    test: &ListedTest,
    extra: &[Text],
) -> Mem<List<Text>>
    ensures { IfOk result (λ words. words ≡ test_words binary.now test.now extra.now) }
{
    let mut words = binary.command.copy(alloc)?;
    push_name(alloc, &mut words, test.name.as_str())?;
    push_ignored(alloc, &mut words, test.is_ignored)?;
    let words = with_copies(alloc, words.into_vec(alloc), extra)?;
    Ok(List::from_vec(words))
}

fn within_100(priority: i8) -> i8
    ensures { result ≡ within_100 priority }
{
    if priority <= -100 {
        -100
    } else if 100 <= priority {
        100
    } else {
        priority
    }
}

fn test_id(alloc: Global, row: &ListRow<'_>) -> Mem<TestInstanceId>
    ensures { IfOk result (λ id. id ≡ test_id (listed_row row.now)) }
{
    let binary = row.binary.id.copy(alloc)?;
    let name = row.test.name.copy(alloc)?;
    Ok(TestInstanceId { binary, name })
}

// The name of a test, and the words that run it.
fn test_call(alloc: Global, row: &ListRow<'_>, extra: &[Text]) -> Mem<(TestInstanceId, List<Text>)>
    ensures { IfOk result (λ call. call
        ≡ (test_id (listed_row row.now), test_words row.now.binary.now row.now.test.now extra.now)) }
{
    let id = test_id(alloc, row)?;
    let command = test_words(alloc, row.binary, row.test, extra)?;
    Ok((id, command))
}

// A test of the plan, with its settings, and the reason for which it is skipped.
fn test_with(
    alloc: Global,
    processors: u32,
    most: u32,
    row: &ListRow<'_>,
    settings: TestSettings,
    skip: Option<Text>,
) -> Mem<PlanTest>
    ensures { IfOk result (λ test. test ≡ test_with processors most (listed_row row.now) settings skip) }
{
    let (id, command) = test_call(alloc, row, settings.extra_args.value.as_slice())?;
    Ok(PlanTest {
        id,
        command,
        skip,
        weight: settings.weight.value.count(processors, most),
        priority: within_100(settings.priority.value),
        group: settings.group.value,
        retries: settings.retries.value,
        flaky: settings.flaky.value,
        slow: settings.slow.value,
        leak: settings.leak.value,
        scripts: List::new(),
        platform: row.binary.facts.platform,
    })
}

// A test of the plan, by what filters say of it, and whether it stands in the part.
fn plan_test(
    alloc: Global,
    processors: u32,
    most: u32,
    profile: &Profile,
    picks: &Picks,
    row: &AskedRow<'_>,
    is_in: bool,
) -> Mem<PlanTest>
    ensures { IfOk result (λ test. test
        ≡ plan_test processors most profile.now picks.now (asked_row row.now, is_in)) }
{
    let reason = reason_of_filters(alloc, picks, row)?;
    let skip = part_reason(alloc, reason, is_in)?;
    let settings = profile.settings_of(alloc, row.asked.overrides.as_slice())?;
    test_with(alloc, processors, most, &row.row, settings, skip)
}

fn plan_group(alloc: Global, processors: u32, group: &TestGroup) -> Mem<Group>
    ensures { IfOk result (λ g. g ≡ plan_group processors group.now) }
{
    let name = group.name.copy(alloc)?;
    Ok(Group {
        name,
        limit: group.limit.count(processors),
    })
}

pub(crate) fn plan_groups(alloc: Global, processors: u32, groups: &[TestGroup]) -> Mem<List<Group>>
    ensures { IfOk result (λ list. list ≡ map (plan_group processors) groups.now) }
{
    let mut list = List::new();
    for group in groups {
        list.push(alloc, plan_group(alloc, processors, group)?)?;
    }
    Ok(list)
}

// A test with the numbers of its scripts.
fn with_numbers(test: Mem<PlanTest>, scripts: List<u32>) -> Mem<PlanTest>
    ensures { IfOk result (λ with. IsOkAnd test (λ t. with ≡ record t { scripts = scripts })) }
{
    match test {
        Ok(test) => Ok(PlanTest { scripts, ..test }),
        Err(error) => Err(error),
    }
}

fn scripted_test(
    alloc: Global,
    counts: (u32, u32),
    profile: &Profile,
    picks: &Picks,
    scripts: &[&SetupScript],
    row: &AskedRow<'_>,
    is_in: bool,
) -> Mem<PlanTest>
    requires { length scripts.now < 2 ^ 32 }
    ensures { IfOk result (λ test. test ≡ scripted_test counts.0 counts.1 profile.now picks.now
        (map (λ s. s.now) scripts.now) (asked_row row.now, is_in)) }
{
    let numbers = numbers_of(alloc, profile, picks, scripts, row, is_in)?;
    let test = plan_test(alloc, counts.0, counts.1, profile, picks, row, is_in);
    with_numbers(test, numbers)
}

// The tests of the plan, for so many processors, of which so many run at a time.
pub(crate) fn plan_tests(
    alloc: Global,
    counts: (u32, u32),
    profile: &Profile,
    picks: &Picks,
    scripts: &[&SetupScript],
    rows: &[AskedRow<'_>],
) -> Mem<List<PlanTest>>
    requires { length scripts.now < 2 ^ 32 }
    ensures { IfOk result (λ tests. tests ≡ plan_tests counts.0 counts.1 profile.now picks.now
        (map (λ s. s.now) scripts.now) (map asked_row rows.now)) }
{
    let kept = kept_tests(alloc, picks, rows)?;
    let mut tests = List::new();
    for place in 0..rows.len().min(kept.len()) {
        let row = &rows[place];
        let test = scripted_test(alloc, counts, profile, picks, scripts, row, kept[place])?;
        tests.push(alloc, test)?;
    }
    Ok(tests)
}
