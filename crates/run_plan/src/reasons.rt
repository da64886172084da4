// Why tests don't run.
ghost use Rattle.std.specs.Prelude.{◌≡◌, IfOk, is_none, option_map};
ghost use Rattle.std.specs.List.{list_any};
ghost use Rattle.run_plan.specs.Reasons.{filter_reasons, first_that_holds, is_called, is_named, leaves_ignored};
ghost use Rattle.run_plan.specs.Reasons.{leaves_others, part_reason, reason_of_filters};
ghost use Rattle.run_plan.specs.Rows.{asked_row};

use crate::asked::Asked;
use crate::choices::{Picks, RunIgnored};
use crate::rows::AskedRow;
use crate::test_list::ListedTest;
use run_capture::{Duplicate, Mem, Text};
use std::alloc::Global;

fn leaves_ignored(run_ignored: Option<RunIgnored>) -> bool
    ensures { result ≡ leaves_ignored run_ignored }
{
    match run_ignored {
        None | Some(RunIgnored::Default) => true,
        Some(RunIgnored::Only) | Some(RunIgnored::All) => false,
    }
}

fn leaves_others(run_ignored: Option<RunIgnored>) -> bool
    ensures { result ≡ leaves_others run_ignored }
{
    match run_ignored {
        Some(RunIgnored::Only) => true,
        Some(RunIgnored::Default) | Some(RunIgnored::All) | None => false,
    }
}

fn is_called(is_exact: bool, name: &str, word: &str) -> bool
    ensures { result ≡ is_called is_exact name.now word.now }
{
    match is_exact {
        true => name == word,
        false => name.contains(word),
    }
}

fn is_called_any(is_exact: bool, name: &str, words: &[Text]) -> bool
    ensures { result ≡ list_any (is_called is_exact name.now) words.now }
{
    words
        .iter()
        .any(|word| is_called(is_exact, name, word.as_str()))
}

fn is_named(picks: &Picks, name: &str) -> bool
    ensures { result ≡ is_named picks.now name.now }
{
    (picks.names.len() == 0 || is_called_any(picks.is_exact, name, picks.names.as_slice()))
        && !is_called_any(picks.is_exact, name, picks.skips.as_slice())
}

// The word of the first reason for which a test doesn't run, of those that filters give.
fn filter_word(picks: &Picks, test: &ListedTest, asked: &Asked) -> Option<&'static str>
    ensures { option_map (λ w. w.now) result ≡ first_that_holds (filter_reasons picks.now test.now asked.now) }
{
    if test.is_ignored && leaves_ignored(picks.run_ignored) {
        return Some("ignored");
    }
    if !test.is_ignored && leaves_others(picks.run_ignored) {
        return Some("not ignored");
    }
    if !is_named(picks, test.name.as_str()) {
        return Some("string");
    }
    if !asked.is_picked {
        return Some("expression");
    }
    if !asked.in_default && !picks.ignores_default_filter {
        return Some("default-filter");
    }
    None
}

fn text_if_any(alloc: Global, word: Option<&'static str>) -> Mem<Option<Text>>
    ensures { IfOk result (λ t. t ≡ option_map (λ w. w.now) word.entry) }
{
    match word {
        Some(word) => Ok(Some(Text::from_str(alloc, word)?)),
        None => Ok(None),
    }
}

/// Why a test doesn't run, before partitions have a say.
pub(crate) fn reason_of_filters(
    alloc: Global,
    picks: &Picks,
    row: &AskedRow<'_>,
) -> Mem<Option<Text>>
    ensures { IfOk result (λ r. r ≡ reason_of_filters picks.now (asked_row row.now)) }
{
    match &row.row.test.left_out {
        Some(reason) => Ok(Some(reason.copy(alloc)?)),
        None => text_if_any(alloc, filter_word(picks, row.row.test, row.asked)),
    }
}

/// Whether a test runs, before partitions have a say.
pub(crate) fn passes(picks: &Picks, row: &AskedRow<'_>) -> bool
    ensures { result ≡ is_none (reason_of_filters picks.now (asked_row row.now)) }
{
    row.row.test.left_out.is_none() && filter_word(picks, row.row.test, row.asked).is_none()
}

/// The reason of a test, with what its part says.
pub(crate) fn part_reason(alloc: Global, reason: Option<Text>, is_in: bool) -> Mem<Option<Text>>
    ensures { IfOk result (λ r. r ≡ part_reason reason is_in) }
{
    match (reason, is_in) {
        (Some(reason), _) => Ok(Some(reason)),
        (None, true) => Ok(None),
        (None, false) => Ok(Some(Text::from_str(alloc, "partition")?)),
    }
}
