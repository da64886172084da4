// What becomes of a unit in a run that is over.
ghost use Rattle.std.specs.Prelude.{◌≡◌, ◌↔◌, ◌≤◌, ◌+◌, ◌^◌, ◌∷◌, ◌++◌, [], false, length, map, not, option_to_list};
ghost use Rattle.std.specs.Prelude.{IfOk, IsTrue};
ghost use Rattle.std.specs.List.{list_all};
ghost use Rattle.run_events.specs.Result.{is_success};
ghost use Rattle.run_model.specs.Accounts.{failed, finished, tried_from};
ghost use Rattle.run_model.specs.Ending.{last_status};
ghost use Rattle.run_laws_plain.specs.declared.accounts.News.TheVariants.{Failed};
ghost use Rattle.run_model.specs.Fates.{HasRetryLeft, MeetsAttemptLaw, account, but_last, retold};
ghost use Rattle.run_laws_plain.specs.News.{defined};

use crate::News;
use crate::front::ahead;
use crate::results::passes;
use run_capture::{Duplicate, List, Mem};
use run_events::ExecuteStatus;
use std::alloc::Global;

// What is told of a failed attempt, before what is told after it.
fn with_failure(alloc: Global, status: &ExecuteStatus, after: List<News>) -> Mem<List<News>>
    ensures { IfOk result (λ l. l ≡ Failed status.now ∷ after) }
{
    let status = status.copy(alloc)?;
    ahead(alloc, News::Failed(status), after)
}

// What is told of attempts, the first of this number, each of which a further one follows, but the last, before what is
// told after them.
fn with_retries(
    alloc: Global,
    number: usize,
    statuses: &[ExecuteStatus],
    after: List<News>,
) -> Mem<List<News>>
    requires few { number + length statuses.now ≤ 2 ^ 64 }
    ensures { IfOk result (λ l. map defined l ≡ tried_from number (but_last statuses.now) ++ map defined after) }
{
    match statuses {
        [] => Ok(after),
        [_last] => Ok(after),
        [status, rest @ ..] => {
            let after = with_retries(alloc, number + 1, rest, after)?;
            let after = ahead(alloc, News::Retried(number + 1), after)?;
            with_failure(alloc, status, after)
        }
    }
}

// What is told of attempts, the first of this number, the last of which failed too, and none followed.
fn failures(alloc: Global, number: usize, statuses: &[ExecuteStatus]) -> Mem<List<News>>
    requires few { number + length statuses.now ≤ 2 ^ 64 }
    ensures { IfOk result (λ l. map defined l
        ≡ tried_from number (but_last statuses.now) ++ map failed (option_to_list (last_status statuses.now))) }
{
    match statuses {
        [] => Ok(List::new()),
        [status] => with_failure(alloc, status, List::new()),
        [status, rest @ ..] => {
            let after = failures(alloc, number + 1, rest)?;
            let after = ahead(alloc, News::Retried(number + 1), after)?;
            with_failure(alloc, status, after)
        }
    }
}

// What is told of attempts the last of which ended the unit.
fn finished(alloc: Global, statuses: &List<ExecuteStatus>) -> Mem<List<News>>
    ensures { IfOk result (λ l. map defined l ≡ retold statuses.now ++ finished statuses.now ∷ []) }
{
    let attempts = statuses.copy(alloc)?;
    let last = ahead(alloc, News::Finished(attempts), List::new())?;
    with_retries(alloc, 1, statuses.as_slice(), last)
}

// What is told of a unit that wasn't skipped, by where it was stopped.
fn told(alloc: Global, stopped: Option<usize>, statuses: &List<ExecuteStatus>) -> Mem<List<News>>
    ensures { IfOk result (λ l. map defined l ≡ account false stopped statuses.now) }
{
    match stopped {
        Some(0) => Ok(List::new()),
        Some(_) => {
            let told = failures(alloc, 1, statuses.as_slice())?;
            ahead(alloc, News::Started, told)
        }
        None => {
            let told = finished(alloc, statuses)?;
            ahead(alloc, News::Started, told)
        }
    }
}

/// The account of a unit's fate: all that is told of it. It was stopped after so many of its attempts had begun, if it
/// was.
pub fn account(
    alloc: Global,
    mismatched: bool,
    stopped: Option<usize>,
    statuses: &List<ExecuteStatus>,
) -> Mem<List<News>>
    ensures { IfOk result (λ l. map defined l ≡ account mismatched stopped statuses.now) }
{
    if mismatched {
        ahead(alloc, News::Skipped, List::new())
    } else {
        told(alloc, stopped, statuses)
    }
}

/// Whether attempts meet their law, with so many retries: each but the last failed, and the last passed or no retry
/// was left.
pub fn meets_attempt_law(retries: u32, statuses: &[ExecuteStatus]) -> bool
    ensures { IsTrue result ↔ MeetsAttemptLaw retries statuses.now }
{
    match statuses {
        [] => false,
        [last] => passes(last.result) || retries == 0,
        [status, rest @ ..] => {
            !passes(status.result) && retries > 0 && meets_attempt_law(retries - 1, rest)
        }
    }
}

// Whether each attempt failed.
fn have_failed(statuses: &[ExecuteStatus]) -> bool
    ensures { result ≡ list_all (λ s. not (is_success s.result)) statuses.now }
{
    let [status, rest @ ..] = statuses else {
        return true;
    };
    !passes(status.result) && have_failed(rest)
}

/// Whether attempts, of which there is one at least, all failed with a retry left, where there are so many.
pub fn has_retry_left(retries: u32, statuses: &[ExecuteStatus]) -> bool
    ensures { IsTrue result ↔ HasRetryLeft retries statuses.now }
{
    have_failed(statuses) && statuses.len() <= retries as usize && !statuses.is_empty()
}
