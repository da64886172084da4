// What came of each attempt of a unit, by its own turns.
ghost use Rattle.std.specs.Prelude.{◌≡◌, ◌+◌, ◌<◌, ◌^◌, ◌∷◌, ◌++◌, [], length, map, not, ◌&&◌, if◌then◌else◌, IfOk};
ghost use Rattle.std.specs.Prelude.{OnOk};
ghost use Rattle.run_model.specs.Attempts.{awaits_env_file, end_of, ended_statuses, has_ended, is_due_in, is_retried};
ghost use Rattle.run_model.specs.Attempts.{attempt_pauses, is_settled, moment_if, none_goes_on, result_in, status_of};
ghost use Rattle.run_model.specs.Attempts.{time_of};
ghost use Rattle.run_model.specs.Attempts.{delay_timer, is_delay_over};
ghost use Rattle.run_model.specs.Backoff.{retry_count};
ghost use Rattle.run_clock.specs.Counted.{is_due};
ghost use Rattle.run_model.specs.Story.{begins_attempt, first_said, pieces};
ghost use Rattle.run_model.specs.Timing.{is_timer_due_at, timer_of};
ghost use Rattle.run_laws_plain.specs.Marks.{at_most, with_time};

use crate::OwnTurn;
use crate::delays::{delay_after, delay_timer, is_delay_over, retry_count};
use crate::env::{has_env_fault, is_env_read};
use crate::outcomes::{child_output, child_result, is_refused};
use crate::pauses::{Act, Mark, add, add_request, counted_time};
use crate::results::passes;
use crate::standing::{is_wait_over, slow_count};
use crate::story::{begins_attempt, count_attempts, newest_attempt};
use crate::streams::are_streams_done;
use crate::timing::{has_leaked, is_due_at, is_timer_due_at, timer_of};
use run_capture::{List, Mem};
use run_events::{ExecuteStatus, ExecutionResult, RetryPolicy};
use run_model::AttemptTerms;
use std::alloc::Global;

// When an attempt began: at the first of its turns that begins an attempt.
fn begun_at(piece: &[OwnTurn]) -> Option<u64>
    ensures { result ≡ first_said (moment_if begins_attempt) piece.now }
{
    let [turn, before @ ..] = piece else {
        return None;
    };
    begun_at(before).or(begins_attempt(&turn.turn).then_some(turn.moment))
}

// Whether its child is done with.
fn is_settled(terms: AttemptTerms, piece: &[OwnTurn]) -> bool
    ensures { result ≡ is_settled terms piece.now }
{
    is_refused(piece)
        || is_wait_over(piece)
            && (terms.skips_leak_detection
                || are_streams_done(terms.streams, piece)
                || has_leaked(piece))
}

// Whether its environment file is to be read.
fn awaits_env_file(terms: AttemptTerms, piece: &[OwnTurn]) -> bool
    ensures { result ≡ awaits_env_file terms piece.now }
{
    terms.reads_env && passes(child_result(terms, piece)) && !is_env_read(piece)
}

// Whether it has ended.
fn has_ended(terms: AttemptTerms, piece: &[OwnTurn]) -> bool
    ensures { result ≡ has_ended terms piece.now }
{
    is_settled(terms, piece) && !awaits_env_file(terms, piece)
}

// When it ended: at the first turn after which it has ended.
fn ended_at(terms: AttemptTerms, piece: &[OwnTurn]) -> Option<u64>
    ensures { result ≡ end_of terms piece.now }
{
    let [turn, before @ ..] = piece else {
        return None;
    };
    ended_at(terms, before).or(has_ended(terms, piece).then_some(turn.moment))
}

// The result of an attempt: a fault of its environment file makes it a failure.
fn result_in(alloc: Global, terms: AttemptTerms, piece: &[OwnTurn]) -> Mem<ExecutionResult>
    ensures { IfOk result (λ r. r ≡ result_in terms piece.now) }
{
    if has_env_fault(alloc, piece)? {
        Ok(ExecutionResult::ExecFail)
    } else {
        Ok(child_result(terms, piece))
    }
}

// Adds its pauses: from where a stop is taken until a continue is, or until its child is done with.
fn add_pauses(
    alloc: Global,
    marks: &mut List<Mark>,
    terms: AttemptTerms,
    piece: &[OwnTurn],
) -> Mem<()>
    ensures { OnOk result (marks.new ≡ marks.old ++ attempt_pauses terms piece.now) }
{
    let [turn, before @ ..] = piece else {
        return Ok(());
    };
    if is_settled(terms, piece) {
        add(alloc, marks, turn.moment, Act::Resume)?;
    } else {
        add_request(alloc, marks, turn.moment, turn.request)?;
    }
    add_pauses(alloc, marks, terms, before)
}

// How long it took, in nanoseconds.
fn time_of(alloc: Global, terms: AttemptTerms, piece: &[OwnTurn]) -> Mem<u64>
    ensures { IfOk result (λ time. time ≡ at_most (time_of terms piece.now)) }
{
    let mut pauses = List::new();
    add_pauses(alloc, &mut pauses, terms, piece)?;
    let start = begun_at(piece).unwrap_or(0);
    let end = ended_at(terms, piece).unwrap_or(0);
    Ok(counted_time(start, pauses.as_slice(), end))
}

// The status of an attempt of this number, after this delay.
fn status_of(
    alloc: Global,
    terms: AttemptTerms,
    delay: u64,
    attempt: u32,
    piece: &[OwnTurn],
) -> Mem<ExecuteStatus>
    requires few { retry_count terms.retries + 1 < 2 ^ 32 }
    ensures { IfOk result (λ s. s ≡ with_time (status_of terms delay attempt piece.now)) }
{
    let outcome = result_in(alloc, terms, piece)?;
    let output = child_output(alloc, terms.streams, piece)?;
    let time = time_of(alloc, terms, piece)?;
    Ok(ExecuteStatus {
        attempt,
        attempts: retry_count(terms.retries) + 1,
        delay,
        result: outcome,
        output,
        slow: slow_count(terms.slow, piece) > 0,
        start: begun_at(piece).unwrap_or(0),
        time,
    })
}

// The statuses of earlier attempts, and that of one more if it has ended.
fn with_status(
    alloc: Global,
    terms: AttemptTerms,
    delay: u64,
    attempt: u32,
    piece: &[OwnTurn],
    statuses: List<ExecuteStatus>,
) -> Mem<List<ExecuteStatus>>
    requires few { retry_count terms.retries + 1 < 2 ^ 32 }
    ensures { IfOk result (λ l. l ≡ statuses
        ++ (if has_ended terms piece.now then with_time (status_of terms delay attempt piece.now) ∷ [] else [])) }
{
    let mut statuses = statuses;
    if has_ended(terms, piece) {
        let status = status_of(alloc, terms, delay, attempt, piece)?;
        statuses.push(alloc, status)?;
    }
    Ok(statuses)
}

/// What came of the attempts of a unit that have ended, in order, by its story, the newest turn first. They run on
/// these terms. A time above the greatest `u64`, which no legal run has, is that.
pub fn statuses_of(
    alloc: Global,
    terms: AttemptTerms,
    story: &[OwnTurn],
) -> Mem<List<ExecuteStatus>>
    requires short { length story.now < 2 ^ 32 }
    requires few { retry_count terms.retries + 1 < 2 ^ 32 }
    ensures { IfOk result (λ l. l ≡ map with_time (ended_statuses terms (pieces story.now))) }
{
    let Some(newest) = newest_attempt(story) else {
        return Ok(List::new());
    };
    let attempt = count_attempts(newest.before) as u32 + 1;
    let delay = delay_after(terms.retries, newest.before);
    let statuses = statuses_of(alloc, terms, newest.before)?;
    with_status(alloc, terms, delay, attempt, newest.piece, statuses)
}

// Whether an attempt of this number is tried again: it failed, and a retry is left.
fn is_retried(alloc: Global, terms: AttemptTerms, attempt: u32, piece: &[OwnTurn]) -> Mem<bool>
    ensures { IfOk result (λ retried. retried ≡ is_retried terms attempt piece.now) }
{
    let outcome = result_in(alloc, terms, piece)?;
    Ok(!passes(outcome) && attempt <= retry_count(terms.retries))
}

// Whether the timer of an attempt that goes on is due at a moment: one whose child is done with has none.
fn is_attempt_due(alloc: Global, terms: AttemptTerms, now: u64, piece: &[OwnTurn]) -> Mem<bool>
    ensures { IfOk result (λ due. due
        ≡ (not (is_settled terms piece.now) && is_timer_due_at now (timer_of terms piece.now))) }
{
    let timer = timer_of(alloc, terms, piece)?;
    Ok(!is_settled(terms, piece) && is_timer_due_at(now, &timer))
}

// Whether the delay after the newest attempt of a story is due at a moment, the newest of which was decided on with the
// first of these turns.
fn is_delay_due(
    alloc: Global,
    policy: RetryPolicy,
    now: u64,
    after: &[OwnTurn],
    story: &[OwnTurn],
) -> Mem<bool>
    requires { length story.now < 2 ^ 32 }
    ensures { IfOk result (λ due. due ≡ (not (is_delay_over after.now)
        && is_due (delay_timer policy after.now (pieces story.now)) now)) }
{
    let timer = delay_timer(alloc, policy, after, story)?;
    Ok(!is_delay_over(after) && is_due_at(now, &timer))
}

/// Whether the timer of a unit is due at a moment, by its story, the newest turn first: that of its attempt, or of the
/// delay before the next. An attempt whose child is done with has none until it is decided that it is tried again.
pub fn is_due(alloc: Global, terms: AttemptTerms, now: u64, story: &[OwnTurn]) -> Mem<bool>
    requires short { length story.now < 2 ^ 32 }
    ensures { IfOk result (λ due. due ≡ is_due_in terms now (pieces story.now)) }
{
    let Some(newest) = newest_attempt(story) else {
        return Ok(false);
    };
    if newest.after.is_empty() {
        return is_attempt_due(alloc, terms, now, newest.piece);
    }
    let attempt = count_attempts(newest.before) as u32 + 1;
    let retried = is_retried(alloc, terms, attempt, newest.piece)?;
    let due = is_delay_due(alloc, terms.retries, now, newest.after, story)?;
    Ok(retried && due)
}

/// Whether no attempt of a unit goes on, by its story, the newest turn first.
pub fn none_goes_on(terms: AttemptTerms, story: &[OwnTurn]) -> bool
    ensures { result ≡ none_goes_on terms (pieces story.now) }
{
    match newest_attempt(story) {
        Some(newest) => has_ended(terms, newest.piece),
        None => true,
    }
}
