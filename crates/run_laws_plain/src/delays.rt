// The delays between the attempts of a unit, by its own turns.
ghost use Rattle.std.specs.Prelude.{◌≡◌, ◌*◌, ◌-◌, ◌^◌, ◌<◌, min, length, IfOk};
ghost use Rattle.run_model.specs.Backoff.{retry_count, has_jitter, whole_delay, jittered, delay_by};
ghost use Rattle.run_model.specs.Attempts.{cancels, decided_at, delay_after, delay_timer, is_delay_over, moment_if};
ghost use Rattle.run_model.specs.Attempts.{word_in};
ghost use Rattle.run_model.specs.Attempts.{drawn_word};
ghost use Rattle.run_model.specs.Story.{decides, first_said, pieces};

use crate::OwnTurn;
use crate::pauses::add_all;
use crate::standing::is_due_turn;
use crate::story::{count_attempts, decides, newest_attempt};
use crate::timing::Timer;
use run_capture::{List, Mem};
use run_events::{Request, RetryPolicy};
use run_model::UnitTurn;
use std::alloc::Global;

// How many retries a test has at most.
pub(crate) fn retry_count(policy: RetryPolicy) -> u32
    ensures { result ≡ retry_count policy }
{
    match policy {
        RetryPolicy::Fixed { count, .. } => count,
        RetryPolicy::Exponential { count, .. } => count,
    }
}

#[tactic(auto, using(crate::proofs::DelayLemmas::doubled_more))]
// A delay that is doubled so often, one time after the other, at most the greatest u64.
fn doubled(delay: u64, times: u32) -> u64
    ensures { result ≡ min (delay * 2 ^ times) (2 ^ 64 - 1) }
{
    if times == 0 {
        return delay;
    }
    doubled(delay, times - 1).saturating_mul(2)
}

// The delay after so many before it, apart from jitter.
fn whole_delay(policy: RetryPolicy, before: u32) -> u64
    ensures { result ≡ whole_delay policy before }
{
    match policy {
        RetryPolicy::Fixed { delay, .. } => delay,
        RetryPolicy::Exponential {
            delay,
            max_delay,
            ..
        } => doubled(delay, before).min(max_delay.unwrap_or(u64::MAX)),
    }
}

// The least whole number that is not below a part of a delay, by a random word.
fn jittered(word: u32, delay: u64) -> u64
    ensures { result ≡ jittered word delay }
{
    let whole = u128::from(delay) * (u128::from(word) + 4_294_967_297);
    ((whole + 8_589_934_591) / 8_589_934_592) as u64
}

fn has_jitter(policy: RetryPolicy) -> bool
    ensures { result ≡ has_jitter policy }
{
    match policy {
        RetryPolicy::Fixed { jitter, .. } => jitter,
        RetryPolicy::Exponential { jitter, .. } => jitter,
    }
}

fn delay_by(policy: RetryPolicy, before: u32, word: u32) -> u64
    ensures { result ≡ delay_by policy before word }
{
    let delay = whole_delay(policy, before);
    if has_jitter(policy) {
        jittered(word, delay)
    } else {
        delay
    }
}

// The word with which an attempt was decided on.
fn drawn(after: &[OwnTurn]) -> Option<u32>
    ensures { result ≡ first_said (λ t. word_in t.turn) after.now }
{
    let [turn, before @ ..] = after else {
        return None;
    };
    match (drawn(before), &turn.turn) {
        (None, UnitTurn::Decide { word }) => Some(*word),
        (earlier, _) => earlier,
    }
}

fn word_of(after: &[OwnTurn]) -> u32
    ensures { result ≡ drawn_word after.now }
{
    drawn(after).unwrap_or(0)
}

// When it was decided on.
fn decision(after: &[OwnTurn]) -> Option<u64>
    ensures { result ≡ first_said (moment_if decides) after.now }
{
    let [turn, before @ ..] = after else {
        return None;
    };
    decision(before).or(decides(&turn.turn).then_some(turn.moment))
}

fn decided_at(after: &[OwnTurn]) -> u64
    ensures { result ≡ decided_at after.now }
{
    decision(after).unwrap_or(0)
}

// The delay before the attempt that comes after those of a story.
pub(crate) fn delay_after(policy: RetryPolicy, story: &[OwnTurn]) -> u64
    requires { length story.now < 2 ^ 32 }
    ensures { result ≡ delay_after policy (pieces story.now) }
{
    match newest_attempt(story) {
        Some(newest) => {
            let before = count_attempts(newest.before) as u32;
            delay_by(policy, before, word_of(newest.after))
        }
        None => 0,
    }
}

// Whether a request cancels the run.
fn cancels(request: Option<Request>) -> bool
    ensures { result ≡ cancels request }
{
    matches!(
        request,
        Some(Request::Shutdown(_)) | Some(Request::OtherCancel)
    )
}

// Whether the delay after an attempt is over: its timer was due, or a request that cancels the run was taken.
pub(crate) fn is_delay_over(after: &[OwnTurn]) -> bool
    ensures { result ≡ is_delay_over after.now }
{
    let [turn, before @ ..] = after else {
        return false;
    };
    is_due_turn(&turn.turn) || cancels(turn.request) || is_delay_over(before)
}

/// The timer of the delay before the attempt that comes after those of a story, the newest of which was decided on with
/// the first of these turns.
pub(crate) fn delay_timer(
    alloc: Global,
    policy: RetryPolicy,
    after: &[OwnTurn],
    story: &[OwnTurn],
) -> Mem<Timer>
    requires { length story.now < 2 ^ 32 }
    ensures { IfOk result (λ timer. timer ≡ delay_timer policy after.now (pieces story.now)) }
{
    let mut pauses = List::new();
    add_all(alloc, &mut pauses, after)?;
    Ok(Timer {
        set: decided_at(after),
        duration: delay_after(policy, story),
        pauses,
    })
}
