// The delays before the retries of a test.
ghost use Rattle.std.specs.Prelude.{◌≡◌, ◌*◌, ◌-◌, ◌^◌, ◌<◌, min, IfSome};
ghost use Rattle.run_model.specs.Backoff.{retry_count, has_jitter, capped, whole_delay, jittered, delay_by};
ghost use Rattle.run_model.specs.Backoff.{next_of, left_of, IsShortened};

use run_events::RetryPolicy;
use std::marker::Model;

/// How many retries a test has at most.
pub fn retry_count(policy: &RetryPolicy) -> u32
    ensures { result ≡ retry_count policy.now }
{
    match policy {
        RetryPolicy::Fixed { count, .. } => *count,
        RetryPolicy::Exponential { count, .. } => *count,
    }
}

fn has_jitter(policy: &RetryPolicy) -> bool
    ensures { result ≡ has_jitter policy.now }
{
    match policy {
        RetryPolicy::Fixed { jitter, .. } => *jitter,
        RetryPolicy::Exponential { jitter, .. } => *jitter,
    }
}

// A delay that was doubled so often, at most the greatest u64.
#[tactic(auto, using(crate::proofs::BackoffLemmas::doubled_past))]
fn doubled(delay: u64, times: u32) -> u64
    ensures { result ≡ min (delay * 2 ^ times) (2 ^ 64 - 1) }
{
    if times >= 64 {
        return if delay == 0 { 0 } else { u64::MAX };
    }
    delay.saturating_mul(1 << times)
}

fn capped(most: Option<u64>, delay: u64) -> u64
    ensures { result ≡ capped most delay }
{
    match most {
        Some(most) => delay.min(most),
        None => delay,
    }
}

// The delay after so many before it, in nanoseconds, apart from jitter.
fn whole_delay(policy: &RetryPolicy, before: u32) -> u64
    ensures { result ≡ whole_delay policy.now before }
{
    match policy {
        RetryPolicy::Fixed { delay, .. } => *delay,
        RetryPolicy::Exponential {
            delay,
            max_delay,
            ..
        } => capped(*max_delay, doubled(*delay, before)),
    }
}

// A delay that is shortened at random, by this word.
fn jittered(word: u32, delay: u64) -> u64
    ensures part { result ≡ jittered word delay }
    ensures shortened { IsShortened delay result }
{
    let part = (1 << 32) + u128::from(word) + 1;
    let whole = u128::from(delay) * part;
    ((whole + ((1 << 33) - 1)) >> 33) as u64
}

/// The delay after so many before it, in nanoseconds, drawn with a random word: `delay` each time, or, where the policy
/// is exponential, doubled each time up to its `max_delay` and the greatest `u64`. With jitter a delay d becomes the
/// least whole number not below d * (2^32 + word + 1) / 2^33.
pub fn delay_by(policy: &RetryPolicy, before: u32, word: u32) -> u64
    ensures nth { result ≡ delay_by policy.now before word }
    ensures shortened { IsShortened (whole_delay policy.now before) result }
{
    let delay = whole_delay(policy, before);
    if has_jitter(policy) {
        jittered(word, delay)
    } else {
        delay
    }
}

/// The delays before the retries of a test, one after the other: as many as its policy has retries.
#[derive(Drop)]
pub struct BackoffIter {
    policy: RetryPolicy,
    answered: u32,
}

impl Model for BackoffIter {
    ghost use Rattle.run_model.specs.Backoff.{Backoff};

    ghost Value = { Backoff };

    ghost view = { λ b. record { policy = b.policy; answered = b.answered } };
}

impl BackoffIter {
    /// All delays of a policy.
    pub fn new(policy: RetryPolicy) -> Self
        ensures { result ≡ record { policy = policy; answered = 0 } }
    {
        BackoffIter {
            policy,
            answered: 0,
        }
    }

    /// The next delay, in nanoseconds, drawn with a random word (`delay_by`); none once as many were answered as the
    /// policy has retries.
    pub fn next(&mut self, word: u32) -> Option<u64>
        ensures next { result ≡ next_of self.old word }
        ensures left { self.new ≡ left_of self.old }
        ensures shortened { IfSome result (IsShortened (whole_delay self.old.policy self.old.answered)) }
    {
        if self.answered >= retry_count(&self.policy) {
            return None;
        }
        let delay = delay_by(&self.policy, self.answered, word);
        self.answered += 1;
        Some(delay)
    }
}
