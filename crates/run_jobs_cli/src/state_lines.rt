// The lines of the states of jobs.
ghost use Rattle.std.specs.Prelude.{◌≡◌, IfOk};
ghost use Rattle.run_jobs_cli.specs.StateLines.{job_name, state_text, states_status, word_text};

use crate::fields::{Leaf, object_line};
use run_capture::{Mem, Text};
use run_jobs::{Job, JobState};
use std::alloc::Global;

// The name of a job, by its number.
fn job_name(jobs: &[Job], job: usize) -> &str
    ensures { result.now ≡ job_name jobs.now job }
{
    match jobs.get(job) {
        Some(job) => job.name.as_str(),
        None => "",
    }
}

// The line of a job by its name and the word of its state.
fn word_line(alloc: Global, name: &str, word: &'static str) -> Mem<Text>
    ensures { IfOk result (λ text. text ≡ word_text name.now word.now) }
{
    object_line(
        alloc,
        &[("job", Leaf::Word(name)), ("state", Leaf::Word(word))],
    )
}

/// The line of the state of a job, by its number, without its line feed: its keys in byte order.
pub fn state_line(alloc: Global, jobs: &[Job], job: usize, state: JobState) -> Mem<Text>
    ensures { IfOk result (λ text. text ≡ state_text jobs.now job state) }
{
    let name = job_name(jobs, job);
    match state {
        JobState::Passed => word_line(alloc, name, "passed"),
        JobState::Failed => word_line(alloc, name, "failed"),
        JobState::Cancelled => word_line(alloc, name, "cancelled"),
        JobState::Blocked { by } => object_line(
            alloc,
            &[
                ("by", Leaf::Word(job_name(jobs, by as usize))),
                ("job", Leaf::Word(name)),
                ("state", Leaf::Word("blocked")),
            ],
        ),
    }
}

/// The status of states: 4 where there is none, 0 where all passed, and else 100.
pub fn states_status(states: &[JobState]) -> u8
    ensures { result ≡ states_status states.now }
{
    if states.is_empty() {
        return 4;
    }
    for state in states {
        if !matches!(state, JobState::Passed) {
            return 100;
        }
    }
    0
}
