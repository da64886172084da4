// Why the program ends without the states of its jobs.
ghost use Rattle.std.specs.Prelude.{◌≡◌, IfOk};
ghost use Rattle.run_jobs_cli.specs.declared.fault.JobsFault.TheVariants.{Extra, Unfinished, ZeroThreads};
ghost use Rattle.run_jobs_cli.specs.Faults.{jobs_fault_status, jobs_fault_text, refused_text, turn_fault_text};

use crate::fields::{Leaf, object_line};
use run_capture::{Mem, Text};
use run_output::{Fault, fault_line};
use std::alloc::Global;

/// Why there are no states.
#[derive(Clone, Copy, Drop)]
pub enum JobsFault {
    /// A fault that other programs have too.
    Plain(Fault),
    /// The number of threads is 0.
    ZeroThreads,
    /// The job of this number has the name of an earlier one.
    DuplicateName { job: u32 },
    /// The job of this number waits for a job that isn't before it.
    BadAfter { job: u32 },
    /// The turn at this place of the wave's is not enabled.
    NotEnabled { turn: u64, wave: u32 },
    /// The same, and it is a third shutdown signal.
    ThirdSignal { turn: u64, wave: u32 },
    /// The run of the wave is not over after its turns, or there are none for it.
    Unfinished { wave: u32 },
    /// More lists of turns were given than waves were due.
    Extra { due: u64, given: u64 },
}

impl JobsFault {
    /// The exit status that goes with its line.
    pub fn status(self) -> u8
        ensures { result ≡ jobs_fault_status self }
    {
        match self {
            JobsFault::Plain(fault) => fault.status(),
            JobsFault::ZeroThreads | JobsFault::DuplicateName { .. } | JobsFault::BadAfter { .. } =>
                5,
            JobsFault::NotEnabled { .. } => 6,
            JobsFault::ThirdSignal { .. } => 7,
            JobsFault::Unfinished { .. } => 8,
            JobsFault::Extra { .. } => 14,
        }
    }
}

// The line of jobs that are refused.
fn refused_line(alloc: Global, job: u32, kind: &'static str) -> Mem<Text>
    ensures { IfOk result (λ text. text ≡ refused_text job kind.now) }
{
    object_line(
        alloc,
        &[
            ("fault", Leaf::Word("jobs")),
            ("job", Leaf::Number(job as u64)),
            ("kind", Leaf::Word(kind)),
            ("status", Leaf::Number(5)),
        ],
    )
}

// The line of a turn that is refused.
fn turn_line(alloc: Global, word: &'static str, status: u64, turn: u64, wave: u32) -> Mem<Text>
    ensures { IfOk result (λ text. text ≡ turn_fault_text word.now status turn wave) }
{
    object_line(
        alloc,
        &[
            ("fault", Leaf::Word(word)),
            ("status", Leaf::Number(status)),
            ("turn", Leaf::Number(turn)),
            ("wave", Leaf::Number(wave as u64)),
        ],
    )
}

// The line of no thread.
fn threads_line(alloc: Global) -> Mem<Text>
    ensures { IfOk result (λ text. text ≡ jobs_fault_text ZeroThreads) }
{
    object_line(
        alloc,
        &[
            ("fault", Leaf::Word("jobs")),
            ("kind", Leaf::Word("zero-threads")),
            ("status", Leaf::Number(5)),
        ],
    )
}

// The line of a wave that isn't over.
fn unfinished_line(alloc: Global, wave: u32) -> Mem<Text>
    ensures { IfOk result (λ text. text ≡ jobs_fault_text (Unfinished wave)) }
{
    object_line(
        alloc,
        &[
            ("fault", Leaf::Word("unfinished")),
            ("status", Leaf::Number(8)),
            ("wave", Leaf::Number(wave as u64)),
        ],
    )
}

// The line of lists that are left.
fn extra_line(alloc: Global, due: u64, given: u64) -> Mem<Text>
    ensures { IfOk result (λ text. text ≡ jobs_fault_text (Extra due given)) }
{
    object_line(
        alloc,
        &[
            ("due", Leaf::Number(due)),
            ("fault", Leaf::Word("extra")),
            ("given", Leaf::Number(given)),
            ("status", Leaf::Number(14)),
        ],
    )
}

/// The line of a fault, without its line feed: its keys in byte order.
pub fn jobs_fault_line(alloc: Global, fault: JobsFault) -> Mem<Text>
    ensures { IfOk result (λ text. text ≡ jobs_fault_text fault) }
{
    match fault {
        JobsFault::Plain(fault) => fault_line(alloc, fault),
        JobsFault::ZeroThreads => threads_line(alloc),
        JobsFault::DuplicateName { job } => refused_line(alloc, job, "duplicate-name"),
        JobsFault::BadAfter { job } => refused_line(alloc, job, "bad-after"),
        JobsFault::NotEnabled { turn, wave } => turn_line(alloc, "not-enabled", 6, turn, wave),
        JobsFault::ThirdSignal { turn, wave } => turn_line(alloc, "third-signal", 7, turn, wave),
        JobsFault::Unfinished { wave } => unfinished_line(alloc, wave),
        JobsFault::Extra { due, given } => extra_line(alloc, due, given),
    }
}
