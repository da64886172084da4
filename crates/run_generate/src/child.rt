// The children of a generated run, which are made up.
ghost use Rattle.std.specs.Prelude.{◌≡◌, Some};
ghost use Rattle.run_generate.specs.OnWay.{child_phase};
ghost use Rattle.run_generate.specs.Turns.{exit_at, fails, last_as};

use run_events::{ChildExit, Turn};
use run_model::Phase;

/// How a child that there is to be stands.
#[derive(Clone, Copy, Drop)]
pub(crate) enum Child {
    /// It was asked for.
    Asked,
    /// It runs.
    Runs,
}

impl Child {
    /// The phase of its unit.
    pub(crate) fn phase(self) -> Phase
        ensures { result ≡ child_phase self }
    {
        match self {
            Child::Asked => Phase::Starting,
            Child::Runs => Phase::Running,
        }
    }
}

// Whether this attempt of the test of a number fails.
fn fails(test: u32, attempt: u32) -> bool
    ensures { result ≡ fails test attempt }
{
    test % 13 == 12 || (test % 7 == 3 && attempt == 1)
}

/// How the child of this attempt of the test of a number exits.
pub(crate) fn exit_at(test: u32, attempt: u32) -> ChildExit
    ensures { result ≡ exit_at test attempt }
{
    ChildExit::Code(if fails(test, attempt) { 1 } else { 0 })
}

/// What the last turn was to a child that runs.
#[derive(Clone, Copy, Drop)]
pub(crate) enum Last {
    /// Time passed for it.
    Time,
    /// Its output ended.
    Stream,
    /// None of these.
    Other,
}

impl Last {
    /// What this turn was.
    pub(crate) fn of(turn: &Turn) -> Last
        ensures { result ≡ last_as (Some turn.now) }
    {
        match turn {
            Turn::Clock { .. } => Last::Time,
            Turn::StreamEnd { .. } => Last::Stream,
            _ => Last::Other,
        }
    }
}
