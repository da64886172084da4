// What a worker waits for.
ghost use Rattle.std.specs.Prelude.{◌≡◌, ◌↔◌, IsTrue, is_some};
ghost use Rattle.run_drive.specs.Hearing.{after_begun, after_exit, after_word};

use crate::{Begun, Said};
use run_events::{ChildExit, StartAsk};

/// What a worker waits for.
#[derive(Clone, Copy, Drop)]
pub enum Awaited {
    /// A start.
    Start,
    /// The next word of a child, which may have an environment file.
    Word { env: bool },
    /// The environment file of a script that succeeded.
    Env,
}

impl Awaited {
    pub(crate) fn is_start(self) -> bool
        ensures { IsTrue result ↔ (self ≡ Awaited.Start) }
    {
        matches!(self, Awaited::Start)
    }

    // What a worker that waits for this waits for after a word. After any word but an exit or a failed wait it is the
    // next word.
    pub(crate) fn after(self, said: &Said) -> Awaited
        ensures { result ≡ after_word self said.now }
    {
        match self {
            Awaited::Word { env } => after_said(env, said),
            Awaited::Start | Awaited::Env => Awaited::Start,
        }
    }
}

// What a worker waits for after an exit of a child, which may have an environment file.
fn after_exit(exit: &ChildExit, env: bool) -> Awaited
    ensures { result ≡ after_exit exit.now env }
{
    match exit {
        ChildExit::Code(0) if env => Awaited::Env,
        ChildExit::Code(0) => Awaited::Start,
        ChildExit::Code(_) => Awaited::Start,
        ChildExit::Signal(_) => Awaited::Start,
    }
}

// What a worker waits for after a word of a child, which may have an environment file.
fn after_said(env: bool, said: &Said) -> Awaited
    ensures { result ≡ after_word (Awaited.Word env) said.now }
{
    match said {
        Said::Exit { exit } => after_exit(exit, env),
        Said::WaitFailed { .. } => Awaited::Start,
        Said::Piece { .. } | Said::End { .. } | Said::ReadError { .. } | Said::Env { .. } => {
            Awaited::Word { env }
        }
    }
}

// What a worker waits for once a start was answered. A script is a unit that has an environment file.
pub(crate) fn awaited_after(start: &StartAsk, begun: &Begun) -> Awaited
    ensures { result ≡ after_begun start.now begun.now }
{
    match begun {
        Begun::Started { .. } => Awaited::Word {
            env: start.env_path.is_some(),
        },
        Begun::Refused { .. } => Awaited::Start,
    }
}
