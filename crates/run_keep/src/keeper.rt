// Who starts children, tells what they do, and sends them signals.
ghost use Rattle.std.specs.Prelude.{◌≡◌, List, [], ◌∷◌, ◌++◌, IfOk, IfSome, OnErr, OnOk};

use run_capture::{Duplicate, Mem, Text};
use run_commands::EnvInput;
use run_drive::{Begun, Said};
use run_events::{SignalAsk, StartAsk};
use std::alloc::Global;

/// What came of a signal that was to be sent.
#[derive(Drop)]
pub enum Sent {
    /// The child, or its group, was sent it.
    Sent,
    /// No process was there any more: the exit is yet to be told.
    Gone,
    /// It could not be sent.
    Failed { error: Text },
}

impl Duplicate for Sent {
    fn copy(&self, alloc: Global) -> Mem<Sent> {
        match self {
            Sent::Sent => Ok(Sent::Sent),
            Sent::Gone => Ok(Sent::Gone),
            Sent::Failed { error } => Ok(Sent::Failed {
                error: error.copy(alloc)?,
            }),
        }
    }
}

/// What a keeper was asked, and what it said.
pub enum Heard {
    /// It was asked for a start, and answered so.
    Asked { start: StartAsk, begun: Begun },
    /// It was told to send a signal to its child.
    Told { ask: SignalAsk, sent: Sent },
    /// It was told that a signal came after the end of its child, and is not to be sent.
    Late { ask: SignalAsk },
    /// It said what its child did.
    Spoke { said: Said },
}

// A call of its own, which keeps the proofs of all that hold one small.
impl Drop for Heard {
    fn drop(self) {
        match self {
            Heard::Asked { start: _, begun: _ } => {}
            Heard::Told { ask: _, sent: _ } => {}
            Heard::Late { ask: _ } => {}
            Heard::Spoke { said: _ } => {}
        }
    }
}

/// A keeper: it keeps one child at a time, tells what that child does, and sends it signals. No call waits for the
/// child: `offer` waits 10 ms at most. What it was asked and has said needn't be kept: that it is a list is a relation.
pub trait Keeper {
    ghost use Rattle.run_keep.specs.declared.keeper.Heard.{Heard};
    ghost use Rattle.run_drive.specs.declared.spawner.Said.{Said};

    /// It was asked, was told and has said this list, oldest first.
    ghost has_heard: { Self → List Heard → Type 0 };

    /// It offers this word, and hasn't said it yet.
    ghost offers: { Self → Said → Type 0 };

    /// Starts a child.
    fn start(&mut self, alloc: Global, ask: &StartAsk) -> Mem<Begun>
        ensures asked { IfOk result (λ begun. (xs : List Heard) → has_heard self.old xs
            → has_heard self.new (xs ++ Heard.Asked ask.now begun ∷ [])) }
        ensures not_asked { OnErr result ((xs : List Heard) → has_heard self.old xs → has_heard self.new xs) };

    /// What the child does next, if it did something within a while. A word that isn't accepted is offered again.
    /// With `reads` that may be what it wrote; without, its streams are left alone, and only its end is looked for.
    fn offer(&mut self, alloc: Global, reads: bool) -> Mem<Option<Said>>
        ensures offered { IfOk result (λ o. IfSome o (λ said. offers self.new said)) }
        ensures unsaid { (xs : List Heard) → has_heard self.old xs → has_heard self.new xs };

    /// Says what it offers.
    fn accept(&mut self, alloc: Global) -> Mem<()>
        ensures said { OnOk result ((said : Said) → offers self.old said → (xs : List Heard)
            → has_heard self.old xs → has_heard self.new (xs ++ Heard.Spoke said ∷ [])) }
        ensures unsaid { OnErr result ((xs : List Heard) → has_heard self.old xs → has_heard self.new xs) };

    /// Reads the environment file of a child that has ended, and says what stands in it.
    fn read_env(&mut self, alloc: Global) -> Mem<EnvInput>
        ensures said { IfOk result (λ input. (xs : List Heard) → has_heard self.old xs
            → has_heard self.new (xs ++ Heard.Spoke (Said.Env input) ∷ [])) }
        ensures unsaid { OnErr result ((xs : List Heard) → has_heard self.old xs → has_heard self.new xs) };

    /// Sends a signal to the child that runs, or to its group where the ask says so.
    fn send(&mut self, alloc: Global, ask: &SignalAsk) -> Mem<Sent>
        ensures told { IfOk result (λ sent. (xs : List Heard) → has_heard self.old xs
            → has_heard self.new (xs ++ Heard.Told ask.now sent ∷ [])) }
        ensures untold { OnErr result ((xs : List Heard) → has_heard self.old xs → has_heard self.new xs) };

    /// A signal came after the end of the child: nothing is sent.
    fn miss(&mut self, alloc: Global, ask: &SignalAsk) -> Mem<()>
        ensures late { OnOk result ((xs : List Heard) → has_heard self.old xs
            → has_heard self.new (xs ++ Heard.Late ask.now ∷ [])) }
        ensures untold { OnErr result ((xs : List Heard) → has_heard self.old xs → has_heard self.new xs) };

    /// Kills the child that runs, if one does, with its group.
    fn end(&mut self)
        ensures { (xs : List Heard) → has_heard self.old xs → has_heard self.new xs };
}
