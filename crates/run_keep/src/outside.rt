// What comes from outside, and who stops the program.
ghost use Rattle.std.specs.Prelude.{◌≡◌, ◌+◌, ℕ, List, [], ◌∷◌, ◌++◌, IfOk, IfSome, IsNone, OnErr, OnOk};
ghost use Rattle.run_keep.specs.Outside.{came_turn};

use run_capture::Mem;
use run_events::{Key, Signal, Turn};
use std::alloc::Global;

/// What comes from outside.
#[derive(Clone, Copy, Drop)]
pub enum Came {
    Signal { signal: Signal },
    Key { key: Key },
    /// A display wants to draw anew.
    Tick,
}

impl Came {
    /// Its turn.
    pub fn turn(self) -> Turn
        ensures { result ≡ came_turn self }
    {
        match self {
            Came::Signal { signal } => Turn::Signal { signal },
            Came::Key { key } => Turn::Key { key },
            Came::Tick => Turn::Tick,
        }
    }
}

/// The outside. What came needn't be kept: that it is a list is a relation.
pub trait Outside {
    ghost use Rattle.run_keep.specs.declared.outside.Came.{Came};

    /// This has come, oldest first.
    ghost has_come: { Self → List Came → Type 0 };

    /// What comes next, if something comes within 10 ms.
    fn next(&mut self, alloc: Global) -> Mem<Option<Came>>
        ensures some { IfOk result (λ o. IfSome o (λ came. (xs : List Came) → has_come self.old xs
            → has_come self.new (xs ++ came ∷ []))) }
        ensures none { IfOk result (λ o. IsNone o → (xs : List Came) → has_come self.old xs → has_come self.new xs) }
        ensures err { OnErr result ((xs : List Came) → has_come self.old xs → has_come self.new xs) };

    /// Waits for 10 ms, and takes nothing.
    fn pause(&mut self)
        ensures { (xs : List Came) → has_come self.old xs → has_come self.new xs };
}

/// Who stops the program.
pub trait Halter {
    /// It has stopped the program so often.
    ghost has_halted: { Self → ℕ → Type 0 };

    /// Stops the program, and returns once it is continued.
    fn halt(&mut self, alloc: Global) -> Mem<()>
        ensures halted { OnOk result ((n : ℕ) → has_halted self.old n → has_halted self.new (n + 1)) }
        ensures err { OnErr result ((n : ℕ) → has_halted self.old n → has_halted self.new n) };
}
