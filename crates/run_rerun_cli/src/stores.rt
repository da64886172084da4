// Where stores are opened by their names.
ghost use Rattle.std.specs.Prelude.{ℕ, ◌≡◌, [], ◌∷◌, List, Option, IfOk, nat_lt};
ghost use Rattle.run_capture.specs.Faults.{CountsFault, RoseExactlyIf};
ghost use Rattle.run_rerun_cli.specs.Visits.{StoreAct, DoesNext, given_back, opening};

use run_capture::{Failed, Source};

/// Where stores are opened by their names, one after another. What was done with them needn't be kept: that it is a
/// list is a relation.
pub trait Stores {
    type Src: Source + Drop;

    /// The bytes of each name, where they are told.
    ghost bytes: { Self → List ℕ → Option (List ℕ) };

    /// How often a store wasn't opened, or was given back after it had failed.
    ghost faults: { Self → ℕ };

    /// This was done with them, oldest first.
    ghost did: { Self → List StoreAct → Type 0 };

    /// Opens the store with this name.
    fn open_store(&mut self, name: &str) -> Result<Self::Src, Failed>
        ensures same { (n : List ℕ) → bytes self.new n ≡ bytes self.old n }
        ensures left { IfOk result (λ src. Self.Src.Source.left src ≡ bytes self.old name.now) }
        ensures fresh { IfOk result (λ src. Self.Src.Source.faults src ≡ 0) }
        ensures fault { CountsFault (faults self.old) (faults self.new) result }
        ensures done { DoesNext did self.old self.new (opening name.now result ∷ []) };

    /// Takes back a store that it opened. That the store has failed counts as a fault.
    fn give_back(&mut self, src: Self::Src)
        ensures same { (n : List ℕ) → bytes self.new n ≡ bytes self.old n }
        ensures fault { RoseExactlyIf (nat_lt 0 (Self.Src.Source.faults src)) (faults self.old) (faults self.new) }
        ensures done { DoesNext did self.old self.new (given_back ∷ []) };
}
