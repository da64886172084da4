// The first unit that is in a phase.
ghost use Rattle.std.specs.Prelude.{◌≡◌, true, false, Some, IfSome, IsNone};
ghost use Rattle.run_model.specs.Admission.{is_last};
ghost use Rattle.run_state.specs.First.{IsFirstIn, NoneIsIn};

use crate::state::State;
use crate::units::Units;
use run_model::Phase;

// Whether a unit that may have been admitted is in a phase.
fn is_in(unit: Option<Phase>, phase: Phase) -> bool
    ensures found { result ≡ true → unit ≡ Some phase }
    ensures other { result ≡ false → unit ≡ Some phase → ⊥ }
{
    unit == Some(phase)
}

impl Units {
    /// The least that is in a phase that isn't the last, none where none is.
    pub fn first_in(&self, phase: Phase) -> Option<u32>
        requires { is_last phase ≡ false }
        ensures first { IfSome result (IsFirstIn self.now phase) }
        ensures none { IsNone result → NoneIsIn self.now phase }
    {
        for place in 0..self.working_count() {
            let unit = self.working_at(place);
            if is_in(self.phase(unit), phase) {
                return Some(unit);
            }
        }
        None
    }
}

impl State {
    /// The least unit that is in a phase that isn't the last, none where none is. It looks at the units that were
    /// admitted and aren't over.
    pub fn first_in(&self, phase: Phase) -> Option<u32>
        requires { is_last phase ≡ false }
        ensures first { IfSome result (IsFirstIn self.now.board.units phase) }
        ensures none { IsNone result → NoneIsIn self.now.board.units phase }
    {
        self.units.first_in(phase)
    }
}
