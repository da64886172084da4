// What a shared run answers to a turn that is offered.
ghost use Rattle.std.specs.Prelude.{◌≡◌, Err, IfOk, OnErr, OnOk};
ghost use Rattle.run_shared.specs.Offered.{step_answer, step_error, offered_turn, taken_count};

use crate::shared::{Receipt, receipt_of};
use run_capture::{Mem, OutOfMemory};
use run_engine::StepError;
use run_events::Turn;

/// Why a turn was refused.
#[derive(Clone, Copy, Drop)]
pub enum RefusalKind {
    /// The turn isn't enabled.
    NotEnabled,
    /// The turn is a shutdown signal that would be taken, but that two came before it in this sub-run.
    ThirdSignal,
    /// The journal is full: the run takes no turn any more.
    Full,
}

impl RefusalKind {
    // The error of a step that was refused so.
    pub(crate) fn into_error(self) -> StepError
        ensures { result ≡ step_error self }
    {
        match self {
            RefusalKind::NotEnabled => StepError::NotEnabled,
            RefusalKind::ThirdSignal => StepError::ThirdSignal,
            RefusalKind::Full => StepError::Full,
        }
    }
}

/// That a turn was refused: it stands nowhere in the journal by this offer. Only a shared run makes one.
#[derive(Drop)]
pub struct Refusal {
    turn: Turn,
    kind: RefusalKind,
}

impl Refusal {
    /// The turn.
    pub fn turn(&self) -> &Turn
        ensures { result.now ≡ self.now.turn }
    {
        &self.turn
    }

    /// Why it was refused.
    pub fn kind(&self) -> RefusalKind
        ensures { result ≡ self.now.kind }
    {
        self.kind
    }
}

/// What came of a turn that was offered.
#[derive(Drop)]
pub enum Offered {
    Taken { receipt: Receipt },
    Refused { refusal: Refusal },
}

// That a turn was refused, and why.
fn refused(turn: Turn, kind: RefusalKind) -> Offered
    ensures turn { offered_turn result ≡ turn }
    ensures answer { step_answer result ≡ Err (step_error kind) }
{
    Offered::Refused {
        refusal: Refusal { turn, kind },
    }
}

// What came of a turn, by its place in the journal or why it was refused.
pub(crate) fn offered_at(place: Result<u64, StepError>, turn: Turn) -> Mem<Offered>
    ensures turn { IfOk result (λ o. offered_turn o ≡ turn) }
    ensures answer { IfOk result (λ o. step_answer o ≡ place) }
    ensures err { OnErr result (place ≡ Err StepError.OutOfMemory) }
{
    match place {
        Ok(number) => Ok(Offered::Taken {
            receipt: receipt_of(number, turn),
        }),
        Err(StepError::NotEnabled) => Ok(refused(turn, RefusalKind::NotEnabled)),
        Err(StepError::ThirdSignal) => Ok(refused(turn, RefusalKind::ThirdSignal)),
        Err(StepError::Full) => Ok(refused(turn, RefusalKind::Full)),
        Err(StepError::OutOfMemory) => {
            drop(turn);
            Err(OutOfMemory)
        }
    }
}

// The receipt of a turn that was taken, or the error of one that was refused.
pub(crate) fn receipt_in(offered: Offered) -> Result<Receipt, StepError>
    ensures turn { IfOk result (λ r. r.turn ≡ offered_turn offered) }
    ensures taken { OnOk result (taken_count offered ≡ 1) }
    ensures refused { OnErr result (taken_count offered ≡ 0) }
{
    match offered {
        Offered::Taken { receipt } => Ok(receipt),
        Offered::Refused { refusal } => {
            let kind = refusal.kind();
            drop(refusal);
            Err(kind.into_error())
        }
    }
}
