// Faults of the stores of a chain.
use run_capture::OutOfMemory;
use run_output::PlanFault;

/// Why a store has no run whose tests can be told. Numbers are counted from 0.
#[derive(Clone, Copy, Drop)]
pub enum RerunFault {
    /// It could not be opened, or reading it failed.
    Read,
    /// It has more bytes than a store may have.
    TooLong,
    /// It ends before the record of the plan line does.
    Torn,
    /// The record of this number is in no store.
    Bad { record: u64 },
    /// Its plan can't be run.
    Plan(PlanFault),
    /// The turn of this number may not come then.
    NotEnabled { turn: u64 },
    /// The turn of this number is a third signal that shuts the run down.
    ThirdSignal { turn: u64 },
}

/// Why it isn't known which tests a store has.
#[derive(Clone, Copy, Drop)]
pub enum FoundError {
    Fault(RerunFault),
    /// Memory was refused.
    OutOfMemory,
}

impl From<OutOfMemory> for FoundError {
    ghost use Rattle.std.specs.Prelude.{◌≡◌};
    ghost use Rattle.run_rerun_cli.specs.declared.faults.FoundError.TheVariants as errors;

    ghost from_gives = { λ _ e. e ≡ errors.OutOfMemory };

    fn from(_: OutOfMemory) -> Self {
        FoundError::OutOfMemory
    }
}
