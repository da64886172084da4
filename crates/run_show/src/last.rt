// The last line of a run.
ghost use Rattle.std.specs.Prelude.{◌≡◌, true, Some, IfOk, IfSome, IsTrue};
ghost use Rattle.run_output.specs.Outcomes.{outcome_text};
ghost use Rattle.run_show.specs.Said.{IsLastLine, is_fault_line, status_in};

use run_capture::{Mem, OutOfMemory, Text};
use run_events::{RunOutcome, RunStep};
use run_input::{LineError, read_value, u64_at};
use run_output::outcome_line;
use std::alloc::Global;

/// How the lines of a run end.
#[derive(Clone, Copy, Drop)]
pub enum Told {
    /// With this outcome.
    Outcome(RunOutcome),
    /// With a fault, and this status.
    Fault { status: u8 },
}

// Every outcome.
const OUTCOMES: [RunOutcome; 6] = [
    RunOutcome::Success,
    RunOutcome::NoTestsRun,
    RunOutcome::Failed {
        step: RunStep::Test,
    },
    RunOutcome::Failed {
        step: RunStep::SetupScript,
    },
    RunOutcome::Cancelled {
        step: RunStep::Test,
    },
    RunOutcome::Cancelled {
        step: RunStep::SetupScript,
    },
];

// Whether a line is that of an outcome.
fn is_outcome_line(alloc: Global, outcome: RunOutcome, line: &[u8]) -> Mem<bool>
    ensures { IfOk result (λ is. IsTrue is → outcome_text outcome ≡ line.now) }
{
    let text: Text = outcome_line(alloc, outcome)?;
    Ok(text.as_bytes() == line)
}

// The outcome whose line this is, if it is one.
fn outcome_of(alloc: Global, line: &[u8]) -> Mem<Option<RunOutcome>>
    ensures { IfOk result (λ found. IfSome found (λ outcome. outcome_text outcome ≡ line.now)) }
{
    for outcome in OUTCOMES {
        if is_outcome_line(alloc, outcome, line)? {
            return Ok(Some(outcome));
        }
    }
    Ok(None)
}

// The status that a line tells.
fn status_of(alloc: Global, line: &[u8]) -> Result<u64, LineError>
    ensures { IfOk result (λ status. status_in line.now ≡ Some status) }
{
    let value = match read_value(alloc, line) {
        Ok(value) => value,
        Err(refusal) => return Err(refusal.error()),
    };
    match u64_at(alloc, &value, "status") {
        Ok(status) => Ok(status),
        Err(refusal) => Err(refusal.error()),
    }
}

// How a run ended whose last line this is, of a fault.
fn fault_in(alloc: Global, line: &[u8]) -> Result<Told, LineError>
    requires { is_fault_line line.now ≡ true }
    ensures { IfOk result (λ told. IsLastLine line.now told) }
{
    let status = status_of(alloc, line)?;
    match u8::try_from(status) {
        Ok(status) => Ok(Told::Fault { status }),
        Err(_) => Err(LineError::NotInTable),
    }
}

// How a run ended whose last line this is, of an outcome.
fn outcome_in(alloc: Global, line: &[u8]) -> Result<Told, LineError>
    ensures { IfOk result (λ told. IsLastLine line.now told) }
{
    match outcome_of(alloc, line) {
        Ok(Some(outcome)) => Ok(Told::Outcome(outcome)),
        Ok(None) => Err(LineError::NotInTable),
        Err(OutOfMemory) => Err(LineError::OutOfMemory),
    }
}

/// How a run ended whose last line this is; none of a line by whose front it tells no end.
pub(crate) fn last_in(alloc: Global, line: &[u8]) -> Result<Option<Told>, LineError>
    ensures { IfOk result (λ found. IfSome found (λ told. IsLastLine line.now told)) }
{
    let told = if line.starts_with(b"{\"fault\":") {
        fault_in(alloc, line)?
    } else if line.starts_with(b"{\"outcome\":") {
        outcome_in(alloc, line)?
    } else {
        return Ok(None);
    };
    Ok(Some(told))
}
