// How a run ended.
ghost use Rattle.std.specs.Prelude.{◌≡◌};
ghost use Rattle.run_events.specs.Outcome.{outcome_of, severity, combined};

use crate::CancelReason;

/// The step of a run that failed or was cancelled.
#[derive(Clone, Copy, Debug, Drop, PartialEq, Eq)]
pub enum RunStep {
    SetupScript,
    Test,
}

/// The summary of a run's statistics at its end.
#[derive(Clone, Copy, Drop)]
pub enum FinalRunStats {
    Success,
    NoTestsRun,
    Cancelled {
        reason: Option<CancelReason>,
        step: RunStep,
    },
    Failed {
        step: RunStep,
    },
}

/// The outcome of a run.
#[derive(Clone, Copy, Debug, Drop, PartialEq, Eq)]
pub enum RunOutcome {
    NoTestsRun,
    Success,
    Failed { step: RunStep },
    Cancelled { step: RunStep },
}

impl RunOutcome {
    /// The outcome of a run with this summary.
    pub fn from_final_stats(stats: FinalRunStats) -> RunOutcome
        ensures { result ≡ outcome_of stats }
    {
        match stats {
            FinalRunStats::Success => RunOutcome::Success,
            FinalRunStats::NoTestsRun => RunOutcome::NoTestsRun,
            FinalRunStats::Cancelled { step, .. } => RunOutcome::Cancelled { step },
            FinalRunStats::Failed { step } => RunOutcome::Failed { step },
        }
    }

    /// The outcome of two sub-runs together: the greater in the order no tests run, success, failed, cancelled;
    /// of equally great ones the earlier.
    pub fn combine(self, later: RunOutcome) -> RunOutcome
        ensures { result ≡ combined self later }
    {
        if self.severity() < later.severity() {
            later
        } else {
            self
        }
    }

    // Its place in the order.
    fn severity(self) -> u8
        ensures { result ≡ severity self }
    {
        match self {
            RunOutcome::NoTestsRun => 0,
            RunOutcome::Success => 1,
            RunOutcome::Failed { .. } => 2,
            RunOutcome::Cancelled { .. } => 3,
        }
    }
}
