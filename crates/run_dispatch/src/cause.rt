// What cancels a run.
ghost use Rattle.std.specs.Prelude.{◌≡◌};
ghost use Rattle.run_model.specs.Cancel.{time_is_up, event_refused, too_many_failed, failure_cause, shutdown_by};
ghost use Rattle.run_model.specs.Cancel.{first_reason, script_cause, script_failed, signal_cause};

use run_events::{
    CancelReason, ExecutionResult, MaxFail, Request, RunStats, ShutdownRequest, Signal,
    TerminateMode,
};
use std::marker::Model;

/// A cause: its reason, and what is asked for it of each live unit. Contracts see it as the tables do.
#[derive(Drop)]
pub struct Cause {
    reason: CancelReason,
    request: Request,
}

impl Model for Cause {
    ghost use Rattle.run_model.specs.Cancel.{Cause};

    ghost Value = { Cause };

    ghost view = { λ c. record { reason = c.reason; request = c.request } };
}

impl Cause {
    pub fn reason(&self) -> CancelReason
        ensures { result ≡ self.now.reason }
    {
        self.reason
    }

    pub fn request(&self) -> Request
        ensures { result ≡ self.now.request }
    {
        self.request
    }

    /// The sub-run has run out of its time.
    pub fn time_is_up() -> Cause
        ensures { result ≡ time_is_up }
    {
        Cause {
            reason: CancelReason::GlobalTimeout,
            request: Request::Shutdown(ShutdownRequest::Term),
        }
    }

    /// The reporter refused an event.
    pub fn event_refused() -> Cause
        ensures { result ≡ event_refused }
    {
        Cause {
            reason: CancelReason::ReportError,
            request: Request::OtherCancel,
        }
    }

    /// A shutdown signal came, after so many: the first asks each child to end, and the second kills it.
    pub fn signal(heard: u32, signal: Signal) -> Cause
        ensures { result ≡ signal_cause heard signal }
    {
        if heard == 0 {
            Cause {
                reason: first_reason(signal),
                request: Request::Shutdown(shutdown_by(signal)),
            }
        } else {
            Cause {
                reason: CancelReason::SecondSignal,
                request: Request::Shutdown(ShutdownRequest::Twice),
            }
        }
    }

    /// As many tests failed as end the run, where they did.
    pub fn failure(most: MaxFail, stats: &RunStats) -> Option<Cause>
        ensures { result ≡ failure_cause most stats.now }
    {
        match most {
            MaxFail::Count {
                max_fail,
                terminate,
            } if u64::from(max_fail) <= stats.failed_count() => Some(too_many_failed(terminate)),
            _ => None,
        }
    }

    /// A setup script ended with this result, where that is a failure.
    pub fn script_failure(ended: ExecutionResult) -> Option<Cause>
        ensures { result ≡ script_cause ended }
    {
        if ended.is_success() {
            None
        } else {
            Some(script_failed())
        }
    }
}

// Those that run go on to their end, or are ended at once.
fn too_many_failed(terminate: TerminateMode) -> Cause
    ensures { result ≡ too_many_failed terminate }
{
    match terminate {
        TerminateMode::Wait => Cause {
            reason: CancelReason::TestFailure,
            request: Request::OtherCancel,
        },
        TerminateMode::Immediate => Cause {
            reason: CancelReason::TestFailureImmediate,
            request: Request::Shutdown(ShutdownRequest::TestFailureImmediate),
        },
    }
}

// A script failed: units that run go on to their end.
fn script_failed() -> Cause
    ensures { result ≡ script_failed }
{
    Cause {
        reason: CancelReason::SetupScriptFailure,
        request: Request::OtherCancel,
    }
}

fn shutdown_by(signal: Signal) -> ShutdownRequest
    ensures { result ≡ shutdown_by signal }
{
    match signal {
        Signal::Int => ShutdownRequest::Interrupt,
        Signal::Hup => ShutdownRequest::Hangup,
        Signal::Quit => ShutdownRequest::Quit,
        _ => ShutdownRequest::Term,
    }
}

fn first_reason(signal: Signal) -> CancelReason
    ensures { result ≡ first_reason signal }
{
    match signal {
        Signal::Int => CancelReason::Interrupt,
        _ => CancelReason::Signal,
    }
}
