// The signal that ends a child.
ghost use Rattle.std.specs.Prelude.{◌≡◌};
ghost use Rattle.run_model.specs.Terminate.{terminate_method, asking_signal};

use run_events::{ShutdownRequest, TermSignal, TerminateReason};

/// The signal that ends a child for this reason, where it is given so many nanoseconds to end by itself.
pub fn terminate_method(reason: TerminateReason, grace: u64) -> TermSignal
    ensures { result ≡ terminate_method reason grace }
{
    if grace == 0 {
        TermSignal::Kill
    } else {
        asking_signal(reason)
    }
}

// The signal by which a child is asked to end.
fn asking_signal(reason: TerminateReason) -> TermSignal
    ensures { result ≡ asking_signal reason }
{
    match reason {
        TerminateReason::Timeout => TermSignal::Term,
        TerminateReason::Signal(request) => match request {
            ShutdownRequest::Interrupt => TermSignal::Interrupt,
            ShutdownRequest::Term | ShutdownRequest::TestFailureImmediate => TermSignal::Term,
            ShutdownRequest::Hangup => TermSignal::Hangup,
            ShutdownRequest::Quit => TermSignal::Quit,
            ShutdownRequest::Twice => TermSignal::Kill,
        },
    }
}
