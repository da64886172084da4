// Whether two requests are the same.
ghost use Rattle.std.specs.Prelude.{◌≡◌};
ghost use Rattle.run_model.specs.Same.{is_request, is_for};

use run_events::{Request, ShutdownRequest};

/// Whether a request is this one.
pub fn is_request(request: Request, other: Request) -> bool
    ensures { result ≡ is_request request other }
{
    match request {
        Request::Stop { round } => matches!(other, Request::Stop { round: same } if round == same),
        Request::Continue => matches!(other, Request::Continue),
        Request::Shutdown(reason) => {
            matches!(other, Request::Shutdown(same) if is_shutdown(reason, same))
        }
        Request::OtherCancel => matches!(other, Request::OtherCancel),
        Request::GetInfo { round } => {
            matches!(other, Request::GetInfo { round: same } if round == same)
        }
    }
}

// Whether a shutdown is for this reason.
fn is_shutdown(reason: ShutdownRequest, other: ShutdownRequest) -> bool
    ensures { result ≡ is_for reason other }
{
    match reason {
        ShutdownRequest::Interrupt => matches!(other, ShutdownRequest::Interrupt),
        ShutdownRequest::Term => matches!(other, ShutdownRequest::Term),
        ShutdownRequest::Hangup => matches!(other, ShutdownRequest::Hangup),
        ShutdownRequest::Quit => matches!(other, ShutdownRequest::Quit),
        ShutdownRequest::TestFailureImmediate => {
            matches!(other, ShutdownRequest::TestFailureImmediate)
        }
        ShutdownRequest::Twice => matches!(other, ShutdownRequest::Twice),
    }
}
