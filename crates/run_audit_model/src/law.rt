// The first place at which events can't be continued to a list that keeps a law.
ghost use Rattle.std.specs.Prelude.{IfOk};
ghost use Rattle.run_audit_model.specs.Places.{IsStopOf};

use run_capture::Mem;

/// A law of lists of events, as a machine that takes them one by one.
pub trait Law<E> {
    ghost use Rattle.std.specs.Prelude.{◌≡◌, true, false, Some, None, IfOk};
    ghost use Rattle.run_audit_model.specs.Places.{Machine, Completes};

    /// How it takes events.
    ghost machine: { Machine Self E };

    /// What holds of its states.
    ghost holds: { Self → Type 0 };

    /// Takes an event, where that can be continued.
    fn take(&mut self, event: &E) -> Mem<bool>
        ensures taken { IfOk result
            (λ taken. taken ≡ true → machine.takes self.old event.now ≡ Some self.new) }
        ensures stopped { IfOk result
            (λ taken. taken ≡ false → machine.takes self.old event.now ≡ None) };

    /// Whether the events may end here.
    fn is_done(&self) -> bool
        ensures { result ≡ machine.is_done self.now };

    /// Each state that holds can be continued to an end.
    ghost completes: { Completes machine holds };
}

/// The first place at which events can't be continued to a list that keeps a law; none where they keep it.
pub fn first_stop<E, L: Law<E>>(law: &mut L, events: &[E]) -> Mem<Option<u64>>
    requires { L.holds law.old }
    ensures ok { IfOk result (IsStopOf L.machine law.old events.now) }
{
    for (place, event) in events.iter().enumerate() {
        if !law.take(event)? {
            return Ok(Some(place as u64));
        }
    }
    Ok(if law.is_done() {
        None
    } else {
        Some(events.len() as u64)
    })
}
