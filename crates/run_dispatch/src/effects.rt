// What a call of the dispatcher gives to the run.
ghost use Rattle.std.specs.Prelude.{◌≡◌, ◌≤◌, ◌∷◌, [], IfOk, None};
ghost use Rattle.run_model.specs.Dispatch.{moment_by, event};

use run_capture::{Duplicate, List, Mem};
use run_clock::StopwatchStart;
use run_events::{Ask, ReporterEvent, Request, TestEvent, TestEventKind};
use std::alloc::Global;

/// What a call of the dispatcher gives to the run.
#[derive(Drop)]
pub struct DispatchEffects {
    /// The events that it tells, in order: its own, then that of a cause.
    pub events: List<ReporterEvent>,
    /// What it asks of each unit that is live.
    pub request: Option<Request>,
    /// What it asks of the outside.
    pub asked: Option<Ask>,
    /// Whether the unit whose start was delivered is let go.
    pub go: Option<bool>,
}

impl Duplicate for DispatchEffects {
    fn copy(&self, alloc: Global) -> Mem<DispatchEffects> {
        let events = self.events.copy(alloc)?;
        let asked = self.asked.copy(alloc)?;
        Ok(DispatchEffects {
            events,
            request: self.request,
            asked,
            go: self.go,
        })
    }
}

/// The effects of a call, or want of memory, after which the dispatcher is unchanged.
pub type Fx = Mem<DispatchEffects>;

/// Effects that tell these events.
pub fn telling(events: List<ReporterEvent>, go: Option<bool>) -> DispatchEffects
    ensures { result ≡ record { events = events; request = None; asked = None; go = go } }
{
    DispatchEffects {
        events,
        request: None,
        asked: None,
        go,
    }
}

/// One event, at this moment of a run with this stopwatch.
pub fn one_event(
    alloc: Global,
    watch: &StopwatchStart,
    now: u64,
    kind: TestEventKind,
) -> Mem<List<ReporterEvent>>
    requires { watch.now.latest ≤ now }
    ensures { IfOk result (λ events. events ≡ event (moment_by now watch.now) kind ∷ []) }
{
    let mut events = List::new();
    events.push(alloc, event_at(watch, now, kind))?;
    Ok(events)
}

/// An event at this moment of a run with this stopwatch.
pub fn event_at(watch: &StopwatchStart, now: u64, kind: TestEventKind) -> ReporterEvent
    requires { watch.now.latest ≤ now }
    ensures { result ≡ event (moment_by now watch.now) kind }
{
    ReporterEvent::Test(TestEvent {
        clock: now,
        elapsed: watch.snapshot(now).active,
        kind,
    })
}

/// Effects that tell one event, at this moment of a run with this stopwatch, and ask this of each live unit.
pub fn one_telling(
    alloc: Global,
    watch: &StopwatchStart,
    now: u64,
    kind: TestEventKind,
    request: Option<Request>,
) -> Fx
    requires { watch.now.latest ≤ now }
    ensures { IfOk result (λ fx. fx
        ≡ record { events = event (moment_by now watch.now) kind ∷ []; request = request; asked = None; go = None }) }
{
    let events = one_event(alloc, watch, now, kind)?;
    Ok(DispatchEffects {
        events,
        request,
        asked: None,
        go: None,
    })
}
