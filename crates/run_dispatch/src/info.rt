// The units are asked what they are doing; keys and ticks.
ghost use Rattle.std.specs.Prelude.{ℕ, ◌≡◌, ◌+◌, ◌<◌, ◌≤◌, ◌^◌, IfOk, OnErr, None};
ghost use Rattle.run_model.specs.Turns.{asks_at, answers_at, informs_at, key_deed, ticks};
ghost use Rattle.run_dispatch.specs.Deeds.{Acts};

use crate::effects::{Fx, one_telling, telling};
use run_capture::List;
use run_events::{
    InfoAnswered, InfoResponse, InfoStarted, InputEntered, InputEvent, ReporterEvent, Request,
    TestEventKind,
};
use run_model::DispatcherView;
use std::alloc::Global;

/// Each of so many live units is asked what it is doing, in a new round.
pub fn ask_units(alloc: Global, view: &mut DispatcherView, live: u32, now: u64) -> Fx
    requires few { view.old.rounds.count + 1 < 2 ^ 32 }
    requires timed { view.old.watch.latest ≤ now }
    ensures does { IfOk result (Acts now view.old (asks_at now live view.old) None view.new) }
    ensures err { OnErr result (view.new ≡ view.old) }
{
    let request = Request::GetInfo {
        round: view.rounds.count,
    };
    let kind = TestEventKind::InfoStarted(InfoStarted {
        total: live,
        running: view.tally.running,
        stats: view.tally.stats,
    });
    let effects = one_telling(alloc, &view.watch, now, kind, Some(request))?;
    view.rounds.count += 1;
    view.rounds.asks = Some(request);
    view.rounds.since = now;
    view.rounds.total = live;
    view.rounds.told = 0;
    Ok(effects)
}

/// An answer is told.
pub fn tell_answer(alloc: Global, view: &mut DispatcherView, response: InfoResponse, now: u64) -> Fx
    requires few { view.old.rounds.told + 1 < 2 ^ 32 }
    requires timed { view.old.watch.latest ≤ now }
    ensures does { IfOk result (Acts now view.old (answers_at now view.old response) None view.new) }
    ensures err { OnErr result (view.new ≡ view.old) }
{
    let kind = TestEventKind::InfoResponse(InfoAnswered {
        response,
        index: view.rounds.told,
        total: view.rounds.total,
    });
    let effects = one_telling(alloc, &view.watch, now, kind, None)?;
    view.rounds.since = now;
    view.rounds.told += 1;
    Ok(effects)
}

/// The round of queries is over: how many units gave no answer is told.
pub fn end_round(alloc: Global, view: &mut DispatcherView, now: u64) -> Fx
    requires timed { view.old.watch.latest ≤ now }
    ensures does { IfOk result (Acts now view.old (informs_at now view.old) None view.new) }
    ensures err { OnErr result (view.new ≡ view.old) }
{
    let kind = TestEventKind::InfoFinished {
        missing: view.rounds.total.saturating_sub(view.rounds.told),
    };
    let effects = one_telling(alloc, &view.watch, now, kind, None)?;
    view.rounds.asks = None;
    Ok(effects)
}

/// A key was pressed that is this to the run.
pub fn hear_key(
    alloc: Global,
    view: &mut DispatcherView,
    heard: Option<InputEvent>,
    live: u32,
    now: u64,
) -> Fx
    requires few { view.old.rounds.count + 1 < 2 ^ 32 }
    requires timed { view.old.watch.latest ≤ now }
    ensures does { IfOk result (Acts now view.old (key_deed now live view.old heard) None view.new) }
    ensures err { OnErr result (view.new ≡ view.old) }
{
    match heard {
        Some(InputEvent::Enter) => {
            let kind = TestEventKind::InputEnter(InputEntered {
                running: view.tally.running,
                stats: view.tally.stats,
            });
            one_telling(alloc, &view.watch, now, kind, None)
        }
        Some(InputEvent::Info) => ask_units(alloc, view, live, now),
        None => Ok(telling(List::new(), None)),
    }
}

/// A display wants to draw anew.
pub fn tick(alloc: Global, view: &DispatcherView) -> Fx
    ensures does { IfOk result (λ fx. (now : ℕ) → Acts now view.now ticks None view.now fx) }
{
    let mut events = List::new();
    events.push(alloc, ReporterEvent::Tick)?;
    Ok(telling(events, None))
}
