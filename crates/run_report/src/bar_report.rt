// A report with a bar at its end.
ghost use Rattle.std.specs.Prelude.{◌≡◌, ◌++◌, ℕ, [], ◌∷◌, true, string_bytes, IfOk, IfSome, IsSome, OnOk};
ghost use Rattle.std.specs.Prelude.{List as Items};
ghost use Rattle.run_events.specs.declared.events.ReporterEvent.{ReporterEvent as Event};
ghost use Rattle.run_events.specs.declared.events.ReporterEvent.TheVariants.{Tick, Test};
ghost use Rattle.run_events.specs.Tell.{Adds};
ghost use Rattle.run_progress.specs.Lines.{tick_of};
ghost use Rattle.run_progress.specs.Seen.{is_hidden};
ghost use Rattle.run_report.specs.Bar.{bar_shown, DrawnAt, HasSeen};

use crate::style::push_char;
use crate::{Board, Listener};
use run_capture::Mem;
use run_events::{ReporterEvent, RunMode, TestEvent, Turn};
use run_progress::{LiveProgress, MaxProgressRunning};
use std::alloc::Global;
use std::time::{Clock, Instant};

/// What a bar is drawn by.
#[derive(Drop)]
struct Bar<C: Clock + Drop> {
    state: LiveProgress,
    clock: C,
    start: Option<Instant>,
    width: u32,
}

/// A board at whose end a bar stands, which is drawn anew at each tick: what the run does, for how long, how many of
/// its tests have finished, and the tests that run. The time is that of a clock since this was made. Where memory is
/// wanting for the bar, or it can't be written, none is drawn any more.
pub struct BarReport<A, C: Clock + Drop> {
    report: A,
    bar: Option<Bar<C>>,
}

// Adds a text as a bar shows it.
fn push_bar(out: &mut String, text: &str) -> Mem<()>
    ensures { OnOk result (string_bytes out.new ≡ string_bytes out.old ++ bar_shown text.now) }
{
    for c in text.chars() {
        if c == '\n' {
            out.push(c)?;
        } else {
            push_char(out, c)?;
        }
    }
    Ok(())
}

impl<C: Clock + Drop> Bar<C> {
    // A bar of a display that has heard no event, on a terminal of this width.
    #[tactic(auto, using(crate::proofs::BarLemmas::seen_nothing))]
    fn new(clock: C, width: u32) -> Self
        ensures { HasSeen [] result.state }
    {
        let start = Instant::now(&clock).ok();
        Bar {
            state: LiveProgress::new(RunMode::Test, 0, MaxProgressRunning::DEFAULT_VALUE),
            clock,
            start,
            width,
        }
    }

    // The nanoseconds since it was made; 0 where the clock can't be read.
    fn now(&self) -> u64 {
        match (self.start, Instant::now(&self.clock)) {
            (Some(start), Ok(now)) => {
                now.duration_since(start).as_nanos().min(u64::MAX as u128) as u64
            }
            _ => 0,
        }
    }

    // Its text at some moment.
    #[tactic(auto, using(crate::proofs::BarLemmas::seen_kept))]
    fn text(&mut self, alloc: Global) -> Mem<String>
        ensures text { IfOk result (λ s. (now : ℕ) × (string_bytes s
            ≡ bar_shown (tick_of self.old.state.showing self.old.state.seen now self.old.width))) }
        ensures seen { (events : Items Event) → HasSeen events self.old.state → HasSeen events self.new.state }
    {
        let now = self.now();
        let text = self.state.tick_text(alloc, now, self.width)?;
        let mut out = String::new(alloc);
        push_bar(&mut out, text.as_str())?;
        Ok(out)
    }

    // Hears an event. Answers whether it did.
    #[tactic(auto, using(crate::proofs::BarLemmas::seen_event))]
    fn hear(&mut self, alloc: Global, event: &TestEvent) -> bool
        ensures { result ≡ true → (events : Items Event) → HasSeen events self.old.state
            → HasSeen (events ++ Test event.now ∷ []) self.new.state }
    {
        self.state.apply(alloc, event).is_ok()
    }

    // Draws it at the end of a report, as it is at some moment, unless it is hidden. Answers whether it may be drawn
    // again.
    #[tactic(auto, using(crate::proofs::BarLemmas::seen_tick))]
    fn draw<A: Board>(&mut self, alloc: Global, report: &mut A) -> bool
        ensures heard { (events : Items Event) → A.heard report.old events
            → A.heard report.new events }
        ensures seen { (events : Items Event) → HasSeen events self.old.state
            → HasSeen (events ++ Tick ∷ []) self.new.state }
        ensures hidden { is_hidden self.old.state.seen.hiding ≡ true → report.new ≡ report.old }
        ensures drawn { result ≡ true
            → DrawnAt (λ text. A.draws report.old report.new text) self.old.state self.old.width }
    {
        if self.state.hidden() {
            return true;
        }
        match self.text(alloc) {
            Ok(text) => report.draw(text.as_str()).is_ok(),
            Err(_) => false,
        }
    }

    // The bar once an event was told; none where no more is drawn.
    fn after<A: Board>(
        mut self,
        alloc: Global,
        report: &mut A,
        event: &ReporterEvent,
    ) -> Option<Self>
        ensures heard { (events : Items Event) → A.heard report.old events
            → A.heard report.new events }
        ensures seen { IfSome result (λ bar. (events : Items Event) → HasSeen events self.state
            → HasSeen (events ++ event.now ∷ []) bar.state) }
        ensures drawn { event.now ≡ Tick → IsSome result
            → DrawnAt (λ text. A.draws report.old report.new text) self.state self.width }
    {
        let goes_on = match event {
            ReporterEvent::Tick => self.draw(alloc, report),
            ReporterEvent::Test(event) => self.hear(alloc, event),
        };
        if goes_on { Some(self) } else { None }
    }
}

impl<A: Board, C: Clock + Drop> BarReport<A, C> {
    /// A board that has heard nothing, with a bar for a terminal of this width, if one is wanted.
    pub fn new(report: A, clock: C, width: Option<u32>) -> Self
        ensures { A.heard report [] → ⟦<BarReport<A, C> as Listener>⟧.heard result [] }
    {
        let bar = match width {
            Some(width) => Some(Bar::new(clock, width)),
            None => None,
        };
        BarReport { report, bar }
    }

    /// Hands back the board.
    pub fn into_report(self) -> A
        ensures { (events : Items Event) → ⟦<BarReport<A, C> as Listener>⟧.heard self events → A.heard result events }
    {
        let BarReport { report, bar } = self;
        drop(bar);
        report
    }
}

impl<A: Board, C: Clock + Drop> Listener for BarReport<A, C> {
    ghost use Rattle.std.specs.Prelude.{⊤};

    ghost heard = { λ b events. A.heard b.report events × IfSome b.bar (λ bar. HasSeen events bar.state) };

    // It hands no turn on to the board.
    ghost taken = { λ _ _. ⊤ };

    fn hear(&mut self, alloc: Global, event: &ReporterEvent)
        ensures heard { Adds (λ b events. A.heard b.report events × IfSome b.bar (λ bar. HasSeen events bar.state))
            self.old self.new (event.now ∷ []) }
        // At a tick the bar is drawn behind what the board has heard then, unless it is given up.
        ensures drawn { event.now ≡ Tick → IsSome self.new.bar → IfSome self.old.bar (λ bar. (between : A)
            × Adds A.heard self.old.report between (event.now ∷ [])
            × DrawnAt (λ text. A.draws between self.new.report text) bar.state bar.width) }
    {
        self.report.hear(alloc, event);
        if let Some(bar) = self.bar.take() {
            self.bar = bar.after(alloc, &mut self.report, event);
        }
    }

    fn hear_turn(&mut self, _alloc: Global, _turn: &Turn) {}
}
