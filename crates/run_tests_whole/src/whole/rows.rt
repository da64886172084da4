// Runs of one test under one worker.
use crate::whole::gate::{Count, CountingHost, CountingKeeper, WaitingOutside};
use crate::whole::given::{Act, keepers, nothing, runner, signals};
use crate::whole::hearing::Hearing;
use run_capture::List;
use run_events::{ChildExit, ChildSignal, RunOutcome, TermSignal};
use run_keep::{Heard, MemoryHalter, Sent};
use run_shared::{OrderFault, check_orders};
use run_whole::{Around, Whole, whole};
use std::alloc::Global;
use std::process::Abort;
use std::sync::Wait;
use std::thread::Threads;
use std::time::Clock;

// What a run leaves.
type Left<C> = Whole<
    CountingKeeper,
    crate::whole::gate::Milliseconds<C>,
    WaitingOutside,
    MemoryHalter,
    Hearing,
>;

// A signal as a letter.
fn letter_of(signal: ChildSignal) -> char {
    match signal {
        ChildSignal::End(TermSignal::Interrupt) => 'I',
        ChildSignal::End(TermSignal::Term) => 'T',
        ChildSignal::End(TermSignal::Kill) => 'K',
        ChildSignal::Tstp => 'S',
        ChildSignal::Cont => 'C',
        _ => '?',
    }
}

// Whether keepers were told these signals, each of which was sent or could not be.
fn were_told(keepers: &[CountingKeeper], wanted: &str, refuses: bool) -> bool {
    let mut letters = wanted.chars();
    for keeper in keepers {
        for heard in keeper.keeper.heard() {
            if let Heard::Told { ask, sent } = heard {
                let is_refused = matches!(sent, Sent::Failed { .. });
                if letters.next() != Some(letter_of(ask.signal)) || is_refused != refuses {
                    return false;
                }
            }
        }
    }
    letters.next().is_none()
}

// How a run ended of which nothing was wrong.
fn ending<C>(left: &Left<C>) -> &'static str {
    if left.error.is_some() || left.run.receipts.len() != 3 {
        return "not whole";
    }
    match left.run.outcome {
        Some(RunOutcome::Success) => "success",
        Some(RunOutcome::Failed { .. }) => "failed",
        Some(RunOutcome::NoTestsRun) => "no tests",
        _ => "cancelled",
    }
}

// Whether the reporter was told of as many turns as the journal has.
fn hears_each_turn<C>(left: &Left<C>) -> bool {
    left.run.report.turns == left.run.journal.len() as u64
}

// Whether the comparison at the end misses what was handed on, if something was: it is done anew without it.
fn is_missed<C>(alloc: Global, left: &Left<C>, wanted: &str) -> bool {
    let none = List::new();
    match check_orders(alloc, &left.run.asks, &none, &left.threads.ear.halts) {
        Ok(()) => wanted.is_empty(),
        Err(OrderFault::Lost { .. }) => !wanted.is_empty(),
        Err(_) => false,
    }
}

// What is done, the signals that the keeper is told, how often the program is stopped, and how the run ends.
struct Row {
    act: Act,
    told: &'static str,
    halts: u64,
    ends: &'static str,
}

// Whether a run is left as its row says.
fn is_left<C>(alloc: Global, left: &Left<C>, row: &Row) -> bool {
    were_told(
        left.threads.workers.keepers.as_slice(),
        row.told,
        row.act.refuses,
    ) && is_missed(alloc, left, row.told)
        && left.threads.ear.around.halter.halts() == row.halts
        && hears_each_turn(left)
        && ending(left) == row.ends
}

// What is said of a run by what it left, or by where it was given up.
fn said_of<L: Drop, G: Drop, F: FnOnce(&L) -> bool, C: FnOnce(&G) -> bool>(
    ended: Result<L, G>,
    is_left: F,
    is_cut: C,
) -> bool
    requires left { F.IsAlwaysCallable is_left }
    requires cut { C.IsAlwaysCallable is_cut }
{
    match ended {
        Ok(left) => is_left(&left),
        Err(given_up) => is_cut(&given_up),
    }
}

// What comes from outside.
fn outside(rt: &impl Abort, alloc: Global, act: &Act, count: Count) -> WaitingOutside {
    WaitingOutside {
        signals: signals(rt, alloc, act.outside),
        at: 0,
        asked: 0,
        count,
    }
}

// Who starts the children.
fn host<X: Abort + Clock + Copy + Send + Drop>(
    rt: X,
    alloc: Global,
    act: &Act,
    count: &Count,
) -> CountingHost<X> {
    let keepers = keepers(&rt, alloc, act, count);
    CountingHost { clock: rt, keepers }
}

// Whether a run with its keepers, what comes from outside and who stops the program is as its row says.
fn holds<X: Abort + Threads + Wait + Sync + Clock + Copy + Send + Drop>(
    rt: X,
    alloc: Global,
    row: &Row,
) -> bool {
    let count = nothing(&rt, alloc);
    let host = host(rt, alloc, &row.act, &count);
    let outside = outside(&rt, alloc, &row.act, count);
    holds_on(rt, alloc, host, outside, row)
}

// The same, on a host and with what comes from outside.
fn holds_on<X: Abort + Threads + Wait + Sync + Clock + Copy + Send + Drop>(
    rt: X,
    alloc: Global,
    host: CountingHost<X>,
    outside: WaitingOutside,
    row: &Row,
) -> bool {
    let mut host = host;
    let halter = MemoryHalter::new();
    let around = Around { outside, halter };
    let runner = runner(&rt, alloc, &row.act);
    let ended = whole(&rt, alloc, runner, 1, &mut host, around, Hearing::new());
    said_of(
        ended,
        |left| is_left(alloc, left, row),
        |given_up| row.ends == "cut off" && given_up.cut_off.is_some(),
    )
}

// A child that ends by itself.
pub const QUIET: Act = Act {
    period: None,
    signals: 0,
    exit: ChildExit::Code(0),
    leaks: false,
    refuses: false,
    outside: "",
};

// A child that hangs, and ends after the second signal.
const HANGS: Act = Act {
    period: Some(2),
    signals: 2,
    exit: ChildExit::Signal(9),
    leaks: false,
    refuses: false,
    outside: "",
};

// A child ends by itself; its streams stay open.
const ENDS: [Row; 2] = [
    Row {
        act: QUIET,
        told: "",
        halts: 0,
        ends: "success",
    },
    Row {
        act: Act {
            leaks: true,
            ..QUIET
        },
        told: "",
        halts: 0,
        ends: "success",
    },
];

// It hangs, and is told TERM and KILL; it ends by TERM; no signal can be sent to it.
const OUT_OF_TIME: [Row; 3] = [
    Row {
        act: HANGS,
        told: "TK",
        halts: 0,
        ends: "failed",
    },
    Row {
        act: Act {
            signals: 1,
            exit: ChildExit::Signal(15),
            ..HANGS
        },
        told: "T",
        halts: 0,
        ends: "failed",
    },
    Row {
        act: Act {
            refuses: true,
            ..HANGS
        },
        told: "TK",
        halts: 0,
        ends: "failed",
    },
];

// An interrupt comes, and another; and a third.
const INTERRUPTED: [Row; 2] = [
    Row {
        act: Act {
            period: None,
            outside: "II",
            ..HANGS
        },
        told: "IK",
        halts: 0,
        ends: "cancelled",
    },
    Row {
        act: Act {
            period: None,
            signals: 9,
            outside: "III",
            ..HANGS
        },
        told: "",
        halts: 0,
        ends: "cut off",
    },
];

// A stop comes, and a continue, and a tick before each.
const STOPPED: [Row; 1] = [Row {
    act: Act {
        signals: 2,
        outside: "TSTC",
        ..QUIET
    },
    told: "SC",
    halts: 1,
    ends: "success",
}];

// Whether each row holds.
fn all_hold<X: Abort + Threads + Wait + Sync + Clock + Copy + Send + Drop>(
    rt: X,
    alloc: Global,
    rows: &[Row],
) -> bool {
    for row in rows {
        if !holds(rt, alloc, row) {
            return false;
        }
    }
    true
}

#[test]
fn a_child_ends(rt: HostRuntime) {
    assert!(rt; all_hold(rt, rt.alloc(), &ENDS));
}

#[test]
fn a_child_is_out_of_time(rt: HostRuntime) {
    assert!(rt; all_hold(rt, rt.alloc(), &OUT_OF_TIME));
}

#[test]
fn interrupts_are_delivered(rt: HostRuntime) {
    assert!(rt; all_hold(rt, rt.alloc(), &INTERRUPTED));
}

#[test]
fn a_stop_is_delivered(rt: HostRuntime) {
    assert!(rt; all_hold(rt, rt.alloc(), &STOPPED));
}
