// A recorded run of one test: what the sink of its record has taken is the whole store of its journal.
ghost use Rattle.std.specs.Prelude.{[]};

use crate::whole::gate::{Count, CountingHost, WaitingOutside};
use crate::whole::given::{MEMORY, keepers, nothing};
use crate::whole::rows::QUIET;
use run_capture::{List, MemorySink};
use run_events::{ReporterEvent, Turn};
use run_keep::{Halter, KeeperHost, MemoryHalter, Outside};
use run_record::{RecordOutcome, Recorded, run_recorded};
use run_report::Listener;
use run_store_io::read_stored;
use run_whole::Around;
use run_whole_cli::{Ran, WholeLeft};
use std::alloc::Global;
use std::process::Abort;
use std::sync::Wait;
use std::thread::Threads;

const PLAN: &str = "{\"run_id\":\"00000000-0000-4000-8000-000000000001\",\
    \"tests\":[{\"binary\":\"b\",\"command\":[\"true\"],\"name\":\"t\"}]}";

/// No run here writes so many bytes.
const ROOM: usize = 65_536;

/// Who heeds no event.
#[derive(Drop)]
struct Heedless;

impl Listener for Heedless {
    ghost use Rattle.std.specs.Prelude.{⊤};

    ghost heard = { λ _ _. ⊤ };

    // It doesn't keep turns.
    ghost taken = { λ _ _. ⊤ };

    fn hear(&mut self, _alloc: Global, _event: &ReporterEvent) {}

    fn hear_turn(&mut self, _alloc: Global, _turn: &Turn) {}
}

fn sink(rt: &impl Abort, alloc: Global) -> MemorySink {
    MemorySink::new(alloc, ROOM, ROOM, List::new()).expect(rt, MEMORY)
}

// How many turns a whole store has.
fn stored(alloc: Global, bytes: &[u8]) -> Option<usize> {
    match read_stored(alloc, bytes) {
        Ok(stored) if stored.whole => Some(stored.turns.len()),
        _ => None,
    }
}

// How many turns the journal of what is left of a run has.
fn taken<W, T, O, S>(left: &Option<WholeLeft<W, T, O, S>>) -> Option<usize> {
    match left {
        Some(WholeLeft::Run(run)) => Some(run.journal.len()),
        _ => None,
    }
}

// Whether a record has as many turns as were taken.
fn has_all(alloc: Global, bytes: &[u8], turns: Option<usize>) -> bool {
    turns.is_some() && stored(alloc, bytes) == turns
}

// Whether a run ended well, and is recorded as it was.
fn is_whole<K: Drop, W: Drop, T: Drop, O: Drop, S: Drop, B: Drop>(
    alloc: Global,
    recorded: Recorded<K, MemorySink, WholeLeft<W, T, O, S>, B>,
) -> bool {
    let Recorded {
        ran,
        own,
        outcome,
        store,
        left,
        report,
    } = recorded;
    drop(report);
    let turns = taken(&left);
    drop(left);
    let Ran { status, sink } = ran;
    drop(sink);
    let has_all = has_all(alloc, store.bytes(), turns);
    drop(store);
    matches!(outcome, RecordOutcome::Recorded) && status == 0 && own == 0 && has_all
}

// Whether a run on a host is recorded as it was.
fn is_recorded_on<
    H: KeeperHost + Drop,
    O: Outside + Send + Drop,
    S: Halter + Send + Drop,
    X: Abort + Threads + Wait + Sync,
>(rt: &X, alloc: Global, host: H, around: Around<O, S>) -> bool
    requires quiet { O.has_come around.outside [] }
    requires runs { S.has_halted around.halter 0 }
{
    let mut host = host;
    let (lines, store) = (sink(rt, alloc), sink(rt, alloc));
    let line = PLAN.as_bytes();
    let recorded = run_recorded(rt, alloc, line, lines, store, Heedless, &mut host, around);
    is_whole(alloc, recorded)
}

// An outside of which nothing comes, and a halter.
fn silence(count: Count) -> Around<WaitingOutside, MemoryHalter>
    ensures { ⟦<MemoryHalter as Halter>⟧.has_halted result.halter 0 }
{
    let outside = WaitingOutside {
        signals: List::new(),
        at: 0,
        asked: 0,
        count,
    };
    let halter = MemoryHalter::new();
    Around { outside, halter }
}

#[test]
fn a_run_is_recorded(rt: HostRuntime) {
    let alloc = rt.alloc();
    let count = nothing(&rt, alloc);
    let keepers = keepers(&rt, alloc, &QUIET, &count);
    let host = CountingHost { clock: rt, keepers };
    let is_recorded = is_recorded_on(&rt, alloc, host, silence(count));
    assert!(rt; is_recorded);
}
