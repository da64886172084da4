// Children that are looked at and sent signals: one row for each.
use crate::keep::given::{BOTH, CountedKeeper, Given, act_all, ask, begin, listen, start};
use run_capture::{Stream, Text};
use run_commands::EnvInput;
use run_drive::Said;
use run_events::{ChildExit, StartAsk};
use run_keep::Keeper;
use run_keep_host::{LineOutside, ProcessKeeper, StopHalter};
use std::alloc::Global;
use std::fs;
use std::fs::Files;
use std::process::{Abort, Processes};
use std::sync::Wait;
use std::time::Clock;

// A row of these tests.
type Row = (
    &'static str,
    &'static str,
    &'static str,
    &'static str,
    ChildExit,
    u32,
);

// A script, what is done (see `act`), what it writes to each stream, how it ends, and how many of its streams end.
// Their standard input is empty. What a child wrote and the ends of its streams are told before its exit. A child that
// hangs ends by TERM, as its own child does, which holds both streams. A group that ignores TERM ends by KILL, which is
// sent at once where there is no grace. A child that is stopped hears TERM once it goes on. The exit is told though
// another process holds both streams: what that writes comes after it, where it writes nothing both stay open, and
// where it writes without an end the exit isn't waited for.
const ROWS: [Row; 9] = [
    (
        "cat; echo out; echo err >&2",
        "eg",
        "out\n",
        "err\n",
        ChildExit::Code(0),
        2,
    ),
    (
        "echo out; echo err >&2; exit 5",
        "x",
        "out\n",
        "err\n",
        ChildExit::Code(5),
        2,
    ),
    (
        "echo up; sleep 100 & wait",
        "pTeg",
        "up\n",
        "",
        ChildExit::Signal(15),
        2,
    ),
    (
        "trap '' TERM; (echo up; sleep 100) & wait",
        "pTqKe",
        "up\n",
        "",
        ChildExit::Signal(9),
        2,
    ),
    (
        "echo up; sleep 100 & wait",
        "pKe",
        "up\n",
        "",
        ChildExit::Signal(9),
        2,
    ),
    (
        "sleep 100 & trap 'echo done; exit 3' TERM; echo up; wait",
        "pSTqCe",
        "up\ndone\n",
        "",
        ChildExit::Code(3),
        2,
    ),
    (
        "(sleep .3; echo late) & echo now",
        "xpe",
        "now\nlate\n",
        "",
        ChildExit::Code(0),
        2,
    ),
    (
        "sleep 2 & echo now",
        "xgq",
        "now\n",
        "",
        ChildExit::Code(0),
        0,
    ),
    (
        "sleep 2 >/dev/null 2>&1 & exit 4",
        "xe",
        "",
        "",
        ChildExit::Code(4),
        2,
    ),
];

// Does all acts to a child of a keeper. Answers whether each went well and none failed, with what the child gave.
fn played_by<K: CountedKeeper + Drop>(
    rt: &impl Abort,
    alloc: Global,
    keeper: K,
    script: &str,
    acts: &str,
    captured: &[Stream],
) -> (bool, Given) {
    let mut keeper = keeper;
    start(rt, alloc, &mut keeper, script, captured);
    let mut given = Given::new(alloc);
    let is_well = act_all(rt, alloc, &mut keeper, &mut given, acts);
    let failures = keeper.failures();
    (is_well && failures == 0, given)
}

// The same of a keeper of processes.
fn played<R: Abort + Processes + Files + Wait + Clock + Eprint + Copy + Drop>(
    rt: R,
    alloc: Global,
    script: &str,
    acts: &str,
    captured: &[Stream],
) -> (bool, Given) {
    let keeper = ProcessKeeper::new(rt, rt);
    played_by(&rt, alloc, keeper, script, acts, captured)
}

// Whether a child gave what a row says.
fn is_given(given: &Given, row: &Row) -> bool {
    given.wrote(row.2, row.3) && given.ended(row.4) && given.ends == row.5
}

// Whether a row is so.
fn is_so<R: Abort + Processes + Files + Wait + Clock + Eprint + Copy + Drop>(
    rt: R,
    alloc: Global,
    row: &Row,
) -> bool {
    let (is_well, given) = played(rt, alloc, row.0, row.1, &BOTH);
    let is_given = is_given(&given, row);
    is_well && is_given
}

#[test]
fn children_are_kept(rt: HostRuntime) {
    for row in &ROWS {
        let is_so = is_so(rt, rt.alloc(), row);
        assert!(rt; is_so, "{}, {}", row.0, row.1);
    }
}

// Both streams as one.
#[test]
fn both_streams_are_read_as_one(rt: HostRuntime) {
    let script = "echo a; echo b >&2; echo c";
    let (is_well, given) = played(rt, rt.alloc(), script, "x", &[Stream::Combined]);
    assert!(rt; is_well && given.wrote("a\nb\nc\n", ""));
}

#[test]
fn long_output_is_read_whole(rt: HostRuntime) {
    let script = "head -c 1000000 /dev/zero; head -c 1000000 /dev/zero >&2";
    let (is_well, given) = played(rt, rt.alloc(), script, "e", &BOTH);
    assert!(rt; is_well && given.output.len() == 1_000_000 && given.errors.len() == 1_000_000);
}

// Another process writes on after the child's end.
#[test]
fn an_exit_is_told_among_output(rt: HostRuntime) {
    let (is_well, given) = played(rt, rt.alloc(), "yes & exit 6", "xg", &BOTH);
    assert!(rt; is_well && given.ended(ChildExit::Code(6)));
}

// Whether a piece that isn't accepted is kept, and the exit is offered beside it.
fn keeps_a_piece(rt: &impl Abort, alloc: Global, keeper: &mut impl Keeper) -> bool {
    let mut is_piece = false;
    for _ in 0..1000 {
        match keeper.offer(alloc, !is_piece) {
            Ok(Some(Said::Piece { .. })) => is_piece = true,
            Ok(Some(Said::Exit { .. })) => return is_piece && keeper.accept(alloc).is_ok(),
            Ok(_) => {}
            Err(_) => rt.abort(),
        }
    }
    false
}

// Whether the child's piece is heard after that.
fn says_a_kept_piece<K: Keeper + Drop>(rt: &impl Abort, alloc: Global, keeper: K) -> bool {
    let mut keeper = keeper;
    start(rt, alloc, &mut keeper, "echo out; sleep .3", &BOTH);
    let is_kept = keeps_a_piece(rt, alloc, &mut keeper);
    let mut given = Given::new(alloc);
    let is_heard = listen(rt, alloc, &mut keeper, &mut given, 'p');
    is_kept && is_heard && given.wrote("out\n", "")
}

#[test]
fn a_piece_is_kept(rt: HostRuntime) {
    let is_kept = says_a_kept_piece(&rt, rt.alloc(), ProcessKeeper::new(rt, rt));
    assert!(rt; is_kept);
}

// Whether these words start a child.
fn starts(rt: &impl Abort, alloc: Global, keeper: &mut impl Keeper, words: &[&str]) -> bool {
    let ask = ask(rt, alloc, words, &BOTH);
    begin(rt, alloc, keeper, &ask).is_some()
}

// Whether a path to no program, and no word, start nothing, and each is a failure.
fn starts_none<K: CountedKeeper + Drop>(rt: &impl Abort, alloc: Global, keeper: K) -> bool {
    let mut keeper = keeper;
    let is_path = starts(rt, alloc, &mut keeper, &["./no-such-program"]);
    let is_nothing = starts(rt, alloc, &mut keeper, &[]);
    let failures = keeper.failures();
    !is_path && !is_nothing && failures == 2
}

#[test]
fn what_is_no_program_is_refused(rt: HostRuntime) {
    let is_refused = starts_none(&rt, rt.alloc(), ProcessKeeper::new(rt, rt));
    assert!(rt; is_refused);
}

// A script's start, whose environment file this is.
fn script_ask(rt: &impl Abort, alloc: Global, script: &str, path: &str) -> StartAsk {
    let mut ask = ask(rt, alloc, &["sh", "-c", script], &BOTH);
    ask.env_path = Text::from_str(alloc, path).ok();
    ask
}

// Whether a script is heard to its end.
fn ends(
    rt: &impl Abort,
    alloc: Global,
    keeper: &mut impl Keeper,
    script: &str,
    path: &str,
) -> bool {
    let ask = script_ask(rt, alloc, script, path);
    let is_started = begin(rt, alloc, keeper, &ask).is_some();
    drop(ask);
    let mut given = Given::new(alloc);
    is_started && listen(rt, alloc, keeper, &mut given, 'x')
}

// Whether a script hands on these variables.
fn hands_on<K: Keeper + Drop>(
    rt: &impl Abort,
    alloc: Global,
    keeper: K,
    script: &str,
    path: &str,
    wanted: &[u8],
) -> bool {
    let mut keeper = keeper;
    let is_heard = ends(rt, alloc, &mut keeper, script, path);
    match keeper.read_env(alloc) {
        Ok(EnvInput::Bytes(bytes)) => is_heard && bytes.as_slice() == wanted,
        _ => false,
    }
}

// The file is emptied before the script starts.
#[test]
fn a_script_hands_on_its_variables(rt: HostRuntime) {
    let is_written = fs::write(&rt, "keep.tmp", "B=2\n").is_ok();
    let script = "printf 'A=1\\n' >> keep.tmp";
    let keeper = ProcessKeeper::new(rt, rt);
    let is_handed = hands_on(&rt, rt.alloc(), keeper, script, "keep.tmp", b"A=1\n");
    let is_removed = fs::remove_file(&rt, "keep.tmp").is_ok();
    assert!(rt; is_written && is_handed && is_removed);
}

// What a thread may be given.
fn send_away<T: Send + Drop>(_value: T) {}

#[test]
fn threads_may_have_them(rt: HostRuntime) {
    send_away(ProcessKeeper::new(rt, rt));
    send_away(LineOutside::new(rt, rt.alloc(), rt.stdin()));
    send_away(StopHalter::new(rt, 1));
}
