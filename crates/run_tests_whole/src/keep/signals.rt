// Who is left of a child's group, and other ways of a signal.
use crate::keep::given::{BOTH, CountedKeeper, Given, MEMORY, listen, start, writes};
use run_keep::{Halter, Keeper};
use run_keep_host::{ProcessKeeper, StopHalter};
use std::alloc::Global;
use std::process::{Abort, Child, Command, Processes, Stdio};

// A command, with an empty standard input.
struct Call {
    command: Command,
}

// A call of its own, which keeps the proofs of all that hold one small.
impl Drop for Call {
    fn drop(self) {
        let Call { command: _ } = self;
    }
}

// The command of a program alone.
fn program_call(rt: &impl Abort, alloc: Global, program: &str) -> Call {
    let mut command = Command::new(alloc, program).expect(rt, MEMORY);
    command.stdin(Stdio::null());
    Call { command }
}

// Gives a command more words.
fn add_words(rt: &impl Abort, command: &mut Command, words: &[&str]) {
    for word in words {
        command.arg(*word).expect(rt, MEMORY);
    }
}

// The command of a program with these words.
fn call_of(rt: &impl Abort, alloc: Global, program: &str, words: &[&str]) -> Call {
    let mut call = program_call(rt, alloc, program);
    add_words(rt, &mut call.command, words);
    call
}

// Whether a script of `sh` ends with status 0, of the process that its first argument names.
fn holds(rt: &(impl Abort + Processes), alloc: Global, script: &str, pid: &str) -> bool {
    let mut call = call_of(rt, alloc, "sh", &["-c", script, "sh", pid]);
    match call.command.status(rt) {
        Ok(status) => status.success(),
        Err(_) => false,
    }
}

// The same of the process with this id.
fn holds_of(rt: &(impl Abort + Processes), alloc: Global, script: &str, pid: u32) -> bool {
    let pid = format!(in alloc; "{pid}").expect(rt, MEMORY);
    holds(rt, alloc, script, pid.as_str())
}

// The process is gone, or is soon.
const IS_GONE: &str = "for look in 1 2 3 4 5 6 7 8 9 10 11 12 13 14 15 16 17 18 19 20; do
  read -r pid name state rest 2>/dev/null </proc/$1/stat || exit 0
  [ \"$state\" = Z ] && exit 0
  sleep 0.05
done
exit 1";

// The process is stopped, soon at least.
const IS_STOPPED: &str = "for look in 1 2 3 4 5 6 7 8 9 10 11 12 13 14 15 16 17 18 19 20; do
  read -r pid name state rest </proc/$1/stat && [ \"$state\" = T ] && exit 0
  sleep 0.05
done
exit 1";

// Kills each shell that this process started, but for the one that its argument names.
const KILL_SHELLS: &str = "for stat in /proc/[0-9]*/stat; do
  read -r pid name state parent rest 2>/dev/null <$stat || continue
  [ \"$parent $name\" = \"$PPID (sh)\" ] || continue
  [ $pid = $1 ] || [ $pid = $$ ] || kill -s KILL $pid
done";

fn text_of(rt: &impl Abort, alloc: Global, bytes: &[u8]) -> String {
    match std::str::from_utf8(bytes) {
        Ok(text) => String::from_str(alloc, text).expect(rt, MEMORY),
        Err(_) => rt.abort(),
    }
}

// Starts a child that tells its own child's process id, and hears that.
fn grandchild(rt: &impl Abort, alloc: Global, keeper: &mut impl Keeper) -> String {
    start(rt, alloc, keeper, "sleep 100 & printf $!; wait", &BOTH);
    let mut given = Given::new(alloc);
    listen(rt, alloc, keeper, &mut given, 'p');
    text_of(rt, alloc, given.output.as_slice())
}

// The keeper's own shell is gone: the signal is sent by another.
fn is_sent_anew<K: CountedKeeper + Drop>(
    rt: &(impl Abort + Processes),
    alloc: Global,
    keeper: K,
) -> bool {
    let mut keeper = keeper;
    let pid = start(rt, alloc, &mut keeper, "sleep 100 & wait", &BOTH);
    let is_killed = holds_of(rt, alloc, KILL_SHELLS, pid);
    let is_well = is_killed && writes(rt, alloc, &mut keeper, "Te", "");
    is_well && keeper.failures() == 0
}

#[test]
fn a_signal_is_sent_by_another_shell(rt: HostRuntime) {
    let is_sent = is_sent_anew(&rt, rt.alloc(), ProcessKeeper::new(rt, rt));
    assert!(rt; is_sent);
}

// A grandchild is stopped when the child itself has ended, and goes on once that is seen.
fn goes_on<K: Keeper + Drop>(rt: &(impl Abort + Processes), alloc: Global, keeper: K) -> bool {
    let mut keeper = keeper;
    start(rt, alloc, &mut keeper, "(sleep 0.3; printf late) &", &BOTH);
    let has_slept = holds(rt, alloc, "sleep 0.1", "");
    has_slept && writes(rt, alloc, &mut keeper, "Se", "late")
}

#[test]
fn a_stopped_grandchild_goes_on(rt: HostRuntime) {
    let goes_on = goes_on(&rt, rt.alloc(), ProcessKeeper::new(rt, rt));
    assert!(rt; goes_on);
}

// The end of a keeper, or its drop as where the program dies, kills the group.
fn leaves_none<K: Keeper + Drop>(
    rt: &(impl Abort + Processes),
    alloc: Global,
    keeper: K,
    ends: bool,
) -> bool {
    let mut keeper = keeper;
    let pid = grandchild(rt, alloc, &mut keeper);
    let is_there = !holds(rt, alloc, "[ ! -d /proc/$1 ]", pid.as_str());
    if ends {
        keeper.end();
    }
    drop(keeper);
    is_there && holds(rt, alloc, IS_GONE, pid.as_str())
}

#[test]
fn a_keeper_leaves_no_group(rt: HostRuntime) {
    let is_ended = leaves_none(&rt, rt.alloc(), ProcessKeeper::new(rt, rt), true);
    let is_dropped = leaves_none(&rt, rt.alloc(), ProcessKeeper::new(rt, rt), false);
    assert!(rt; is_ended && is_dropped);
}

// Starts a process that sleeps.
fn sleeper<R: Abort + Processes>(rt: &R, alloc: Global) -> Child<R::Started> {
    let mut call = call_of(rt, alloc, "sleep", &["100"]);
    match call.command.spawn(rt) {
        Ok(child) => child,
        Err(_) => rt.abort(),
    }
}

// Whether a halter of this process halts without a failure.
fn is_halted(outside: impl Processes + Drop, alloc: Global, pid: u32) -> bool {
    let mut halter = StopHalter::new(outside, pid);
    halter.halt(alloc).is_ok() && halter.faults() == 0
}

// A process that isn't this one, which would stop here.
fn halts<R: Abort + Processes + Copy + Drop>(rt: R, alloc: Global) -> bool {
    let mut child = sleeper(&rt, alloc);
    let pid = child.id();
    let is_halted = is_halted(rt, alloc, pid);
    let is_stopped = holds_of(&rt, alloc, IS_STOPPED, pid);
    let is_killed = child.kill().is_ok();
    drop(child);
    is_killed && is_halted && is_stopped
}

#[test]
fn a_halter_stops_a_process(rt: HostRuntime) {
    let is_halted = halts(rt, rt.alloc());
    assert!(rt; is_halted);
}
