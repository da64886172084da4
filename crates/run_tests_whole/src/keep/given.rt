// A child under a keeper, what is done to it, and what it gives.
use run_capture::{Blob, List, Stream, Text};
use run_drive::{Begun, Said};
use run_events::{ChildExit, ChildSignal, SignalAsk, StartAsk, TermSignal, Variables};
use run_keep::{Keeper, Sent};
use run_keep_host::ProcessKeeper;
use std::alloc::Global;
use std::fs::Files;
use std::process::{Abort, Processes};
use std::sync::Wait;
use std::time::Clock;

/// What is said where memory is wanting.
pub const MEMORY: &str = "memory";

/// Both streams, each by itself.
pub const BOTH: [Stream; 2] = [Stream::Stdout, Stream::Stderr];

/// A keeper that counts its failures. Tests take one by value as a type parameter: so it is one piece in their proofs.
pub trait CountedKeeper: Keeper {
    fn failures(&self) -> u64;
}

impl<P: Processes + Files + Eprint + Drop, X: Wait + Clock + Drop> CountedKeeper
    for ProcessKeeper<P, X> {
    fn failures(&self) -> u64 {
        self.faults()
    }
}

// How many looks a child gets at most for one act, each of 10 ms at most.
const LOOKS: u32 = 1000;

/// What a child gave: what it wrote to each of its streams, how many pieces that was, how many streams ended, and how
/// the child ended, once it has.
#[derive(Drop)]
pub struct Given {
    pub output: Blob,
    pub errors: Blob,
    pub pieces: u32,
    pub ends: u32,
    pub exit: Option<ChildExit>,
}

impl Given {
    /// Nothing.
    pub fn new(alloc: Global) -> Given {
        Given {
            output: Blob::new(alloc),
            errors: Blob::new(alloc),
            pieces: 0,
            ends: 0,
            exit: None,
        }
    }

    /// Whether the child ended so, for a signal or with a code.
    pub fn ended(&self, exit: ChildExit) -> bool {
        match (self.exit, exit) {
            (Some(ChildExit::Code(code)), ChildExit::Code(wanted)) => code == wanted,
            (Some(ChildExit::Signal(signal)), ChildExit::Signal(wanted)) => signal == wanted,
            _ => false,
        }
    }

    /// Whether the child wrote this to its streams.
    pub fn wrote(&self, output: &str, errors: &str) -> bool {
        self.output.as_slice() == output.as_bytes() && self.errors.as_slice() == errors.as_bytes()
    }
}

fn text(rt: &impl Abort, alloc: Global, text: &str) -> Text {
    Text::from_str(alloc, text).expect(rt, MEMORY)
}

fn texts(rt: &impl Abort, alloc: Global, words: &[&str]) -> List<Text> {
    let mut texts = List::new();
    for word in words {
        texts.push(alloc, text(rt, alloc, word)).expect(rt, MEMORY);
    }
    texts
}

fn listed(rt: &impl Abort, alloc: Global, captured: &[Stream]) -> List<Stream> {
    let mut streams = List::new();
    for stream in captured {
        streams.push(alloc, *stream).expect(rt, MEMORY);
    }
    streams
}

/// A start of a command in a group of its own, of which these streams are captured.
pub fn ask(rt: &impl Abort, alloc: Global, words: &[&str], captured: &[Stream]) -> StartAsk {
    StartAsk {
        unit: 0,
        attempt: 1,
        command: texts(rt, alloc, words),
        env: Variables::listed(List::new()),
        group: true,
        stdin: false,
        streams: listed(rt, alloc, captured),
        env_path: None,
    }
}

/// Starts a child, and answers its process id, if it was started.
pub fn begin(
    rt: &impl Abort,
    alloc: Global,
    keeper: &mut impl Keeper,
    ask: &StartAsk,
) -> Option<u32> {
    match &keeper.start(alloc, ask).expect(rt, MEMORY) {
        Begun::Started { pid } => Some(*pid),
        Begun::Refused { .. } => None,
    }
}

/// Starts a script of `sh`, of which these streams are captured, and answers its process id.
pub fn start(
    rt: &impl Abort,
    alloc: Global,
    keeper: &mut impl Keeper,
    script: &str,
    captured: &[Stream],
) -> u32 {
    let ask = ask(rt, alloc, &["sh", "-c", script], captured);
    match begin(rt, alloc, keeper, &ask) {
        Some(pid) => pid,
        None => rt.abort(),
    }
}

// Takes a piece.
fn add(rt: &impl Abort, alloc: Global, given: &mut Given, stream: Stream, bytes: &Blob) {
    let to = match stream {
        Stream::Stderr => &mut given.errors,
        _ => &mut given.output,
    };
    to.extend_from_slice(alloc, bytes.as_slice())
        .expect(rt, MEMORY);
    given.pieces = given.pieces.saturating_add(1);
}

// Takes what was said. A fault ends the test.
fn hear(rt: &impl Abort, alloc: Global, given: &mut Given, said: &Said) {
    match said {
        Said::Piece { stream, bytes } => add(rt, alloc, given, *stream, bytes),
        Said::End { .. } => given.ends = given.ends.saturating_add(1),
        Said::Exit { exit } => given.exit = Some(*exit),
        _ => rt.abort(),
    }
}

// Looks once at a child, and hears it. Answers whether it said something.
fn look(rt: &impl Abort, alloc: Global, keeper: &mut impl Keeper, given: &mut Given) -> bool {
    let Some(said) = keeper.offer(alloc, true).expect(rt, MEMORY) else {
        return false;
    };
    hear(rt, alloc, given, &said);
    keeper.accept(alloc).expect(rt, MEMORY);
    true
}

// Whether an act that hears the child is done: a piece, the exit, or the exit and the ends of both streams.
fn is_done(given: &Given, act: char) -> bool {
    match act {
        'p' => given.pieces > 0,
        'x' => given.exit.is_some(),
        _ => given.exit.is_some() && given.ends >= 2,
    }
}

/// Hears a child until an act is done. Answers whether it is.
pub fn listen(
    rt: &impl Abort,
    alloc: Global,
    keeper: &mut impl Keeper,
    given: &mut Given,
    act: char,
) -> bool {
    for _ in 0..LOOKS {
        if is_done(given, act) {
            return true;
        }
        look(rt, alloc, keeper, given);
    }
    false
}

// Whether a child says nothing in many looks.
fn is_quiet(rt: &impl Abort, alloc: Global, keeper: &mut impl Keeper, given: &mut Given) -> bool {
    for _ in 0..20 {
        if look(rt, alloc, keeper, given) {
            return false;
        }
    }
    true
}

// The signal of an act.
fn signal_of(act: char) -> ChildSignal {
    match act {
        'K' => ChildSignal::End(TermSignal::Kill),
        'S' => ChildSignal::Tstp,
        'C' => ChildSignal::Cont,
        _ => ChildSignal::End(TermSignal::Term),
    }
}

/// Sends the signal of an act to the child's group, and answers what came of it.
pub fn send(rt: &impl Abort, alloc: Global, keeper: &mut impl Keeper, act: char) -> Sent {
    let ask = SignalAsk {
        unit: 0,
        signal: signal_of(act),
        group: true,
    };
    keeper.send(alloc, &ask).expect(rt, MEMORY)
}

// Does one act, and answers whether it went well: `p`, `x` and `e` hear the child until it has written, ended, and
// closed both its streams too; `q` hears that it says nothing, `g` that no signal is sent to it any more; a capital
// letter sends it a signal.
fn act(
    rt: &impl Abort,
    alloc: Global,
    keeper: &mut impl Keeper,
    given: &mut Given,
    act: char,
) -> bool {
    match act {
        'p' | 'x' | 'e' => listen(rt, alloc, keeper, given, act),
        'q' => is_quiet(rt, alloc, keeper, given),
        'g' => matches!(send(rt, alloc, keeper, 'T'), Sent::Gone),
        _ => matches!(send(rt, alloc, keeper, act), Sent::Sent),
    }
}

/// Does acts one after the other, and answers whether each went well: none is done after one that didn't.
pub fn act_all(
    rt: &impl Abort,
    alloc: Global,
    keeper: &mut impl Keeper,
    given: &mut Given,
    acts: &str,
) -> bool {
    let mut is_well = true;
    for each in acts.chars() {
        is_well = is_well && act(rt, alloc, keeper, given, each);
    }
    is_well
}

/// Whether acts go well, and the child has written just this to its standard output then.
pub fn writes(
    rt: &impl Abort,
    alloc: Global,
    keeper: &mut impl Keeper,
    acts: &str,
    output: &str,
) -> bool {
    let mut given = Given::new(alloc);
    let is_well = act_all(rt, alloc, keeper, &mut given, acts);
    is_well && given.wrote(output, "")
}
