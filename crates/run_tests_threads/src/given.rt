// Starts made by hand, and what a child gives.
use crate::plans::{MEMORY, push, text};
use run_capture::{Blob, List, Stream, Text};
use run_drive::{Begun, Said, Spawner};
use run_events::{ChildExit, StartAsk, Variables};
use std::alloc::Global;
use std::process::Abort;

/// What a child gave until its exit: its output, how many of its streams ended, and how it ended, once it has.
#[derive(Drop)]
pub struct Given {
    pub output: Blob,
    pub ends: u32,
    pub exit: Option<ChildExit>,
}

impl Given {
    /// Whether a child wrote this, and exited with a code or for a signal.
    pub fn is(&self, output: &[u8], exit: ChildExit) -> bool {
        let is_exit = match (self.exit, exit) {
            (Some(ChildExit::Code(code)), ChildExit::Code(wanted)) => code == wanted,
            (Some(ChildExit::Signal(signal)), ChildExit::Signal(wanted)) => signal == wanted,
            _ => false,
        };
        is_exit && self.output.as_slice() == output
    }
}

// The words of a text, with `|` between them.
fn words(rt: &impl Abort, alloc: Global, text_of_words: &str) -> List<Text> {
    let mut words = List::new();
    for word in text_of_words.split('|') {
        push(rt, alloc, &mut words, text(rt, alloc, word));
    }
    words
}

/// A start of a command, whose words have `|` between them, and whose standard output alone is captured.
pub fn ask(rt: &impl Abort, alloc: Global, command: &str) -> StartAsk {
    let command = words(rt, alloc, command);
    let mut streams = List::new();
    push(rt, alloc, &mut streams, Stream::Stdout);
    StartAsk {
        unit: 0,
        attempt: 1,
        command,
        env: Variables::listed(List::new()),
        group: true,
        stdin: false,
        streams,
        env_path: None,
    }
}

// Takes what was said. A fault ends the test.
fn hear(rt: &impl Abort, alloc: Global, given: &mut Given, said: &Said) {
    match said {
        Said::Piece { bytes, .. } => given
            .output
            .extend_from_slice(alloc, bytes.as_slice())
            .expect(rt, MEMORY),
        Said::End { .. } => given.ends = given.ends.saturating_add(1),
        Said::Exit { exit } => given.exit = Some(*exit),
        _ => rt.abort(),
    }
}

/// Starts a child, and hears it to its exit.
pub fn run(rt: &impl Abort, alloc: Global, spawner: &mut impl Spawner, ask: &StartAsk) -> Given {
    let begun = spawner.start(alloc, ask).expect(rt, MEMORY);
    assert!(rt; matches!(begun, Begun::Started { .. }));
    let mut given = Given {
        output: Blob::new(alloc),
        ends: 0,
        exit: None,
    };
    for _ in 0..u64::MAX {
        let said = spawner.next(alloc).expect(rt, MEMORY);
        hear(rt, alloc, &mut given, &said);
        if given.exit.is_some() {
            break;
        }
    }
    given
}

/// Whether the start of a child is refused, with a text that begins so.
pub fn is_refused(
    rt: &impl Abort,
    alloc: Global,
    spawner: &mut impl Spawner,
    ask: &StartAsk,
    text: &str,
) -> bool {
    match &spawner.start(alloc, ask).expect(rt, MEMORY) {
        Begun::Refused { error } => !error.get().is_empty()
            && error.get().as_str().starts_with(text),
        Begun::Started { .. } => false,
    }
}
