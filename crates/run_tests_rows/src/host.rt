// Who starts the children of a row that runs live.
use crate::table::Child;
use run_capture::{Blob, Boxed, List, OutOfMemory, Stream, Text};
use run_commands::EnvInput;
use run_drive::{Begun, Host, MemoryHost, MemorySpawner, MemoryTicker, Said, Ticker};
use run_events::ChildExit;
use std::alloc::Global;
use std::thread;
use std::time::{Clock, Duration};

// What is said of a child, in order.
#[derive(Drop)]
struct Story {
    alloc: Global,
    said: List<Said>,
}

impl Story {
    // It writes this to a stream.
    fn writes(&mut self, stream: Stream, text: &str) -> Result<(), OutOfMemory> {
        let bytes = Blob::from_slice(self.alloc, text.as_bytes())?;
        self.said.push(self.alloc, Said::Piece { stream, bytes })
    }

    fn ends(&mut self, stream: Stream) -> Result<(), OutOfMemory> {
        self.said.push(self.alloc, Said::End { stream })
    }

    // It ends both streams, and exits with this code.
    fn exits(&mut self, code: i32) -> Result<(), OutOfMemory> {
        self.ends(Stream::Stdout)?;
        self.ends(Stream::Stderr)?;
        self.exits_at_once(code)
    }

    fn exits_at_once(&mut self, code: i32) -> Result<(), OutOfMemory> {
        let exit = ChildExit::Code(code);
        self.said.push(self.alloc, Said::Exit { exit })
    }

    // It ends a stream before it writes to it.
    fn mixes(&mut self) -> Result<(), OutOfMemory> {
        self.ends(Stream::Stdout)?;
        self.writes(Stream::Stdout, "a")?;
        self.ends(Stream::Stderr)?;
        self.exits_at_once(0)
    }

    // It writes to both streams, and ends them after that.
    fn prints(&mut self) -> Result<(), OutOfMemory> {
        self.writes(Stream::Stdout, "hello")?;
        self.writes(Stream::Stderr, "!")?;
        self.writes(Stream::Stdout, "\n")?;
        self.exits(0)
    }

    // A setup script hands on a variable.
    fn hands_on(&mut self) -> Result<(), OutOfMemory> {
        self.exits(0)?;
        let bytes = Blob::from_slice(self.alloc, b"A=b\n")?;
        let input = EnvInput::Bytes(bytes);
        self.said.push(self.alloc, Said::Env { input })
    }

    // What the children of a row do, one after the other.
    fn tell(&mut self, child: Child) -> Result<(), OutOfMemory> {
        match child {
            Child::Mixed => self.mixes(),
            Child::Prints => self.prints(),
            Child::Retried => {
                self.writes(Stream::Stderr, "no")?;
                self.exits(1)?;
                self.prints()
            }
            Child::Script => {
                self.hands_on()?;
                self.prints()
            }
            Child::None | Child::Refused | Child::Silent => Ok(()),
        }
    }
}

// How many children start.
fn started(child: Child) -> u32 {
    match child {
        Child::None | Child::Refused => 0,
        Child::Mixed | Child::Silent | Child::Prints => 1,
        Child::Retried | Child::Script => 2,
    }
}

// How the starts of a row's children are answered, and what is said of them.
fn spawner_of(alloc: Global, child: Child) -> Result<MemorySpawner, OutOfMemory> {
    let said = List::new();
    let mut story = Story { alloc, said };
    story.tell(child)?;
    let mut begun = List::new();
    if matches!(child, Child::Refused) {
        let error = Boxed::new(alloc, Text::from_str(alloc, "x")?)?;
        begun.push(alloc, Begun::Refused { error })?;
    }
    for number in 0..started(child) {
        let pid = number.saturating_add(100);
        begun.push(alloc, Begun::Started { pid })?;
    }
    Ok(MemorySpawner::new(begun, story.said))
}

/// A ticker by which no time goes by: it answers 0 after each wait.
#[derive(Drop)]
pub struct StillTicker<C> {
    clock: C,
    wait: Duration,
}

impl<C: Clock> Ticker for StillTicker<C> {
    ghost has_told = { λ s told. Unit {0} };

    fn next(&mut self) -> u64 {
        thread::sleep(&self.clock, self.wait);
        0
    }
}

/// A host in memory by which no time goes by, so that each byte of a run of one worker is known.
#[derive(Drop)]
pub struct StillHost<C> {
    memory: MemoryHost,
    clock: C,
    wait: Duration,
}

impl<C: Clock + Copy + Send> Host for StillHost<C> {
    type Worker = MemorySpawner;

    type Tick = StillTicker<C>;

    fn spawner(&mut self) -> MemorySpawner {
        self.memory.spawner()
    }

    fn ticker(&mut self) -> StillTicker<C> {
        StillTicker {
            clock: self.clock,
            wait: self.wait,
        }
    }

    fn word(&mut self) -> u32 {
        self.memory.word()
    }
}

/// The host of a row.
pub fn host_of<C: Drop>(
    alloc: Global,
    clock: C,
    child: Child,
) -> Result<StillHost<C>, OutOfMemory> {
    let mut spawners = List::new();
    spawners.push(alloc, spawner_of(alloc, child)?)?;
    let memory = MemoryHost::new(alloc, spawners, MemoryTicker::new(List::new()), 0);
    // The line of a second start says at which turn it was asked: so the run is over before a turn of the clock comes.
    let wait = Duration::from_millis(if started(child) > 1 { 2000 } else { 1 });
    Ok(StillHost {
        memory,
        clock,
        wait,
    })
}
