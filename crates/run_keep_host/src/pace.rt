// How the clock of a run is moved before a keeper tells what its child did.
use std::sync::{Condvar, CondvarTimeouts, Mutex, Wait};
use std::time::{Clock, Duration};

// How often the clock was asked for, up to which of these it was read, and up to which the run was told.
#[derive(Drop)]
struct Marks {
    asked: u64,
    read: u64,
    told: u64,
}

/// What keepers and a ticker share: a keeper asks that the run be told the time, and waits for that a little. So what
/// it tells next comes at its own moment, and not at one of up to 10 ms before.
#[derive(Drop)]
pub(crate) struct Pace {
    marks: Mutex<Marks>,
    moved: Condvar,
}

// How many milliseconds a ticker waits for someone who asks.
const BEAT: u64 = 10;

// How many a keeper waits for the ticker at most: where nobody reads the lines, a run is told nothing.
const PATIENCE: u64 = 20;

impl Pace {
    /// Nobody has asked.
    pub fn new() -> Pace {
        Pace {
            marks: Mutex::new(Marks {
                asked: 0,
                read: 0,
                told: 0,
            }),
            moved: Condvar::new(),
        }
    }

    /// Waits until the run was told the time anew.
    pub fn refresh<R: Wait + Clock>(&self, rt: &R) {
        let mut marks = self.marks.lock(rt);
        marks.asked = marks.asked.saturating_add(1);
        let mine = marks.asked;
        self.moved.notify_all();
        let most = Duration::from_millis(PATIENCE);
        let (guard, _) = self
            .moved
            .wait_timeout_while(rt, marks, most, move |m| m.told < mine);
        drop(guard);
    }

    /// The run was told what was read before. Waits until someone asks, or for 10 ms.
    pub fn rest<R: Wait + Clock>(&self, rt: &R) {
        let mut marks = self.marks.lock(rt);
        marks.told = marks.read;
        self.moved.notify_all();
        let most = Duration::from_millis(BEAT);
        let (mut guard, _) = self
            .moved
            .wait_timeout_while(rt, marks, most, |m| m.asked <= m.read);
        guard.read = guard.asked;
    }
}
