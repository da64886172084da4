// What a run leaves whose asked signals are delivered.
use crate::Ran;
use run_capture::List;
use run_events::AskList;
use run_keep::Dropped;
use run_model::Entry;
use run_shared::{CloseError, Halt, Order, OrderFault, Refusal};

/// What stands around the program: the outside, and who stops the program.
#[derive(Drop)]
pub struct Around<O, S> {
    pub outside: O,
    pub halter: S,
}

/// The keepers of the workers, and for each, in their order, the refusals of what it said and the run didn't take, and
/// the signals that were handed on to it.
pub struct Workers<W> {
    pub keepers: Vec<W>,
    pub lost: List<List<Refusal>>,
    pub orders: List<List<Order>>,
}

// A call of its own, which keeps the proofs of all that hold one small.
impl<W: Drop> Drop for Workers<W> {
    fn drop(self) {
        let Workers {
            keepers: _,
            lost: _,
            orders: _,
        } = self;
    }
}

/// The ticker, and the refusal of its last step.
pub struct Rounds<T> {
    pub ticker: T,
    pub refused: Refusal,
}

// A call of its own, which keeps the proofs of all that hold one small.
impl<T: Drop> Drop for Rounds<T> {
    fn drop(self) {
        let Rounds {
            ticker: _,
            refused: _,
        } = self;
    }
}

/// What stands around the program, what came from outside and wasn't taken, and the stops of the program.
pub struct Ear<O, S> {
    pub around: Around<O, S>,
    pub dropped: List<Dropped>,
    pub halts: List<Halt>,
}

// A call of its own, which keeps the proofs of all that hold one small.
impl<O: Drop, S: Drop> Drop for Ear<O, S> {
    fn drop(self) {
        let Ear {
            around: _,
            dropped: _,
            halts: _,
        } = self;
    }
}

/// What the threads of a run leave beside their receipts.
pub struct Ended<W, T, O, S> {
    pub workers: Workers<W>,
    pub rounds: Rounds<T>,
    pub ear: Ear<O, S>,
}

// A call of its own, which keeps the proofs of all that hold one small.
impl<W: Drop, T: Drop, O: Drop, S: Drop> Drop for Ended<W, T, O, S> {
    fn drop(self) {
        let Ended {
            workers: _,
            rounds: _,
            ear: _,
        } = self;
    }
}

/// What is wrong with what the threads of a run left.
#[derive(Drop)]
pub enum WholeError {
    /// Their receipts were refused.
    Receipts { error: CloseError },
    /// The receipts are those of the journal, and something asked wasn't handed on exactly once.
    Orders { fault: OrderFault },
}

/// What a run leaves: what its threads left, the closed run with one list of receipts for each worker in their order,
/// then one of the ticker and one of who hears the outside, and what is wrong, if something is.
#[derive(Drop)]
pub struct Whole<W, T, O, S, R> {
    pub threads: Ended<W, T, O, S>,
    pub run: Ran<R>,
    pub error: Option<WholeError>,
}

/// A run that was given up at a third shutdown signal, and isn't over: its journal, what it asked, and the refusal of
/// that signal.
#[derive(Drop)]
pub struct CutOff {
    pub journal: List<Entry>,
    pub asks: AskList,
    pub refusal: Refusal,
}

/// A run that was given up: its reporter, and what is left besides where a third shutdown signal was the cause.
#[derive(Drop)]
pub struct GivenUp<R> {
    pub report: R,
    pub cut_off: Option<CutOff>,
}
