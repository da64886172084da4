// How a run whose asked signals are delivered ended, and what is left of it.
ghost use Rattle.std.specs.Prelude.{◌≡◌};
ghost use Rattle.run_whole_cli.specs.Ends.{whole_status};
ghost use Rattle.run_whole_cli.specs.Last.{end_by, left_by, so_ended};

use run_capture::List;
use run_cli::{LiveEnding, status_of_outcome};
use run_events::RunOutcome;
use run_model::Entry;
use run_output::Fault;
use run_shared::Receipt;
use run_whole::{CutOff, Ended, WholeError};

/// How a run ended.
#[derive(Clone, Copy, Drop)]
pub enum WholeEnding {
    /// The run is over, with this outcome.
    Outcome(RunOutcome),
    /// A fault ended the program.
    Fault(Fault),
    /// The receipts of the threads aren't those of the journal.
    Receipt,
    /// Something asked wasn't handed on exactly once, or something else was.
    Order,
}

impl WholeEnding {
    /// The exit status of the program.
    pub fn status(self) -> u8
        ensures { result ≡ whole_status self }
    {
        match self {
            WholeEnding::Outcome(outcome) => status_of_outcome(outcome),
            WholeEnding::Fault(fault) => fault.status(),
            WholeEnding::Receipt | WholeEnding::Order => 13,
        }
    }
}

/// What is left of a run beside its reporter: what its threads left, its journal, one list of receipts for each worker
/// in their order, then one of the ticker and one of who hears the outside, and what is wrong, if something is.
#[derive(Drop)]
pub struct WholeRun<W, T, O, S> {
    pub threads: Ended<W, T, O, S>,
    pub journal: List<Entry>,
    pub receipts: List<List<Receipt>>,
    pub error: Option<WholeError>,
}

/// What is left of a run beside its reporter.
#[derive(Drop)]
pub enum WholeLeft<W, T, O, S> {
    /// All its threads have ended.
    Run(WholeRun<W, T, O, S>),
    /// It was given up at a third shutdown signal.
    CutOff(CutOff),
}

// How a run ended, its sink, and what is left of it.
pub(crate) struct WholeEnded<K, L> {
    pub(crate) ending: WholeEnding,
    pub(crate) sink: K,
    pub(crate) left: Option<L>,
}

// The end of a run whose receipts were refused, or that ended as one without signals does.
pub(crate) fn so_ended(ending: LiveEnding) -> WholeEnding
    ensures { result ≡ so_ended ending }
{
    match ending {
        LiveEnding::Outcome(outcome) => WholeEnding::Outcome(outcome),
        LiveEnding::Fault(fault) => WholeEnding::Fault(fault),
        LiveEnding::Receipt => WholeEnding::Receipt,
    }
}

// The end of a run that has this outcome or this fault.
pub(crate) fn end_by(ending: Result<RunOutcome, Fault>) -> WholeEnding
    ensures { result ≡ end_by ending }
{
    match ending {
        Ok(outcome) => WholeEnding::Outcome(outcome),
        Err(fault) => WholeEnding::Fault(fault),
    }
}

// What is left of a run that ended so: nothing where memory was wanting.
pub(crate) fn left_by<L: Drop>(ending: WholeEnding, left: L) -> Option<L>
    ensures { result ≡ left_by ending left }
{
    match ending {
        WholeEnding::Fault(Fault::Memory) => {
            drop(left);
            None
        }
        _ => Some(left),
    }
}
