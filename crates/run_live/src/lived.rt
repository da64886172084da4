// What a run of real children leaves.
use run_capture::List;
use run_events::{AskList, RunOutcome};
use run_model::Entry;
use run_shared::{CloseError, Receipt, Refusal};

/// What a run of real children leaves: its closed journal, one list of receipts for each worker in their order and a
/// last one of the ticker, as many lists of what was refused, the workers, and why the receipts were refused, if they
/// were.
#[derive(Drop)]
pub struct Live<W> {
    pub journal: List<Entry>,
    pub receipts: List<List<Receipt>>,
    pub refused: List<List<Refusal>>,
    pub workers: Vec<W>,
    pub error: Option<CloseError>,
}

/// What else it leaves: the ticker, what was asked, the outcome if the run is over, and the reporter. Where the
/// receipts were refused there is no outcome.
#[derive(Drop)]
pub struct Lived<W, T, R> {
    pub live: Live<W>,
    pub ticker: T,
    pub asks: AskList,
    pub outcome: Option<RunOutcome>,
    pub report: R,
}
