// What one turn did.
use crate::{UnitTurn, UnitView};
use run_capture::List;
use run_events::{Ask, CancelReason, InfoResponse, Message, ReporterEvent, Request, Turn};

/// Whose turn it was, and as what.
#[derive(Drop)]
pub enum UnitPart {
    /// A script or a test was admitted, as this unit.
    Joins(UnitView),
    /// A unit took a turn.
    Acts { unit: u32, turn: UnitTurn },
}

/// What one turn did.
#[derive(Drop)]
pub struct Happening {
    pub turn: Turn,
    /// Of each event told, whether the reporter refused it.
    pub refused: List<bool>,
    /// The run's clock before it, in nanoseconds.
    pub moment: u64,
    pub part: Option<UnitPart>,
    /// The message that it sent.
    pub sent: Option<Message>,
    /// The answers that it gave, each with the round of its query, in order.
    pub info: List<(u32, InfoResponse)>,
    /// Whether it delivered the oldest message.
    pub taken: bool,
    /// The event that it told of its own.
    pub told: Option<ReporterEvent>,
    /// The event that it told after that one: that its cause cancels the run, that a sub-run of a stress run starts, or
    /// that the run finished after its last sub-run.
    pub after: Option<ReporterEvent>,
    /// What it asked of the outside.
    pub asked: Option<Ask>,
    /// Why it cancels the run, where it does.
    pub cause: Option<CancelReason>,
    /// What it asked of each unit that was let go and wasn't over.
    pub request: Option<Request>,
    /// Whether the runner is asked to stop itself with it.
    pub stops: bool,
    /// Whether a sub-run begins with it.
    pub begins: bool,
    /// Whether a sub-run ends with it.
    pub ends: bool,
    /// Whether the run is over with it.
    pub over: bool,
}
