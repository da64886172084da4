// The reader of turn lines.
use crate::printed::printed_turn;
use run_events::Turn;
use run_input::{LineError, ReadTurn, read_turn_line};
use std::alloc::Global;

/// Reads turn lines: those in the forms in which they are often written without a JSON value.
#[derive(Clone, Copy, Drop)]
pub struct TurnLines;

impl ReadTurn for TurnLines {
    fn read_turn(&self, alloc: Global, line: &[u8]) -> Result<Turn, LineError> {
        match printed_turn(alloc, line)? {
            Some(turn) => Ok(turn),
            None => read_turn_line(alloc, line),
        }
    }
}
