// What a unit hears of its child's streams.
ghost use Rattle.std.specs.Prelude.{◌≡◌, OnOk, OnErr, true};
ghost use Rattle.run_model.specs.Unit.{hears, having_heard};
ghost use Rattle.run_unit.specs.Heard.{is_of_stream};

use run_capture::{ChildAccumulator, Mem};
use run_model::UnitTurn;
use std::alloc::Global;

/// Whether a turn is one of a stream.
pub fn is_heard(turn: &UnitTurn) -> bool
    ensures { result ≡ is_of_stream turn.now }
{
    matches!(
        turn,
        UnitTurn::Piece { .. } | UnitTurn::StreamEnd { .. } | UnitTurn::ReadError { .. }
    )
}

/// Whether a capture gets a turn.
pub fn hears(capture: &ChildAccumulator, turn: &UnitTurn) -> bool
    ensures { result ≡ hears capture.now turn.now }
{
    match turn {
        UnitTurn::Piece { stream, bytes } => capture.takes(*stream) && !bytes.is_empty(),
        UnitTurn::StreamEnd { stream } => capture.takes(*stream),
        UnitTurn::ReadError { stream, .. } => capture.takes(*stream),
        _ => false,
    }
}

/// A capture gets a turn.
pub fn hear(alloc: Global, capture: &mut ChildAccumulator, turn: UnitTurn) -> Mem<()>
    requires { hears capture.old turn ≡ true }
    ensures ok { OnOk result (capture.new ≡ having_heard capture.old turn) }
    ensures err { OnErr result (capture.new ≡ capture.old) }
{
    match turn {
        UnitTurn::Piece { stream, bytes } => capture.piece(alloc, stream, bytes.as_slice()),
        UnitTurn::StreamEnd { stream } => {
            capture.end(stream);
            Ok(())
        }
        UnitTurn::ReadError { stream, error } => capture.error(alloc, stream, error),
        _ => unreachable!(),
    }
}
