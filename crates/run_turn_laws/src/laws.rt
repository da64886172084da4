// Theorems on the lines of turns.
ghost use Rattle.run_turn_laws.specs.Order.{TurnLinesAreReadInAnyOrder};
ghost use Rattle.run_turn_laws.specs.TurnLines.{TurnLinesAreRead, TurnLinesDiffer};

/// A reader of turn lines reads the line that a printer makes of a turn as just that turn, if the turn's numbers fit
/// their types, its texts are UTF-8, its bytes are bytes and the character of its key is one.
pub fn turn_lines_are_read()
    ensures { TurnLinesAreRead }
{}

/// A line that has each field of such a turn once, in whatever order, and no space is read as just that turn.
pub fn turn_lines_are_read_in_any_order()
    ensures { TurnLinesAreReadInAnyOrder }
{}

/// Two such turns that have the same line are the same turn.
pub fn turn_lines_differ()
    ensures { TurnLinesDiffer }
{}
