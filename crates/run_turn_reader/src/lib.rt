//! Turn lines, read. A line in the form in which turns are printed, or with the turn's name first, is compared with
//! that form, from its front to its end, and no JSON value is made of it; any other line goes the general way. Both say
//! the same, since a line of a turn's fields, in any order, is read as that turn.
#![tactic(auto)]

mod by_name;
mod front;
mod hexes;
mod number;
mod printed;
mod reader;
mod shapes;

pub use printed::printed_turn;
pub use reader::TurnLines;
