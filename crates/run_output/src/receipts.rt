// The lines of receipts that a journal doesn't bear out.
ghost use Rattle.std.specs.Prelude.{◌≡◌, IfOk};
ghost use Rattle.run_output.specs.Printer.{Prints, data_tokens};
ghost use Rattle.run_output.specs.Turns.{found_data, other_settings_text, mismatch_text, repeated_text};

use crate::leaf::Leaf;
use crate::object::Object;
use crate::printer::{Printed, Printer};
use crate::turns::print_turn;
use run_capture::{Mem, Text};
use run_events::Turn;
use std::alloc::Global;

// The exit status that goes with these lines.
const STATUS: u32 = 13;

/// The line of a run that has other settings than it was given, without its line feed.
pub fn other_settings_line(alloc: Global) -> Mem<Text>
    ensures { IfOk result (λ t. t ≡ other_settings_text) }
{
    let fields = [
        ("fault", Leaf::Word("receipt")),
        ("status", Leaf::Count(STATUS)),
    ];
    Object::line(alloc, &fields)
}

/// The line of a number that two receipts have, without its line feed.
pub fn repeated_line(alloc: Global, number: u64) -> Mem<Text>
    ensures { IfOk result (λ t. t ≡ repeated_text number) }
{
    let fields = [
        ("fault", Leaf::Word("receipt")),
        ("number", Leaf::Number(number)),
        ("status", Leaf::Count(STATUS)),
    ];
    Object::line(alloc, &fields)
}

// What stands at a key of the line of a receipt.
#[derive(Clone, Copy)]
enum Part<'a> {
    Word(&'static str),
    Number(u64),
    Turn(&'a Turn),
    Found(&'a Option<Turn>),
}

fn print_found(alloc: Global, out: &mut Printer, found: &Option<Turn>) -> Mem<()>
    ensures { Prints result out.old out.new (data_tokens (found_data found.now)) }
{
    match found {
        Some(turn) => print_turn(alloc, out, turn),
        None => out.null(),
    }
}

impl Printed for Part<'_> {
    ghost use Rattle.run_output.specs.ReceiptPart.{receipt_part_data};

    ghost printed = { receipt_part_data };

    fn is_absent(&self) -> bool {
        false
    }

    fn print(&self, alloc: Global, out: &mut Printer) -> Mem<()> {
        match *self {
            Part::Word(word) => out.text(word),
            Part::Number(number) => out.number(number),
            Part::Turn(turn) => print_turn(alloc, out, turn),
            Part::Found(found) => print_found(alloc, out, found),
        }
    }
}

fn mismatch<'a>(alloc: Global, number: u64, receipt: &'a Turn, found: &'a Option<Turn>) -> Mem<Text>
    ensures { IfOk result (λ t. t ≡ mismatch_text number receipt.now found.now) }
{
    let fields = [
        ("fault", Part::Word("receipt")),
        ("journal", Part::Found(found)),
        ("number", Part::Number(number)),
        ("receipt", Part::Turn(receipt)),
        ("status", Part::Number(STATUS as u64)),
    ];
    Object::line(alloc, &fields)
}

/// The line of a receipt with this number and turn where a journal has another turn, or none, without its line feed.
pub fn mismatch_line(alloc: Global, number: u64, receipt: &Turn, found: &Option<Turn>) -> Mem<Text>
    ensures { IfOk result (λ t. t ≡ mismatch_text number receipt.now found.now) }
{
    mismatch(alloc, number, receipt, found)
}
