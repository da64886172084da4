// The lines of asks.
ghost use Rattle.std.specs.Prelude.{◌≡◌, IfOk};
ghost use Rattle.run_output.specs.Fields.{object_text, line_bytes};
ghost use Rattle.json.specs.Print.{print};
ghost use Rattle.run_output.specs.Asks.{child_signal_word, start_fields, signal_fields, stop_self_fields, ask_text};

use crate::info::method_name;
use crate::leaf::Leaf;
use crate::object::Object;
use crate::printer::Printer;
use run_capture::{Mem, Text};
use run_events::{Ask, ChildSignal, SignalAsk, StartAsk};
use std::alloc::Global;

#[tactic(auto, unfolding(crate::specs::Asks::child_signal_word))]
fn signal_name(signal: ChildSignal) -> &'static str
    ensures { result.now ≡ child_signal_word signal }
{
    match signal {
        ChildSignal::End(method) => method_name(method),
        ChildSignal::Tstp => "tstp",
        ChildSignal::Cont => "cont",
    }
}

#[tactic(auto, unfolding(crate::specs::Asks::start_fields))]
fn print_start(alloc: Global, turn: u64, start: &StartAsk) -> Mem<Printer>
    ensures { IfOk result (λ p. print p ≡ object_text (start_fields turn start.now)) }
{
    Object::printed_of(
        alloc,
        &[
            ("ask", Leaf::Word("start")),
            ("attempt", Leaf::Count(start.attempt)),
            ("command", Leaf::Texts(&start.command)),
            ("env", Leaf::Variables(&start.env)),
            ("group", Leaf::Truth(start.group)),
            ("stdin", Leaf::Truth(start.stdin)),
            ("turn", Leaf::Number(turn)),
            ("unit", Leaf::Count(start.unit)),
        ],
    )
}

#[tactic(auto, unfolding(crate::specs::Asks::signal_fields))]
fn print_signal(alloc: Global, turn: u64, ask: SignalAsk) -> Mem<Printer>
    ensures { IfOk result (λ p. print p ≡ object_text (signal_fields turn ask)) }
{
    Object::printed_of(
        alloc,
        &[
            ("ask", Leaf::Word("signal")),
            ("group", Leaf::Truth(ask.group)),
            ("signal", Leaf::Word(signal_name(ask.signal))),
            ("turn", Leaf::Number(turn)),
            ("unit", Leaf::Count(ask.unit)),
        ],
    )
}

#[tactic(auto, unfolding(crate::specs::Asks::stop_self_fields))]
fn print_stop_self(alloc: Global, turn: u64) -> Mem<Printer>
    ensures { IfOk result (λ p. print p ≡ object_text (stop_self_fields turn)) }
{
    Object::printed_of(
        alloc,
        &[
            ("ask", Leaf::Word("stop-self")),
            ("turn", Leaf::Number(turn)),
        ],
    )
}

// A line with an ask.
fn print_ask(alloc: Global, turn: u64, ask: &Ask) -> Mem<Printer>
    ensures { IfOk result (λ p. print p ≡ ask_text turn ask.now) }
{
    match ask {
        Ask::Start(start) => print_start(alloc, turn, start.get()),
        Ask::Signal(ask) => print_signal(alloc, turn, *ask),
        Ask::StopSelf => print_stop_self(alloc, turn),
    }
}

/// The line of an ask under the turn that asked it, counted from 0, without its line feed.
pub fn ask_line(alloc: Global, turn: u64, ask: &Ask) -> Mem<Text>
    ensures { IfOk result (λ t. t ≡ ask_text turn ask.now) }
{
    print_ask(alloc, turn, ask)?.into_text(alloc)
}

/// The bytes of that line, with its line feed.
pub(crate) fn ask_bytes(alloc: Global, turn: u64, ask: &Ask) -> Mem<Vec<u8>>
    ensures { IfOk result (λ bytes. bytes.items ≡ line_bytes (ask_text turn ask.now)) }
{
    let mut bytes = print_ask(alloc, turn, ask)?.into_bytes(alloc)?;
    bytes.push(b'\n')?;
    Ok(bytes)
}
