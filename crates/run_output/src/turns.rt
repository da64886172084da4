// Turns as objects, and their lines.
ghost use Rattle.std.specs.Prelude.{◌≡◌, ◌∷◌, Some, true, false, IfOk, codes, string_bytes};
ghost use Rattle.run_output.specs.Printer.{Prints, data_tokens};
ghost use Rattle.run_commands.specs.declared.script_helpers.EnvInput.TheVariants.{Bytes};
ghost use Rattle.run_output.specs.Fields.{signed, object_of};
ghost use Rattle.run_events.specs.Parts.{has_bytes};
ghost use Rattle.run_output.specs.Turns.{stream_word, signal_word, key_text, word_at};
ghost use Rattle.run_output.specs.Turns.{bare_fields, unit_fields, timer_fields, failed_fields};
ghost use Rattle.run_output.specs.Turns.{exit_fields, env_fields, is_bare, turn_data, turn_text};
ghost use Rattle.run_events.specs.declared.turn.Turn.TheVariants as turns;

use crate::leaf::Leaf;
use crate::object::Object;
use crate::printer::Printer;
use run_capture::{Blob, Boxed, Mem, Stream, Text};
use run_commands::EnvInput;
use run_events::{ChildExit, Key, KeyCode, Signal, Turn};
use std::alloc::Global;

#[tactic(auto, unfolding(crate::specs::Turns::stream_word))]
fn stream_name(stream: Stream) -> &'static str
    ensures { result.now ≡ stream_word stream }
{
    match stream {
        Stream::Stdout => "stdout",
        Stream::Stderr => "stderr",
        Stream::Combined => "combined",
    }
}

#[tactic(auto, unfolding(crate::specs::Turns::signal_word))]
fn signal_name(signal: Signal) -> &'static str
    ensures { result.now ≡ signal_word signal }
{
    match signal {
        Signal::Int => "int",
        Signal::Hup => "hup",
        Signal::Term => "term",
        Signal::Quit => "quit",
        Signal::Tstp => "tstp",
        Signal::Cont => "cont",
        Signal::Usr1 => "usr1",
    }
}

#[tactic(auto, unfolding(crate::specs::Turns::key_text))]
fn key_name(alloc: Global, code: KeyCode) -> Mem<String>
    ensures { IfOk result (λ s. string_bytes s ≡ key_text code) }
{
    let mut name = String::new(alloc);
    match code {
        KeyCode::Enter => name.push_str("enter")?,
        KeyCode::Char(c) => name.push(c)?,
    }
    Ok(name)
}

fn bare(alloc: Global, out: &mut Printer, name: &'static str) -> Mem<()>
    ensures { Prints result out.old out.new (data_tokens (object_of (bare_fields name.now))) }
{
    Object::print_of(alloc, out, &[("turn", Leaf::Word(name))])
}

fn of_unit(alloc: Global, out: &mut Printer, name: &'static str, unit: u32) -> Mem<()>
    ensures { Prints result out.old out.new (data_tokens (object_of (unit_fields name.now unit))) }
{
    let fields = [("turn", Leaf::Word(name)), ("unit", Leaf::Count(unit))];
    Object::print_of(alloc, out, &fields)
}

fn timer(alloc: Global, out: &mut Printer, name: &'static str) -> Mem<()>
    ensures { Prints result out.old out.new (data_tokens (object_of (timer_fields name.now))) }
{
    let fields = [("timer", Leaf::Word(name)), ("turn", Leaf::Word("due"))];
    Object::print_of(alloc, out, &fields)
}

fn failed(
    alloc: Global,
    out: &mut Printer,
    name: &'static str,
    unit: u32,
    error: &Boxed<Text>,
) -> Mem<()>
    ensures { Prints result out.old out.new
        (data_tokens (object_of (failed_fields name.now unit error.now))) }
{
    let fields = [
        ("text", Leaf::Text(error.get())),
        ("turn", Leaf::Word(name)),
        ("unit", Leaf::Count(unit)),
    ];
    Object::print_of(alloc, out, &fields)
}

// A child that ended with a code, or by a signal: the key says which.
fn ended(alloc: Global, out: &mut Printer, key: &'static str, unit: u32, number: i32) -> Mem<()>
    ensures { Prints result out.old out.new
        (data_tokens (object_of
        ((key.now, Some (signed number)) ∷ unit_fields (codes "exit") unit))) }
{
    let fields = [
        (key, Leaf::Signed(number)),
        ("turn", Leaf::Word("exit")),
        ("unit", Leaf::Count(unit)),
    ];
    Object::print_of(alloc, out, &fields)
}

fn exited(alloc: Global, out: &mut Printer, unit: u32, exit: ChildExit) -> Mem<()>
    ensures { Prints result out.old out.new (data_tokens (object_of (exit_fields unit exit))) }
{
    match exit {
        ChildExit::Code(code) => ended(alloc, out, "code", unit, code),
        ChildExit::Signal(signal) => ended(alloc, out, "signal", unit, signal),
    }
}

fn piece(alloc: Global, out: &mut Printer, unit: u32, stream: Stream, bytes: &Blob) -> Mem<()>
    ensures { Prints result out.old out.new
        (data_tokens (turn_data (turns.Piece unit stream bytes.now))) }
{
    let fields = [
        ("hex", Leaf::Hex(bytes)),
        ("stream", Leaf::Word(stream_name(stream))),
        ("turn", Leaf::Word("piece")),
        ("unit", Leaf::Count(unit)),
    ];
    Object::print_of(alloc, out, &fields)
}

fn read_error(
    alloc: Global,
    out: &mut Printer,
    unit: u32,
    stream: Stream,
    error: &Boxed<Text>,
) -> Mem<()>
    ensures { Prints result out.old out.new
        (data_tokens (turn_data (turns.ReadError unit stream error.now))) }
{
    let fields = [
        ("stream", Leaf::Word(stream_name(stream))),
        ("text", Leaf::Text(error.get())),
        ("turn", Leaf::Word("read-error")),
        ("unit", Leaf::Count(unit)),
    ];
    Object::print_of(alloc, out, &fields)
}

fn env_bytes(alloc: Global, out: &mut Printer, unit: u32, bytes: &Blob) -> Mem<()>
    ensures { Prints result out.old out.new
        (data_tokens (object_of (env_fields unit (Bytes bytes.now)))) }
{
    let fields = [
        ("hex", Leaf::Hex(bytes)),
        ("turn", Leaf::Word("env")),
        ("unit", Leaf::Count(unit)),
    ];
    Object::print_of(alloc, out, &fields)
}

fn env_failed(alloc: Global, out: &mut Printer, unit: u32, what: &'static str) -> Mem<()>
    ensures { Prints result out.old out.new
        (data_tokens (object_of
        (word_at (codes "failed") what.now ∷ unit_fields (codes "env") unit))) }
{
    let fields = [
        ("failed", Leaf::Word(what)),
        ("turn", Leaf::Word("env")),
        ("unit", Leaf::Count(unit)),
    ];
    Object::print_of(alloc, out, &fields)
}

fn env(alloc: Global, out: &mut Printer, unit: u32, input: &EnvInput) -> Mem<()>
    ensures { Prints result out.old out.new (data_tokens (object_of (env_fields unit input.now))) }
{
    match input {
        EnvInput::Bytes(bytes) => env_bytes(alloc, out, unit, bytes),
        EnvInput::OpenFailed => env_failed(alloc, out, unit, "open"),
        EnvInput::ReadFailed => env_failed(alloc, out, unit, "read"),
    }
}

fn decide(alloc: Global, out: &mut Printer, unit: u32, word: u32) -> Mem<()>
    ensures { Prints result out.old out.new (data_tokens (turn_data (turns.Decide unit word))) }
{
    let fields = [
        ("turn", Leaf::Word("decide")),
        ("unit", Leaf::Count(unit)),
        ("word", Leaf::Count(word)),
    ];
    Object::print_of(alloc, out, &fields)
}

fn clock(alloc: Global, out: &mut Printer, ns: u64) -> Mem<()>
    ensures { Prints result out.old out.new (data_tokens (turn_data (turns.Clock ns))) }
{
    let fields = [("ns", Leaf::Number(ns)), ("turn", Leaf::Word("clock"))];
    Object::print_of(alloc, out, &fields)
}

fn signal(alloc: Global, out: &mut Printer, signal: Signal) -> Mem<()>
    ensures { Prints result out.old out.new (data_tokens (turn_data (turns.Signal signal))) }
{
    let fields = [
        ("name", Leaf::Word(signal_name(signal))),
        ("turn", Leaf::Word("signal")),
    ];
    Object::print_of(alloc, out, &fields)
}

fn key(alloc: Global, out: &mut Printer, key: Key) -> Mem<()>
    ensures { Prints result out.old out.new (data_tokens (turn_data (turns.Key key))) }
{
    let code = key_name(alloc, key.code)?;
    let fields = [
        ("code", Leaf::Word(code.as_str())),
        ("modified", Leaf::Truth(key.modified)),
        ("press", Leaf::Truth(key.press)),
        ("turn", Leaf::Word("key")),
    ];
    Object::print_of(alloc, out, &fields)
}

fn stream_end(alloc: Global, out: &mut Printer, unit: u32, stream: Stream) -> Mem<()>
    ensures { Prints result out.old out.new
        (data_tokens (turn_data (turns.StreamEnd unit stream))) }
{
    let fields = [
        ("stream", Leaf::Word(stream_name(stream))),
        ("turn", Leaf::Word("stream-end")),
        ("unit", Leaf::Count(unit)),
    ];
    Object::print_of(alloc, out, &fields)
}

fn started(alloc: Global, out: &mut Printer, unit: u32, pid: u32) -> Mem<()>
    ensures { Prints result out.old out.new (data_tokens (turn_data (turns.Started unit pid))) }
{
    let fields = [
        ("pid", Leaf::Count(pid)),
        ("turn", Leaf::Word("started")),
        ("unit", Leaf::Count(unit)),
    ];
    Object::print_of(alloc, out, &fields)
}

// Whether a turn says no more than what it is.
fn is_bare(turn: &Turn) -> bool
    ensures { result ≡ is_bare turn.now }
{
    matches!(
        turn,
        Turn::Begin
            | Turn::Admit
            | Turn::Deliver
            | Turn::GlobalDue
            | Turn::StopWaitDue
            | Turn::InfoDue
            | Turn::Answer
            | Turn::Tick
            | Turn::ReportCancel
            | Turn::End
    )
}

fn print_bare(alloc: Global, out: &mut Printer, turn: &Turn) -> Mem<()>
    requires { is_bare turn.now ≡ true }
    ensures { Prints result out.old out.new (data_tokens (turn_data turn.now)) }
{
    match turn {
        Turn::Begin => bare(alloc, out, "begin"),
        Turn::Admit => bare(alloc, out, "admit"),
        Turn::Deliver => bare(alloc, out, "deliver"),
        Turn::GlobalDue => timer(alloc, out, "global"),
        Turn::StopWaitDue => timer(alloc, out, "stop"),
        Turn::InfoDue => timer(alloc, out, "info"),
        Turn::Answer => bare(alloc, out, "answer"),
        Turn::Tick => bare(alloc, out, "tick"),
        Turn::ReportCancel => bare(alloc, out, "report-cancel"),
        Turn::End => bare(alloc, out, "end"),
        _ => unreachable!(),
    }
}

fn print_bytes(alloc: Global, out: &mut Printer, turn: &Turn) -> Mem<()>
    requires { has_bytes turn.now ≡ true }
    ensures { Prints result out.old out.new (data_tokens (turn_data turn.now)) }
{
    match turn {
        Turn::StartFailed { unit, error } => failed(alloc, out, "start-failed", *unit, error),
        Turn::WaitFailed { unit, error } => failed(alloc, out, "wait-failed", *unit, error),
        Turn::Piece {
            unit,
            stream,
            bytes,
        } => piece(alloc, out, *unit, *stream, bytes),
        Turn::ReadError {
            unit,
            stream,
            error,
        } => read_error(alloc, out, *unit, *stream, error),
        Turn::Env { unit, input } => env(alloc, out, *unit, input),
        _ => unreachable!(),
    }
}

fn print_numbers(alloc: Global, out: &mut Printer, turn: &Turn) -> Mem<()>
    requires bare { is_bare turn.now ≡ false }
    requires bytes { has_bytes turn.now ≡ false }
    ensures { Prints result out.old out.new (data_tokens (turn_data turn.now)) }
{
    match turn {
        Turn::Clock { ns } => clock(alloc, out, *ns),
        Turn::Signal { signal: came } => signal(alloc, out, *came),
        Turn::Key { key: came } => key(alloc, out, *came),
        Turn::Started { unit, pid } => started(alloc, out, *unit, *pid),
        Turn::Exit { unit, exit } => exited(alloc, out, *unit, *exit),
        Turn::StreamEnd { unit, stream } => stream_end(alloc, out, *unit, *stream),
        Turn::Decide { unit, word } => decide(alloc, out, *unit, *word),
        Turn::UnitDue { unit } => of_unit(alloc, out, "due", *unit),
        Turn::Take { unit } => of_unit(alloc, out, "take", *unit),
        _ => unreachable!(),
    }
}

/// Prints a turn as an object.
pub(crate) fn print_turn(alloc: Global, out: &mut Printer, turn: &Turn) -> Mem<()>
    ensures { Prints result out.old out.new (data_tokens (turn_data turn.now)) }
{
    if is_bare(turn) {
        print_bare(alloc, out, turn)
    } else if turn.has_bytes() {
        print_bytes(alloc, out, turn)
    } else {
        print_numbers(alloc, out, turn)
    }
}

/// The line of a turn as an input has it, without its line feed: its keys in byte order, all of them and no other.
#[tactic(auto, using(crate::proofs::PrintLemmas::print_data))]
pub fn turn_line(alloc: Global, turn: &Turn) -> Mem<Text>
    ensures { IfOk result (λ t. t ≡ turn_text turn.now) }
{
    let mut out = Printer::new(alloc)?;
    print_turn(alloc, &mut out, turn)?;
    out.into_text(alloc)
}
