// What the words and the source give.
ghost use Rattle.std.specs.Prelude.{◌≡◌, ◌↔◌, ◌∷◌, [], map, IfOk, IfErr, IsTrue, string_bytes};
ghost use Rattle.run_cli.specs.Call.{reading_of};
ghost use Rattle.run_cli.specs.Commands.{IsNamedBy, NamesCommand};
ghost use Rattle.run_cli.specs.Given.{SaysInput, IsAllOf, IsUnread, IsGivenFault, CountsRead};
ghost use Rattle.run_cli.specs.LiveGiven.{IsLiveWord, IsLineFault};

use crate::command::{Command, command_of};
use run_capture::{Blob, Source};
use run_events::Plan;
use run_input::{
    Input, InputError, ReadAllError, RunnerKeys, read_all, read_input_by, read_plan_alone,
};
use run_output::Fault;
use run_turn_reader::TurnLines;
use std::alloc::Global;

/// Whether the words are this one.
pub fn is_word(words: &[String], name: &str) -> bool
    ensures { IsTrue result ↔ (map (λ w. string_bytes w) words.now ≡ name.now ∷ []) }
{
    match words {
        [word] => word.as_str() == name,
        _ => false,
    }
}

/// Whether the words are the one that names the command `live`.
pub fn is_live(words: &[String]) -> bool
    ensures { IsTrue result ↔ IsLiveWord (map (λ w. string_bytes w) words.now) }
{
    is_word(words, "live")
}

/// The bytes of a source, or why there are none.
pub fn read_bytes<S: Source>(alloc: Global, source: &mut S) -> Result<Blob, Fault>
    ensures ok { IfOk result (λ bytes. IsAllOf (reading_of S.Source source.old source.new)
        bytes) }
    ensures refused { IfErr result (IsUnread (reading_of S.Source source.old source.new)) }
    ensures counted { CountsRead (reading_of S.Source source.old source.new) result }
{
    match read_all(alloc, source) {
        Ok(bytes) => Ok(bytes),
        Err(ReadAllError::Failed) => Err(Fault::Read),
        Err(ReadAllError::TooLong) => Err(Fault::TooLong),
        Err(ReadAllError::OutOfMemory) => Err(Fault::Memory),
    }
}

/// The command that the words name and the input that the source gives, or why there is none. The source is read only
/// where the words are good.
pub fn read_given<S: Source>(
    alloc: Global,
    words: &[String],
    source: &mut S,
) -> Result<(Command, Input), Fault>
    ensures named { IfOk result (λ g. IsNamedBy g.0 (map (λ w. string_bytes w) words.now)) }
    ensures given { IfOk result (λ g. SaysInput (reading_of S.Source source.old source.new)
        g.1.keys g.1.plan
        g.1.turns) }
    ensures refused { IfErr result (IsGivenFault (map (λ w. string_bytes w) words.now)
        (reading_of S.Source source.old source.new)) }
    ensures counted { CountsRead (reading_of S.Source source.old source.new) result }
    ensures untouched { ¬ NamesCommand (map (λ w. string_bytes w) words.now) → source.new ≡ source.old }
{
    let Some(command) = command_of(words) else {
        return Err(Fault::Words);
    };
    let bytes = match read_bytes(alloc, source) {
        Ok(bytes) => bytes,
        Err(fault) => return Err(fault),
    };
    match read_input_by(alloc, bytes.as_slice(), &TurnLines) {
        Ok(input) => Ok((command, input)),
        Err(InputError::Line { line }) => Err(Fault::Line { line }),
        Err(InputError::OutOfMemory) => Err(Fault::Memory),
    }
}

/// The plan that the source's one line says, or why there is none.
pub fn read_plan<S: Source>(alloc: Global, source: &mut S) -> Result<(RunnerKeys, Plan), Fault>
    ensures given { IfOk result
        (λ said. SaysInput (reading_of S.Source source.old source.new) said.0 said.1
        []) }
    ensures refused { IfErr result
        (IsLineFault (reading_of S.Source source.old source.new)) }
    ensures counted { CountsRead (reading_of S.Source source.old source.new) result }
{
    let bytes = match read_bytes(alloc, source) {
        Ok(bytes) => bytes,
        Err(fault) => return Err(fault),
    };
    match read_plan_alone(alloc, bytes.as_slice()) {
        Ok(said) => Ok(said),
        Err(InputError::Line { line }) => Err(Fault::Line { line }),
        Err(InputError::OutOfMemory) => Err(Fault::Memory),
    }
}
