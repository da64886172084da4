// The top call: all that the program does.
ghost use Rattle.std.specs.Prelude.{◌≡◌, ◌<◌, ◌≤◌, ◌^◌, map, length, IfOk, IfErr, string_bytes};
ghost use Rattle.run_output.specs.declared.fault.Fault.TheVariants.{Words};
ghost use Rattle.run_cli.specs.Call.{reading_of, writing_of};
ghost use Rattle.run_audit_cli.specs.AuditCauses.{GetsAudited};
ghost use Rattle.run_audit_cli.specs.AuditEnds.{EndsWithFault};
ghost use Rattle.run_audit_cli.specs.AuditGiven.{AnswersAuditor, FindsVerdict, GivesAudit, IsAuditFault, IsAuditWord};
ghost use Rattle.run_audit_cli.specs.AuditGiven.{audit_line_fault};

use crate::ends::{end_at, end_at_verdict};
use crate::judging::judge_input;
use crate::reading::{Said, read_audit_input};
use run_audit_model::Verdict;
use run_capture::{Sink, Source};
use run_cli::{Ran, is_word, read_bytes};
use run_input::InputError;
use run_output::Fault;
use std::alloc::Global;

// The fault that an error of reading lines is.
fn line_fault(error: InputError) -> Fault
    ensures { result ≡ audit_line_fault error }
{
    match error {
        InputError::Line { line } => Fault::Line { line },
        InputError::OutOfMemory => Fault::Memory,
    }
}

// What a source gives: a plan, turns and events, or why there are none. Its bytes are given back by then.
fn given_audit<S: Source>(alloc: Global, source: &mut S) -> Result<Said, Fault>
    ensures ok { IfOk result (λ said. GivesAudit (reading_of S.Source source.old source.new) said.0.keys
        said.0.plan said.0.turns said.1) }
    ensures few { IfOk result (λ said. length said.0.turns ≤ 2 ^ 24) }
    ensures refused { IfErr result (IsAuditFault (reading_of S.Source source.old source.new)) }
{
    match read_bytes(alloc, source) {
        Ok(bytes) => match read_audit_input(alloc, bytes.as_slice()) {
            Ok(said) => Ok(said),
            Err(error) => Err(line_fault(error)),
        },
        Err(fault) => Err(fault),
    }
}

// The verdict on what a source gives, or why there is none.
fn find_verdict<S: Source>(alloc: Global, source: &mut S) -> Result<Verdict, Fault>
    ensures { FindsVerdict (reading_of S.Source source.old source.new) result }
{
    match given_audit(alloc, source) {
        Ok((input, events)) => judge_input(alloc, input, events.as_slice()),
        Err(fault) => Err(fault),
    }
}

// Audits what a source gives.
fn audit_given<S: Source, K: Sink>(alloc: Global, source: &mut S, sink: K) -> Ran<K>
    ensures { AnswersAuditor (reading_of S.Source source.old source.new)
        (writing_of K.Sink sink result.sink) result.status }
{
    match find_verdict(alloc, source) {
        Ok(verdict) => end_at_verdict(alloc, sink, verdict),
        Err(fault) => end_at(alloc, sink, fault),
    }
}

/// Does all that the program does: `audit` reads a plan line and turn lines, the line that says that event lines
/// follow, and lines as a replay writes them, of which those of asks and outcomes are passed over. It carries out the
/// turns, and writes the verdict on the events: that they keep the run, with status 0; or which law they break, and
/// where, with status 1.
///
/// There is no verdict with 10: the source could not be read; 12: it is too long; 3: a line is bad; 5: the plan is
/// refused; 6 and 7: a turn may not come; 8: the run isn't over. 9: the sink failed. 11: memory was wanting. Other
/// words have status 2, and then nothing is read.
pub fn run<S: Source, K: Sink>(alloc: Global, words: &[String], source: &mut S, sink: K) -> Ran<K>
    ensures says { IsAuditWord (map (λ w. string_bytes w) words.now)
        → AnswersAuditor (reading_of S.Source source.old source.new)
        (writing_of K.Sink sink result.sink) result.status }
    ensures causes { IsAuditWord (map (λ w. string_bytes w) words.now)
        → GetsAudited (reading_of S.Source source.old source.new)
        (writing_of K.Sink sink result.sink) result.status }
    ensures words { ¬ IsAuditWord (map (λ w. string_bytes w) words.now)
        → EndsWithFault (writing_of K.Sink sink result.sink) Words result.status × (source.new ≡ source.old) }
{
    if is_word(words, "audit") {
        audit_given(alloc, source, sink)
    } else {
        end_at(alloc, sink, Fault::Words)
    }
}
