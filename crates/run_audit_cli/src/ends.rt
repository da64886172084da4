// How the program of audits ends.
ghost use Rattle.std.specs.Prelude.{◌≡◌, OnOk, OnErr};
ghost use Rattle.run_capture.specs.Bytes.{Takes};
ghost use Rattle.run_output.specs.Fields.{line_bytes};
ghost use Rattle.run_cli.specs.Call.{writing_of, TakesFront};
ghost use Rattle.run_cli.specs.Write.{CountsWrite};
ghost use Rattle.run_audit_cli.specs.AuditEnds.{EndsWithFault, EndsWithVerdict};
ghost use Rattle.run_audit_cli.specs.Verdicts.{verdict_line_text};

use crate::verdict_line::{status_of_verdict, verdict_line};
use run_audit_model::Verdict;
use run_capture::Sink;
use run_cli::{Ended, Ran, WriteError, end_at_fault, end_without_memory, write_line};
use run_output::Fault;
use std::alloc::Global;

/// Writes the line of a fault, and ends with its status.
pub fn end_at<K: Sink>(alloc: Global, sink: K, fault: Fault) -> Ran<K>
    ensures { EndsWithFault (writing_of K.Sink sink result.sink) fault result.status }
{
    let Ended { ending, sink } = end_at_fault(alloc, sink, &[], fault);
    match ending {
        Ok(_) => Ran {
            status: fault.status(),
            sink,
        },
        Err(fault) => Ran {
            status: fault.status(),
            sink,
        },
    }
}

// Writes the line of a verdict.
fn write_verdict<K: Sink>(alloc: Global, sink: &mut K, verdict: Verdict) -> Result<(), WriteError>
    ensures ok { OnOk result (Takes (K.taken sink.old) (K.taken sink.new) (line_bytes (verdict_line_text verdict))) }
    ensures front { OnErr result (TakesFront (K.taken sink.old) (K.taken sink.new)
        (line_bytes (verdict_line_text verdict))) }
    ensures counted { CountsWrite (K.faults sink.old) (K.faults sink.new) result }
{
    let line = verdict_line(alloc, verdict)?;
    write_line(alloc, sink, line)
}

/// Writes the line of a verdict, and ends with its status. A write that fails is status 9.
pub fn end_at_verdict<K: Sink>(alloc: Global, sink: K, verdict: Verdict) -> Ran<K>
    ensures { EndsWithVerdict (writing_of K.Sink sink result.sink) verdict result.status }
{
    let mut sink = sink;
    match write_verdict(alloc, &mut sink, verdict) {
        Ok(()) => Ran {
            status: status_of_verdict(verdict),
            sink,
        },
        Err(WriteError::Failed) => Ran { status: 9, sink },
        Err(WriteError::OutOfMemory) => {
            let Ended { ending: _, sink } = end_without_memory(sink);
            Ran { status: 11, sink }
        }
    }
}
