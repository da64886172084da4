// How the program of reruns ends.
ghost use Rattle.std.specs.Prelude.{ℕ, ◌≡◌, List, IfOk};
ghost use Rattle.run_output.specs.Fields.{line_bytes};
ghost use Rattle.run_cli.specs.Call.{writing_of};
ghost use Rattle.run_rerun_cli.specs.LineEnds.{EndsEarly, EndsWith};

use run_capture::{Mem, Sink, Text};
use run_cli::{Ended, Ran, WriteError, end_without_memory, write_line};
use std::alloc::Global;

/// Ends for want of memory, and says so where the sink takes that.
pub fn end_early<K: Sink>(sink: K) -> Ran<K>
    ensures { EndsEarly (writing_of K.Sink sink result.sink) result.status }
{
    let Ended { ending: _, sink } = end_without_memory(sink);
    Ran { status: 11, sink }
}

// Writes a line, and ends with the first status, or the second, where the sink failed.
fn end_with_text<K: Sink>(alloc: Global, sink: K, line: Text, written: u8, failed: u8) -> Ran<K>
    ensures { EndsWith (writing_of K.Sink sink result.sink) (line_bytes line) written failed result.status }
{
    let mut sink = sink;
    match write_line(alloc, &mut sink, line) {
        Ok(()) => Ran {
            status: written,
            sink,
        },
        Err(WriteError::Failed) => Ran {
            status: failed,
            sink,
        },
        Err(WriteError::OutOfMemory) => {
            let Ended { ending: _, sink } = end_without_memory(sink);
            Ran { status: 11, sink }
        }
    }
}

/// The same of a line for which memory may have been wanting.
pub fn end_with<K: Sink>(alloc: Global, sink: K, line: Mem<Text>, written: u8, failed: u8) -> Ran<K>
    ensures { (text : List ℕ) → IfOk line (λ t. t ≡ text)
        → EndsWith (writing_of K.Sink sink result.sink) (line_bytes text) written failed result.status }
{
    match line {
        Ok(line) => end_with_text(alloc, sink, line, written, failed),
        Err(_) => end_early(sink),
    }
}
