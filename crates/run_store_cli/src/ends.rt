// How the program of stores ends where it has a fault.
ghost use Rattle.std.specs.Prelude.{◌≡◌, ◌++◌, OnOk, OnErr};
ghost use Rattle.run_capture.specs.Bytes.{Takes};
ghost use Rattle.run_cli.specs.Call.{writing_of, TakesFront};
ghost use Rattle.run_cli.specs.Write.{CountsWrite};
ghost use Rattle.run_store_cli.specs.Ends.{EndsSo, EndsAtStore, store_fault_only};

use run_capture::Sink;
use run_cli::{Ended, Ran, WriteError, end_at_fault, end_without_memory, write_rest};
use run_output::Fault;
use run_store_io::{StoreFault, store_fault_line};
use std::alloc::Global;

/// Writes the line of a fault, and ends with its status.
pub fn end_at<K: Sink>(alloc: Global, sink: K, fault: Fault) -> Ran<K>
    ensures { EndsSo (writing_of K.Sink sink result.sink) fault result.status }
{
    let Ended { ending, sink } = end_at_fault(alloc, sink, &[], fault);
    match ending {
        Ok(_) => Ran {
            status: fault.status(),
            sink,
        },
        Err(fault) => Ran {
            status: fault.status(),
            sink,
        },
    }
}

// Writes these lines of asks and that of a fault of a store.
fn write_store_fault<K: Sink>(
    alloc: Global,
    sink: &mut K,
    asks: &[u8],
    fault: StoreFault,
) -> Result<(), WriteError>
    ensures ok { OnOk result (Takes (K.taken sink.old) (K.taken sink.new)
        (asks.now ++ store_fault_only fault)) }
    ensures front { OnErr result (TakesFront (K.taken sink.old) (K.taken sink.new)
        (asks.now ++ store_fault_only fault)) }
    ensures counted { CountsWrite (K.faults sink.old) (K.faults sink.new) result }
{
    let last = store_fault_line(alloc, fault)?;
    write_rest(alloc, sink, asks, last)
}

/// Writes lines of asks and of a fault of a store, and ends with its status.
pub fn end_at_store<K: Sink>(alloc: Global, sink: K, asks: &[u8], fault: StoreFault) -> Ran<K>
    ensures { EndsAtStore (writing_of K.Sink sink result.sink) asks.now fault result.status }
{
    let mut sink = sink;
    match write_store_fault(alloc, &mut sink, asks, fault) {
        Ok(()) | Err(WriteError::Failed) => Ran {
            status: fault.status(),
            sink,
        },
        Err(WriteError::OutOfMemory) => {
            let Ended { ending: _, sink } = end_without_memory(sink);
            Ran { status: 11, sink }
        }
    }
}
