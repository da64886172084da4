// The file that a run is recorded in.
use run_capture::Sink;
use run_cli::{Ended, Ran, StdSink, end_at_fault};
use run_output::Fault;
use run_record::RecordOutcome;
use std::alloc::Global;
use std::fs::File;
use std::{fs, io};

/// Makes a new file for a record. One that is there is left as it is: that is an error.
pub fn create(rt: &HostRuntime, name: &str) -> io::Result<StdSink<File>> {
    Ok(StdSink::new(File::create_new(rt, name)?))
}

/// Ends where there is no file for a record: with 2 where one of its name is there, and else with 9.
pub fn end_without_record<K: Sink>(
    rt: &HostRuntime,
    alloc: Global,
    sink: K,
    name: &str,
    error: &io::Error,
) -> Ran<K> {
    let _ = eprintln!(rt; "nextest_run: error: no record {name:?} is made: {error}");
    let fault = if error.kind() == io::ErrorKind::AlreadyExists {
        Fault::Words
    } else {
        Fault::Report
    };
    end_with(alloc, sink, fault)
}

/// Ends with a fault alone.
pub fn end_with<K: Sink>(alloc: Global, sink: K, fault: Fault) -> Ran<K> {
    let Ended { ending, sink } = end_at_fault(alloc, sink, &[], fault);
    let status = match ending {
        Ok(_) => fault.status(),
        Err(fault) => fault.status(),
    };
    Ran { status, sink }
}

// Why a record isn't that of the whole run.
fn lack_of(outcome: RecordOutcome) -> Option<&'static str> {
    match outcome {
        RecordOutcome::Recorded | RecordOutcome::Planless => None,
        RecordOutcome::Unwritten => Some("a write failed"),
        RecordOutcome::Unstorable => Some("the line of a turn is too long"),
        RecordOutcome::NoMemory => Some("memory was wanting"),
    }
}

/// Says on standard error what a record lacks, by what became of it and the run's own status. The file of a run that
/// was never begun is removed.
pub fn close(rt: &HostRuntime, name: &str, outcome: RecordOutcome, own: u8) {
    if matches!(own, 3 | 5 | 12) {
        let _ = fs::remove_file(rt, name);
    } else if let Some(lack) = lack_of(outcome) {
        let _ = eprintln!(rt; "nextest_run: the record {name:?} is not whole: {lack}");
    }
}
