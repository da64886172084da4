// The JUnit file of the lines of a run.
use crate::made::sink;
use run_capture::Blob;
use run_event_reader::{failed_after, read_event_line};
use run_junit::JUnitReport;
use run_report::Listener;
use std::alloc::Global;

/// When the clock of each row is 0, in milliseconds since the start of 1970.
const STARTED: u64 = 1_795_968_000_000;

// Who has heard the events among some lines.
fn heard(alloc: Global, lines: &str) -> JUnitReport {
    let mut report = JUnitReport::new(alloc, Some(STARTED));
    let mut failed = 0;
    for line in lines.lines() {
        if let Ok(event) = read_event_line(alloc, failed, line.as_bytes()) {
            failed = failed_after(failed, &event);
            report.hear(alloc, &event);
        }
    }
    report
}

/// The JUnit file of some lines; none where its sink fails, as it does at this write, if at one.
pub fn junit_of(alloc: Global, lines: &str, fails: Option<u64>) -> Option<Blob> {
    let report = heard(alloc, lines);
    let mut sink = sink(alloc, fails).ok()?;
    match report.write(alloc, &mut sink) {
        Ok(()) => Blob::from_slice(alloc, sink.bytes()).ok(),
        Err(_) => None,
    }
}
