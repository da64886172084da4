// The command `show`: the report of a recorded run, on standard output.
ghost use Rattle.std.specs.Prelude.{◌≡◌};
ghost use Rattle.nextest_run.specs.Showing.{shown_status};

use run_capture::{Mem, StdSink, StdSource, Text};
use run_cli::status_of_outcome;
use run_hints::{Seen, explain};
use run_output::{Fault, outcome_line};
use run_report::ReportSettings;
use run_show::{Showed, Told, show};
use std::io::Stdin;

// Says on standard error why a report isn't whole.
fn say_fault(rt: &HostRuntime, fault: Fault) {
    let _ = match fault {
        Fault::Line { line } => eprintln!(rt;
            "nextest_run: error: line {line} is no line of a run"
        ),
        Fault::Unfinished => eprintln!(rt; "nextest_run: error: the lines end before the outcome"),
        Fault::Report => eprintln!(rt; "nextest_run: error: a write failed"),
        Fault::Read => eprintln!(rt; "nextest_run: error: a read failed"),
        Fault::TooLong => eprintln!(rt; "nextest_run: error: a line is too long"),
        _ => eprintln!(rt; "nextest_run: error: memory was wanting"),
    };
}

// Says on standard error how a run ended whose last line this is, but of success: nothing where memory is wanting for
// that.
fn say_last(rt: &HostRuntime, status: u8, last: Mem<Text>) {
    let Ok(line) = last else {
        return;
    };
    let seen = Seen {
        input: None,
        last: Some(line.as_bytes()),
    };
    if let Ok(text) = explain(rt.alloc(), None, status, seen) {
        let _ = eprint!(rt; "{text}");
    }
}

// The status of how the lines ended.
fn status_of(ending: &Result<Told, Fault>) -> u8
    ensures { result ≡ shown_status ending.now }
{
    match ending {
        Ok(Told::Outcome(outcome)) => status_of_outcome(*outcome),
        Ok(Told::Fault { status }) => *status,
        Err(fault) => fault.status(),
    }
}

// Says on standard error how the lines ended.
fn say_ending(rt: &HostRuntime, ending: Result<Told, Fault>, status: u8) {
    match ending {
        Ok(Told::Outcome(outcome)) => say_last(rt, status, outcome_line(rt.alloc(), outcome)),
        Ok(Told::Fault { .. }) => {
            let _ = eprintln!(rt; "nextest_run: error: the run ended with status {status}");
        }
        Err(fault) => say_fault(rt, fault),
    }
}

/// Reads the lines of a run from standard input, writes its report, and answers the status.
pub fn show_run(rt: HostRuntime, settings: ReportSettings) -> u8 {
    let source: StdSource<Stdin> = StdSource::new(rt.stdin());
    let Showed {
        ending,
        source,
        sink,
    } = show(rt.alloc(), source, StdSink::new(rt.stdout()), settings);
    drop(source);
    drop(sink);
    let status = status_of(&ending);
    say_ending(&rt, ending, status);
    status
}
