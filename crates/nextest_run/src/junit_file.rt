// The JUnit file of a run.
ghost use Rattle.std.specs.Prelude.{[], IfSome};

use run_cli::StdSink;
use run_events::ReportFault;
use run_junit::JUnitReport;
use run_record::is_over;
use run_report::Listener;
use std::fs::File;
use std::time::SystemTime;
use std::{fs, io};

// The milliseconds since the start of 1970, where the clock can be read.
fn now(rt: &HostRuntime) -> Option<u64> {
    let time = SystemTime::now(rt).ok()?;
    let since = time.duration_since(SystemTime::UNIX_EPOCH).ok()?;
    u64::try_from(since.as_millis()).ok()
}

/// Who keeps the cases of a run that starts now, if a file of them is asked for.
pub fn junit_of(rt: &HostRuntime, name: Option<&str>) -> Option<JUnitReport>
    ensures { IfSome result (λ junit. ⟦<JUnitReport as Listener>⟧.heard junit []) }
{
    match name {
        Some(_) => Some(JUnitReport::new(rt.alloc(), now(rt))),
        None => None,
    }
}

// Why a file isn't written.
#[derive(Drop)]
enum Lack {
    NotMade(io::Error),
    WriteFailed,
    NoMemory,
}

// Makes a file of this name, and writes the document of a run to it.
fn make(rt: &HostRuntime, name: &str, junit: &JUnitReport) -> Result<(), Lack> {
    let file = match File::create(rt, name) {
        Ok(file) => file,
        Err(error) => return Err(Lack::NotMade(error)),
    };
    let mut sink = StdSink::new(file);
    match junit.write(rt.alloc(), &mut sink) {
        Ok(()) => Ok(()),
        Err(ReportFault::Refused(_)) => Err(Lack::WriteFailed),
        Err(ReportFault::OutOfMemory) => Err(Lack::NoMemory),
    }
}

// Makes a file beside another, and gives it the name of that once it is whole.
fn make_whole(rt: &HostRuntime, beside: &str, name: &str, junit: &JUnitReport) -> Result<(), Lack> {
    make(rt, beside, junit)?;
    match fs::rename(rt, beside, name) {
        Ok(()) => Ok(()),
        Err(error) => Err(Lack::NotMade(error)),
    }
}

// Says on standard error why a file isn't written.
fn say_lack(rt: &HostRuntime, name: &str, lack: &Lack) {
    let _ = match lack {
        Lack::NotMade(error) => eprintln!(rt;
            "nextest_run: error: no JUnit file {name:?} is made: {error}"
        ),
        Lack::WriteFailed => eprintln!(rt;
            "nextest_run: error: no JUnit file {name:?} is made: a write failed"
        ),
        Lack::NoMemory => eprintln!(rt;
            "nextest_run: error: no JUnit file {name:?} is made: memory was wanting"
        ),
    };
}

// Writes the file of a run that is over, and answers whether that went well.
fn write_file(rt: &HostRuntime, name: &str, junit: &JUnitReport) -> bool {
    let Ok(beside) = format!(in rt.alloc(); "{name}.tmp") else {
        say_lack(rt, name, &Lack::NoMemory);
        return false;
    };
    match make_whole(rt, beside.as_str(), name, junit) {
        Ok(()) => true,
        Err(lack) => {
            let _ = fs::remove_file(rt, beside.as_str());
            say_lack(rt, name, &lack);
            false
        }
    }
}

/// Writes the file of a run that is over, if one is asked for, and answers the run's status, or 9 where the file could
/// not be written.
pub fn end_junit(
    rt: &HostRuntime,
    name: Option<&str>,
    junit: Option<JUnitReport>,
    status: u8,
) -> u8 {
    match (name, &junit) {
        (Some(name), Some(junit)) if is_over(status) && !write_file(rt, name, junit) => 9,
        _ => status,
    }
}
