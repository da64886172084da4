// A run of many tests, one after another, by the top call: a call that looked at all tests at each turn would take
// minutes.
use run_capture::{Blob, List, Mem, MemorySink, MemorySource};
use run_cli::{Ran, run};
use run_drive::{MemoryHost, MemoryTicker};
use std::alloc::Global;
use std::sync::Wait;
use std::thread::Threads;

const TESTS: u32 = 20_000;

const PLAN: &str = r#"{"capture":"none","run_id":"00000000-0000-4000-8000-000000000001","tests":["#;

// A test of the plan.
fn add_test(alloc: Global, input: &mut Blob, unit: u32) -> Mem<()> {
    let comma = if unit == 0 { "" } else { "," };
    let text = format!(in alloc;
        "{comma}{{\"binary\":\"b\",\"command\":[\"true\"],\"name\":\"t{unit}\"}}"
    )?;
    input.extend_from_slice(alloc, text.as_bytes())
}

// The turns of a test that passes.
fn add_turns(alloc: Global, input: &mut Blob, unit: u32) -> Mem<()> {
    let text = format!(in alloc;
        "{{\"turn\":\"admit\"}}\n{{\"turn\":\"deliver\"}}\n\
         {{\"pid\":1,\"turn\":\"started\",\"unit\":{unit}}}\n{{\"code\":0,\"turn\":\"exit\",\"unit\":{unit}}}\n\
         {{\"turn\":\"decide\",\"unit\":{unit},\"word\":0}}\n{{\"turn\":\"deliver\"}}\n"
    )?;
    input.extend_from_slice(alloc, text.as_bytes())
}

fn input(alloc: Global) -> Mem<Blob> {
    let mut input = Blob::from_slice(alloc, PLAN.as_bytes())?;
    for unit in 0..TESTS {
        add_test(alloc, &mut input, unit)?;
    }
    input.extend_from_slice(alloc, b"]}\n{\"turn\":\"begin\"}\n")?;
    for unit in 0..TESTS {
        add_turns(alloc, &mut input, unit)?;
    }
    input.extend_from_slice(alloc, b"{\"turn\":\"end\"}\n")?;
    Ok(input)
}

// The word of the program.
fn words(alloc: Global) -> Mem<Vec<String>> {
    let mut words = Vec::new(alloc);
    words.push(String::from_str(alloc, "replay")?)?;
    Ok(words)
}

// Whether a run of so many tests passed, with two events and an ask each, the run's two events and the outcome.
fn have_passed(written: &[u8]) -> bool {
    let count = written.iter().filter(|byte| **byte == b'\n').count();
    count == 60_003 && written.ends_with(b"{\"outcome\":\"success\"}\n")
}

/// Whether a run of twenty thousand tests passes.
pub fn many_pass<X: Threads + Wait + Sync>(rt: &X, alloc: Global) -> Mem<bool> {
    let words = words(alloc)?;
    let mut source = MemorySource::new(input(alloc)?, 65_536, List::new());
    let sink = MemorySink::new(alloc, 32_000_000, 65_536, List::new())?;
    let mut host = MemoryHost::new(alloc, List::new(), MemoryTicker::new(List::new()), 0);
    let (ran, live) = run(rt, alloc, words.as_slice(), &mut source, sink, &mut host);
    drop(live);
    let Ran { status, sink } = ran;
    Ok(status == 0 && have_passed(sink.bytes()))
}
