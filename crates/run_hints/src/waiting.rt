// Why a turn isn't enabled: what the run, or the unit of the turn, waits for.
use run_capture::Stream;
use run_commands::EnvInput;
use run_engine::{Phase, Run};
use run_events::{ChildExit, Request, Turn};
use std::alloc::{AllocError, Global};

// What a unit may wait for, each by a turn that is enabled exactly where it does.
fn awaited(unit: u32) -> [(&'static str, Turn); 11] {
    let exit = ChildExit::Code(0);
    let end_of = |stream| Turn::StreamEnd { unit, stream };
    [
        ("started", Turn::Started { unit, pid: 0 }),
        ("start-failed", Turn::Started { unit, pid: 0 }),
        ("exit", Turn::Exit { unit, exit }),
        ("wait-failed", Turn::Exit { unit, exit }),
        ("a turn of its stdout", end_of(Stream::Stdout)),
        ("a turn of its stderr", end_of(Stream::Stderr)),
        ("a turn of its combined stream", end_of(Stream::Combined)),
        (
            "env",
            Turn::Env {
                unit,
                input: EnvInput::OpenFailed,
            },
        ),
        ("decide", Turn::Decide { unit, word: 0 }),
        ("due", Turn::UnitDue { unit }),
        ("take", Turn::Take { unit }),
    ]
}

// Words with commas between them, and `or` before the last.
fn one_of(alloc: Global, words: &[&'static str]) -> Result<String, AllocError> {
    let mut text = String::new(alloc);
    let mut left = words.len();
    for word in words {
        if left < words.len() {
            text.push_str(if left == 1 { " or " } else { ", " })?;
        }
        text.push_str(word)?;
        left = left.saturating_sub(1);
    }
    Ok(text)
}

// Where a unit stands.
fn phase_words(phase: Phase) -> &'static str {
    match phase {
        Phase::StartSent => "waits until its start is delivered",
        Phase::Starting => "is starting",
        Phase::Running => "is running",
        Phase::Grace => "was asked to end",
        Phase::KillWait => "was killed",
        Phase::Leak => "has ended, but a stream of it has not,",
        Phase::EnvWait => "has ended well",
        Phase::Deciding => "has ended its attempt",
        Phase::Delay => "is in the delay before its next attempt",
        Phase::RetrySent => "waits until its retry is delivered",
        Phase::Over => "is over",
    }
}

// The names of what a unit waits for.
fn names_of(alloc: Global, run: &Run, unit: u32) -> Result<Vec<&'static str>, AllocError> {
    let mut names = Vec::new(alloc);
    for (name, turn) in &awaited(unit) {
        if run.is_enabled(turn) {
            names.push(*name)?;
        }
    }
    Ok(names)
}

// The words on what a unit waits for, where it waits for something.
fn waits_words(alloc: Global, run: &Run, unit: u32) -> Result<String, AllocError> {
    let names = names_of(alloc, run, unit)?;
    if names.is_empty() {
        return Ok(String::new(alloc));
    }
    let waits = one_of(alloc, names.as_slice())?;
    format!(in alloc; " and waits for {waits}")
}

// Where an admitted unit stands, and what it waits for.
fn unit_words(alloc: Global, run: &Run, unit: u32, phase: Phase) -> Result<String, AllocError> {
    let stands = phase_words(phase);
    let waits = waits_words(alloc, run, unit)?;
    format!(in alloc; "unit {unit} {stands}{waits}")
}

// How many scripts the plan of a run has, and how many units.
fn counts(run: &Run) -> (u32, u32) {
    let plan = &run.settings().plan;
    let scripts = plan.scripts.len();
    let units = scripts.saturating_add(plan.tests.len());
    (
        u32::try_from(scripts).unwrap_or(u32::MAX),
        u32::try_from(units).unwrap_or(u32::MAX),
    )
}

// The first of so many units that isn't over, with its phase where it was admitted.
fn first_left(run: &Run, count: u32) -> Option<(u32, Option<Phase>)> {
    for unit in 0..count {
        let phase = run.phase(unit);
        if !matches!(phase, Some(Phase::Over)) {
            return Some((unit, phase));
        }
    }
    None
}

// Whether each unit was admitted.
fn are_admitted(run: &Run) -> bool {
    let (_, units) = counts(run);
    (0..units).all(|unit| run.phase(unit).is_some())
}

// Why a unit takes no such turn.
fn of_unit(alloc: Global, run: &Run, unit: u32) -> Result<String, AllocError> {
    let (_, units) = counts(run);
    match run.phase(unit) {
        Some(phase) => unit_words(alloc, run, unit, phase),
        None if unit < units => format!(in alloc; "unit {unit} was not admitted"),
        None => format!(in alloc;
            "there is no unit {unit}: the plan's scripts and tests are {units}, numbered from 0"
        ),
    }
}

// Why none is admitted.
fn of_admit(alloc: Global, run: &Run) -> Result<String, AllocError> {
    let (scripts, _) = counts(run);
    if are_admitted(run) {
        return String::from_str(alloc, "each script and test was admitted");
    }
    match first_left(run, scripts) {
        Some((unit, Some(phase))) => {
            let words = unit_words(alloc, run, unit, phase)?;
            format!(in alloc; "{words}: nothing more is admitted before that script is over")
        }
        _ => String::from_str(
            alloc,
            "no test that is left may come beside those that run, by the threads and the groups",
        ),
    }
}

// Why the run doesn't end.
fn of_end(alloc: Global, run: &Run) -> Result<String, AllocError> {
    if run.is_paused() {
        return String::from_str(
            alloc,
            "a run that is paused does not end: a signal cont lets it go on",
        );
    }
    if run.is_enabled(&Turn::Deliver) {
        return String::from_str(alloc, "a message waits to be delivered");
    }
    let (_, units) = counts(run);
    match first_left(run, units) {
        Some((unit, _)) => {
            let words = of_unit(alloc, run, unit)?;
            format!(in alloc; "a run ends once each script and test is over: {words}")
        }
        None => String::from_str(alloc, "a run ends once each script and test is over"),
    }
}

// When a timer is due.
fn of_due(alloc: Global, run: &Run) -> Result<String, AllocError> {
    match run.next_due() {
        Some(moment) => format!(in alloc; "no timer is due before the clock is at {moment} ns"),
        None => String::from_str(alloc, "no timer is due, however far the clock moves"),
    }
}

// Why a turn of the run's own isn't enabled, where that needs no other word.
fn of_run(turn: &Turn) -> &'static str {
    match turn {
        Turn::Begin => "the run has begun",
        Turn::Deliver => "no message waits to be delivered",
        Turn::Signal { .. } => "the run does not hear this signal, by the plan's \"signals\"",
        Turn::Key { .. } => {
            "by the plan's \"input\" the run hears no key, or the press of enter and of t alone"
        }
        Turn::ReportCancel => "no event was refused, or a report-cancel was taken",
        Turn::StopWaitDue => "no unit is waited for after a signal tstp",
        Turn::InfoDue | Turn::Answer => "the units are not asked what they are doing",
        Turn::Clock { .. } => "the clock ends at 18446744073709551615 ns",
        _ => "the run takes no such turn now",
    }
}

// Why the run takes no turn of its main state: a round is open.
fn of_round(request: Request) -> &'static str {
    match request {
        Request::Stop { .. } => {
            "the run waits for its units to take their stops: within 100 ms the due of the timer stop comes"
        }
        _ => {
            "the units are asked what they are doing: their answers come, and within 100 ms the due of the timer info"
        }
    }
}

// Whether a turn is one of the run's own that comes while a round is open.
fn comes_in_a_round(turn: &Turn) -> bool {
    matches!(turn, Turn::Admit | Turn::Clock { .. })
}

// The unit that a turn names.
fn unit_of(turn: &Turn) -> Option<u32> {
    match turn {
        Turn::Started { unit, .. }
        | Turn::StartFailed { unit, .. }
        | Turn::Exit { unit, .. }
        | Turn::WaitFailed { unit, .. }
        | Turn::Piece { unit, .. }
        | Turn::StreamEnd { unit, .. }
        | Turn::ReadError { unit, .. }
        | Turn::Env { unit, .. }
        | Turn::Decide { unit, .. }
        | Turn::UnitDue { unit }
        | Turn::Take { unit } => Some(*unit),
        _ => None,
    }
}

// Why a unit doesn't take a turn that names it.
fn of_named(alloc: Global, run: &Run, turn: &Turn, unit: u32) -> Result<String, AllocError> {
    match turn {
        Turn::Piece { bytes, .. } => {
            if bytes.is_empty() {
                String::from_str(alloc, "a piece has one byte or more")
            } else {
                of_unit(alloc, run, unit)
            }
        }
        Turn::UnitDue { .. } => {
            let (words, due) = (of_unit(alloc, run, unit)?, of_due(alloc, run)?);
            format!(in alloc; "{words}; {due}")
        }
        _ => of_unit(alloc, run, unit),
    }
}

// Why a turn of the run's own isn't enabled.
fn of_own(alloc: Global, run: &Run, turn: &Turn) -> Result<String, AllocError> {
    match run.round() {
        Some(request) if !comes_in_a_round(turn) => String::from_str(alloc, of_round(request)),
        _ => of_main(alloc, run, turn),
    }
}

// The same where no round is open, and of a turn that comes while one is.
fn of_main(alloc: Global, run: &Run, turn: &Turn) -> Result<String, AllocError> {
    match turn {
        Turn::Admit => of_admit(alloc, run),
        Turn::End => of_end(alloc, run),
        Turn::GlobalDue => of_due(alloc, run),
        _ => String::from_str(alloc, of_run(turn)),
    }
}

/// Why a turn that isn't enabled in a run isn't.
pub(crate) fn why_not(alloc: Global, run: &Run, turn: &Turn) -> Result<String, AllocError> {
    if run.is_over() {
        String::from_str(alloc, "the run is over: it takes no turn after its end")
    } else if run.is_enabled(&Turn::Begin) {
        String::from_str(
            alloc,
            "the run has not begun: {\"turn\":\"begin\"} comes first",
        )
    } else {
        match unit_of(turn) {
            Some(unit) => of_named(alloc, run, turn, unit),
            None => of_own(alloc, run, turn),
        }
    }
}
