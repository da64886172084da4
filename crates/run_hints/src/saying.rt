// What is said of how the program ended.
use crate::line_fault::{LineKind, is_unfinished, line_at, misfit_of, misfit_words};
use crate::message::{Message, message_of, plain};
use crate::replayed::why_stopped;
use crate::words::{is_live, of_words, starts_children};
use serde_json::Value;
use std::alloc::{AllocError, Global};

const PLAN_HINT: &str =
    "a plan is a JSON object on one line, with \"run_id\" and \"tests\": nextest_run --help has one";

const TURN_HINT: &str =
    "a turn is a JSON object on one line, as {\"turn\":\"begin\"}: nextest_run --help has an input";

const NOT_ENABLED_HINT: &str =
    "the turns before it were taken; a unit takes a turn only where it waits for it";

const LIVE_HINT: &str = "live takes a plan alone, on one line: jq -c puts a plan on one";

const ONE_LINE_HINT: &str = "a plan stands on one line: jq -c puts it on one";

// That a line is not of its kind, and what is wrong with it.
fn not_text(
    alloc: Global,
    kind: LineKind,
    number: u64,
    fault: Option<String>,
) -> Result<String, AllocError> {
    let noun = kind.noun();
    match fault {
        Some(fault) => format!(in alloc; "input line {number} is not a {noun}: {fault}"),
        None => format!(in alloc; "input line {number} is not a {noun}"),
    }
}

// Of a line that is no plan: also where a plan stands on more lines than one.
fn of_plan_line(alloc: Global, input: &[u8]) -> Result<Message, AllocError> {
    let line = line_at(input, 1).unwrap_or(&[]);
    let misfit = misfit_of(alloc, LineKind::Plan, line)?;
    if is_unfinished(&misfit) && line_at(input, 2).is_some_and(|next| !next.is_empty()) {
        return plain(
            alloc,
            "input line 1 is not a plan: it goes on on line 2",
            ONE_LINE_HINT,
        );
    }
    let fault = misfit_words(alloc, &misfit)?;
    message_of(alloc, not_text(alloc, LineKind::Plan, 1, fault), PLAN_HINT)
}

// Of a line that is no turn.
fn of_turn_line(alloc: Global, input: &[u8], number: u64) -> Result<Message, AllocError> {
    let line = line_at(input, number).unwrap_or(&[]);
    let misfit = misfit_of(alloc, LineKind::Turn, line)?;
    let fault = misfit_words(alloc, &misfit)?;
    message_of(
        alloc,
        not_text(alloc, LineKind::Turn, number, fault),
        TURN_HINT,
    )
}

// Of a line that is no plan or no turn.
fn of_line(
    alloc: Global,
    words: Option<&[String]>,
    input: &[u8],
    number: u64,
) -> Result<Message, AllocError> {
    if input.is_empty() {
        plain(alloc, "the input is empty", PLAN_HINT)
    } else if number <= 1 {
        of_plan_line(alloc, input)
    } else if is_live(words) {
        plain(alloc, "input line 2 is one too many", LIVE_HINT)
    } else {
        of_turn_line(alloc, input, number)
    }
}

// What is wrong with a test of a plan, by the kind of its fault, and what helps.
fn test_fault(kind: &str) -> Option<(&'static str, &'static str)> {
    match kind {
        "duplicate-test" => Some((
            "has the binary and name of an earlier test",
            "each test has a binary and a name that no other test has",
        )),
        "unknown-group" => Some((
            "names a group that is not in \"groups\"",
            "\"groups\" lists each group with its limit",
        )),
        "zero-weight" => Some(("has a weight of 0", "a weight is 1 or more")),
        "too-many-retries" => Some((
            "has 4294967295 retries",
            "a test has fewer retries than 4294967295",
        )),
        _ => None,
    }
}

// Of a plan whose limit is 0: that of a group, or that on all tests.
fn of_limit(alloc: Global, fault: &Value) -> Result<Message, AllocError> {
    match fault.get("group").and_then(Value::as_u64) {
        Some(group) => message_of(
            alloc,
            format!(in alloc; "the plan is refused: groups[{group}] has a limit of 0"),
            "a limit is 1 or more",
        ),
        None => plain(
            alloc,
            "the plan is refused: \"threads\" is 0",
            "threads are 1 or more",
        ),
    }
}

// Of a plan that breaks a rule.
fn of_plan(alloc: Global, fault: &Value) -> Result<Message, AllocError> {
    let kind = fault.get("kind").and_then(Value::as_str).unwrap_or("");
    let test = number_at(fault, "test");
    match test_fault(kind) {
        Some((what, hint)) => message_of(
            alloc,
            format!(in alloc; "the plan is refused: tests[{test}] {what}"),
            hint,
        ),
        None => of_limit(alloc, fault),
    }
}

// The number at a key, 0 where there is none.
fn number_at(value: &Value, key: &str) -> u64 {
    value.get(key).and_then(Value::as_u64).unwrap_or(0)
}

// The turn that a line says, as words.
fn turn_words(alloc: Global, turn: &Value) -> Result<String, AllocError> {
    let name = turn
        .get("turn")
        .and_then(Value::as_str)
        .unwrap_or("its turn");
    if let Some(unit) = turn.get("unit").and_then(Value::as_u64) {
        return format!(in alloc; "{name} of unit {unit}");
    }
    match turn.get("name").and_then(Value::as_str) {
        Some(signal) => format!(in alloc; "{name} {signal}"),
        None => String::from_str(alloc, name),
    }
}

// The same of the line of a number.
fn turn_text(alloc: Global, input: &[u8], number: u64) -> Result<String, AllocError> {
    let line = line_at(input, number).unwrap_or(&[]);
    turn_words(alloc, &value_of(alloc, line)?)
}

// Of a turn that wasn't taken.
fn of_turn(
    alloc: Global,
    input: &[u8],
    fault: &Value,
    what: &str,
    hint: &str,
) -> Result<Message, AllocError> {
    let number = number_at(fault, "turn").saturating_add(2);
    let turn = turn_text(alloc, input, number)?;
    message_of(
        alloc,
        format!(in alloc; "input line {number} {what}: {turn}"),
        hint,
    )
}

// Why a turn isn't enabled, by the run that took those before it.
fn enabled_hint(alloc: Global, input: &[u8], fault: &Value) -> Result<String, AllocError> {
    match why_stopped(alloc, input, number_at(fault, "turn")) {
        Some(why) => Ok(why),
        None => String::from_str(alloc, NOT_ENABLED_HINT),
    }
}

// Of a turn that isn't enabled.
fn of_not_enabled(alloc: Global, input: &[u8], fault: &Value) -> Result<Message, AllocError> {
    let hint = enabled_hint(alloc, input, fault)?;
    of_turn(alloc, input, fault, "is not enabled", hint.as_str())
}

// That nothing was done yet, in the words of a command.
fn nothing_done(words: Option<&[String]>) -> &'static str {
    if starts_children(words) {
        "nothing was started"
    } else {
        "no turn was taken"
    }
}

// Of a fault that says no place.
fn of_fault(alloc: Global, words: Option<&[String]>, status: u8) -> Result<Message, AllocError> {
    let (error, hint) = match status {
        8 => (
            "the run is not over after the last line of the input",
            "the last turn of a run is {\"turn\":\"end\"}, once each script and test is over",
        ),
        9 => (
            "a write to standard output failed",
            "what was written is not whole",
        ),
        10 => ("a read of standard input failed", nothing_done(words)),
        11 => (
            "memory was wanting",
            "nothing is claimed of what was written",
        ),
        12 => (
            "the input has more than 16777216 bytes",
            nothing_done(words),
        ),
        _ => (
            "the turns that the workers took are not those of the run",
            "this is a fault of the program: please report it",
        ),
    };
    plain(alloc, error, hint)
}

// The JSON value of a line; null where it has none.
fn value_of(alloc: Global, line: &[u8]) -> Result<Value, AllocError> {
    match Value::from_slice(alloc, line) {
        Err(error) if error.is_memory() => Err(AllocError),
        value => Ok(value.unwrap_or(Value::Null)),
    }
}

// The value of the last line, where what is said of a status depends on it.
fn last_value(alloc: Global, status: u8, last: Option<&[u8]>) -> Result<Value, AllocError> {
    match status {
        3 | 5 | 6 | 7 | 100 | 105 => value_of(alloc, last.ok_or(AllocError)?),
        _ => Ok(Value::Null),
    }
}

// Of an outcome other than success.
fn of_outcome(status: u8, last: &Value) -> Option<&'static str> {
    let is_cancelled = matches!(
        last.get("outcome").and_then(Value::as_str),
        Some("cancelled")
    );
    match status {
        4 => Some("no tests to run"),
        100 if is_cancelled => Some("test run cancelled"),
        100 => Some("test run failed"),
        105 if is_cancelled => Some("setup script cancelled"),
        105 => Some("setup script failed"),
        _ => None,
    }
}

// Of a fault.
fn said_of(
    alloc: Global,
    words: Option<&[String]>,
    status: u8,
    input: Option<&[u8]>,
    last: &Value,
) -> Result<Message, AllocError> {
    match status {
        2 => of_words(alloc, words),
        3 => of_line(
            alloc,
            words,
            input.ok_or(AllocError)?,
            number_at(last, "line"),
        ),
        5 => of_plan(alloc, last),
        6 => of_not_enabled(alloc, input.ok_or(AllocError)?, last),
        7 if starts_children(words) => plain(
            alloc,
            "a third shutdown signal came, and the run was given up",
            "the first asks the tests that run to end, the second kills them, and a third ends the run",
        ),
        7 => of_turn(
            alloc,
            input.ok_or(AllocError)?,
            last,
            "is a third shutdown signal",
            "the first asks the tests that run to end, the second kills them, and no third is taken",
        ),
        _ => of_fault(alloc, words, status),
    }
}

// The same, as lines.
fn fault_text(
    alloc: Global,
    words: Option<&[String]>,
    status: u8,
    input: Option<&[u8]>,
    last: &Value,
) -> Result<String, AllocError> {
    let Message { error, hint } = said_of(alloc, words, status, input, last)?;
    format!(in alloc; "nextest_run: error: {error}\nhint: {hint}\n")
}

/// What was read and written: none of either where memory was wanting for it.
#[derive(Clone, Copy, Drop)]
pub struct Seen<'a> {
    /// The bytes of the input.
    pub input: Option<&'a [u8]>,
    /// The last line that was written.
    pub last: Option<&'a [u8]>,
}

/// What standard error is to say of a run that these words asked for (none where one of them is not UTF-8) and that
/// ended with this status: nothing of a success; of another outcome one line; of a fault one line that says what is
/// wrong and where, and one that helps. Where memory is wanting for that, there is none.
pub fn explain(
    alloc: Global,
    words: Option<&[String]>,
    status: u8,
    seen: Seen,
) -> Result<String, AllocError> {
    if status == 0 {
        return Ok(String::new(alloc));
    }
    let last = last_value(alloc, status, seen.last)?;
    match of_outcome(status, &last) {
        Some(error) => format!(in alloc; "nextest_run: error: {error}\n"),
        None => fault_text(alloc, words, status, seen.input, &last),
    }
}
