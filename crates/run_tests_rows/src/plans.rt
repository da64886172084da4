// Rows of plans: the line that a file and words make of a list of tests, or the status and the place of why there is
// none.

use run_capture::{Duplicate, List, Mem, Text};
use run_plan::{Call, Choices, PlanFault, Texts, WordError, plan_of, read_words};
use std::alloc::Global;
use uuid::Uuid;

// What a compiler says of the platform that the rows are for.
const CFG: &str =
    "target_arch=\"x86_64\"\ntarget_env=\"gnu\"\ntarget_os=\"linux\"\ntarget_vendor=\"unknown\"\nunix\n";

const RUN_ID: &str = "00000000-0000-4000-8000-000000000001";

// The file whose lines these are, with a mark between them.
fn config_of(alloc: Global, lines: &str) -> Mem<Text> {
    let mut config = Text::from_str(alloc, "")?;
    for line in lines.split('¶') {
        config.push_str(alloc, line)?;
        config.push_str(alloc, "\n")?;
    }
    Ok(config)
}

// The words with a mark between them.
fn words_of(alloc: Global, words: &str) -> Mem<List<Text>> {
    let mut list = List::new();
    if words.is_empty() {
        return Ok(list);
    }
    for word in words.split('¦') {
        list.push(alloc, Text::from_str(alloc, word)?)?;
    }
    Ok(list)
}

// The program's name, and the words.
fn args_of(alloc: Global, words: &List<Text>) -> Mem<List<Text>> {
    let mut args = List::new();
    args.push(alloc, Text::from_str(alloc, "nextest_plan")?)?;
    for word in words.as_slice() {
        args.push(alloc, word.copy(alloc)?)?;
    }
    Ok(args)
}

// The call of a row, on eight processors.
fn call_of(alloc: Global, words: &List<Text>) -> Option<Call> {
    let run_id = Uuid::parse_str(RUN_ID).ok()?;
    let args = args_of(alloc, words).ok()?;
    Some(Call {
        run_id,
        processors: 8,
        args,
    })
}

// The status and the place of a fault.
fn fault_text(alloc: Global, fault: &PlanFault) -> Option<String> {
    let status = fault.status();
    match fault {
        PlanFault::Profile { path, .. } => {
            let path = path.as_str();
            format!(in alloc; "{status} {path}").ok()
        }
        PlanFault::ProfileFilter { path, place, .. } => {
            let path = path.as_str();
            format!(in alloc; "{status} {path} at {place}").ok()
        }
        PlanFault::Filter { place, .. } => format!(in alloc; "{status} at {place}").ok(),
        _ => format!(in alloc; "{status}").ok(),
    }
}

// What these words choose, or the text of their fault.
fn choices_of(alloc: Global, words: &List<Text>) -> Option<Result<Choices, String>> {
    match read_words(alloc, words.as_slice()) {
        Ok(choices) => Some(Ok(choices)),
        Err(WordError::Wrong { .. }) => Some(Err(String::from_str(alloc, "2").ok()?)),
        Err(WordError::OutOfMemory) => None,
    }
}

fn planned(
    alloc: Global,
    texts: &Texts<'_>,
    choices: &Choices,
    words: &List<Text>,
) -> Option<String> {
    let call = call_of(alloc, words)?;
    match plan_of(alloc, texts, choices, &call) {
        Ok(noted) => String::from_str(alloc, noted.line.as_str()).ok(),
        Err(fault) => fault_text(alloc, &fault),
    }
}

// The files of a row.
fn texts_of<'a>(list: &'a [u8], cfg: Option<&'a str>, config: Option<&'a str>) -> Texts<'a> {
    Texts { list, cfg, config }
}

fn planned_by<'x>(
    alloc: Global,
    list: &'x str,
    config: &'x Text,
    choices: &Choices,
    words: &List<Text>,
) -> Option<String> {
    let texts = texts_of(list.as_bytes(), Some(CFG), Some(config.as_str()));
    planned(alloc, &texts, choices, words)
}

/// What the lines of a file and words give; none where memory is wanting.
pub fn plan_row(alloc: Global, list: &str, lines: &str, words: &str) -> Option<String> {
    let words = words_of(alloc, words).ok()?;
    match choices_of(alloc, &words)? {
        Ok(choices) => {
            let config = config_of(alloc, lines).ok()?;
            planned_by(alloc, list, &config, &choices, &words)
        }
        Err(fault) => Some(fault),
    }
}
