//! Worked rows: whole inputs, stores and chains of stores that the top calls of the programs carry out from memory into
//! memory. The folder `data/` has the tables of the rows, their inputs, and of each the whole of what is to be written,
//! and of some what standard error is to say. One store is also played with each of its front parts and with each of
//! its bytes changed, and of a longer one the fronts at the ends of its records. Each byte and each status is compared,
//! and how many stores of a chain are opened and given back. A line is printed for each row; where a row differs, what
//! was written follows. Reports and JUnit files, and filters, profiles and plans of a project have rows of their own;
//! and a run of twenty thousand tests passes.
#![tactic(auto)]

mod answer;
mod damaged;
mod filters;
mod host;
mod junit;
mod lines;
mod made;
mod many;
mod plans;
mod profiles;
mod programs;
mod projects;
mod reports;
mod reruns;
mod settings;
mod table;

use answer::{Answer, input_of, wanting, words_of};
use damaged::{changes, cuts, fronts};
use many::many_pass;
use programs::Program;
use projects::projects_unmet;
use reports::reports_unmet;
use reruns::{Rerun, rerun_answer, rerun_of};
use std::fs::Files;
use std::io::Write;
use std::process::ExitCode;
use std::sync::Wait;
use std::thread::Threads;
use std::time::Clock;
use std::{fs, io};
use table::{Row, row_of};

// Whether a text is what is wanted under a name. Prints that, and a text that isn't.
fn is_wanted<X: AllocGlobal + Files + Print>(
    rt: &X,
    name: &str,
    text: &[u8],
    wanted: &[u8],
) -> io::Result<bool> {
    if text == wanted {
        println!(rt; "{name}: ok")?;
        return Ok(true);
    }
    println!(rt; "{name}: DIFFERS, and this was written:")?;
    io::writer(rt).write_all(text)?;
    println!(rt; "")?;
    Ok(false)
}

// The bytes of a file that has what is wanted.
fn wanted_of<X: AllocGlobal + Files>(rt: &X, name: &str) -> io::Result<Vec<u8>> {
    fs::read(rt, format!(in rt.alloc(); "{name}.out")?)
}

// Whether an answer is the one of this status and text. Prints what it is, where it isn't.
fn is_answered<X: AllocGlobal + Files + Print>(
    rt: &X,
    name: &str,
    answer: &Answer,
    status: u8,
    wanted: &[u8],
) -> io::Result<bool> {
    if answer.status != status {
        println!(rt; "{name}: status {} for {status}", answer.status)?;
    }
    let is_right = is_wanted(rt, name, answer.written.as_slice(), wanted)?;
    Ok(is_right && answer.status == status)
}

// Whether standard error says what it is to say, of a row that says so. Prints what it says, where it doesn't.
fn is_said<X: AllocGlobal + Files + Print>(rt: &X, row: &Row, said: &str) -> io::Result<bool> {
    if !row.says {
        return Ok(true);
    }
    let wanted = fs::read(rt, format!(in rt.alloc(); "{}.err", row.name)?)?;
    let is_so = said.as_bytes() == wanted.as_slice();
    if !is_so {
        println!(rt; "{}: said {said}", row.name)?;
    }
    Ok(is_so)
}

// What a table has rows of.
#[derive(Clone, Copy)]
enum Rows {
    Lines,
    Of(Program),
    Reruns,
}

// Whether a row of lines is met.
fn is_line_met<X: AllocGlobal + Files + Print + Threads + Wait + Clock + Copy + Send + Sync>(
    rt: &X,
    row: &Row,
) -> io::Result<bool> {
    let wanted = wanted_of(rt, row.name)?;
    let (answer, said) = lines::answer_of(rt, row, wanted.len())?;
    let is_so = is_said(rt, row, said.as_str())?;
    Ok(is_answered(rt, row.name, &answer, row.status, wanted.as_slice())? && is_so)
}

// Whether a row of a program is met.
fn is_met<X: AllocGlobal + Files + Print>(rt: &X, program: Program, row: &Row) -> io::Result<bool> {
    let wanted = wanted_of(rt, row.name)?;
    let answer = programs::answer_of(rt, program, row, wanted.len())?;
    is_answered(rt, row.name, &answer, row.status, wanted.as_slice())
}

// Whether a row of reruns is met, and each store that was opened was given back.
fn is_rerun_met<X: AllocGlobal + Files + Print>(rt: &X, row: &Rerun) -> io::Result<bool> {
    let wanted = wanted_of(rt, row.name)?;
    let (answer, opened) = rerun_answer(rt, row, wanted.len())?;
    let is_opened = opened == Some(row.opened);
    if !is_opened {
        println!(rt; "{}: opened {opened:?}", row.name)?;
    }
    Ok(is_answered(rt, row.name, &answer, row.status, wanted.as_slice())? && is_opened)
}

// Whether the row that a line says is met, if it says one.
fn is_row_met<X: AllocGlobal + Files + Print + Threads + Wait + Clock + Copy + Send + Sync>(
    rt: &X,
    rows: Rows,
    line: &str,
) -> io::Result<Option<bool>> {
    let is_met = match rows {
        Rows::Lines => row_of(line).map(|row| is_line_met(rt, &row)),
        Rows::Of(program) => row_of(line).map(|row| is_met(rt, program, &row)),
        Rows::Reruns => rerun_of(line).map(|row| is_rerun_met(rt, &row)),
    };
    is_met.transpose()
}

// How many rows of the table of this name aren't met.
fn unmet<X: AllocGlobal + Files + Print + Threads + Wait + Clock + Copy + Send + Sync>(
    rt: &X,
    rows: Rows,
    name: &str,
) -> io::Result<u64> {
    let text = fs::read_to_string(rt, name)?;
    let mut count = 0u64;
    for line in text.lines() {
        if line.is_empty() || line.starts_with('#') {
            continue;
        }
        let is_met = is_row_met(rt, rows, line)?;
        if is_met.is_none() {
            println!(rt; "no row: {line}")?;
        }
        if is_met != Some(true) {
            count = count.saturating_add(1);
        }
    }
    Ok(count)
}

// Whether a text is what is wanted under a name.
fn is_text<X: AllocGlobal + Files + Print>(rt: &X, name: &str, text: &[u8]) -> io::Result<bool> {
    let wanted = wanted_of(rt, name)?;
    is_wanted(rt, name, text, wanted.as_slice())
}

// Whether damaged stores are played as they are to be.
fn are_damaged_met<X: AllocGlobal + Files + Print>(rt: &X) -> io::Result<bool> {
    let alloc = rt.alloc();
    let words = words_of(alloc, "play")?;
    let store = fs::read(rt, "recorded.out")?;
    let cut = cuts(alloc, words.as_slice(), store.as_slice())?;
    let are_cuts = is_text(rt, "cuts", cut.as_slice())?;
    let changed = changes(alloc, words.as_slice(), store.as_slice())?;
    let are_changes = is_text(rt, "changes", changed.as_slice())?;
    let longer = input_of(rt, "plays_as_replayed")?;
    let lengths = fs::read_to_string(rt, "fronts.txt")?;
    let front = fronts(alloc, words.as_slice(), longer.as_slice(), lengths.as_str())?;
    let are_fronts = is_text(rt, "fronts", front.as_slice())?;
    Ok(are_cuts && are_changes && are_fronts)
}

// The tables.
const TABLES: [(Rows, &str); 5] = [
    (Rows::Lines, "rows.txt"),
    (Rows::Of(Program::Stores), "stores.txt"),
    (Rows::Reruns, "reruns.txt"),
    (Rows::Of(Program::Jobs), "jobs.txt"),
    (Rows::Of(Program::Audits), "audits.txt"),
];

fn main(rt: HostRuntime) -> io::Result<ExitCode> {
    let mut are_met = are_damaged_met(&rt)?;
    for (rows, name) in TABLES {
        let count = unmet(&rt, rows, name)?;
        println!(rt; "{count} rows of {name} differ")?;
        are_met = are_met && count == 0;
    }
    let reports = reports_unmet(&rt)?;
    println!(rt; "{reports} rows of reports differ")?;
    let (filters, profiles, plans) = projects_unmet(&rt)?;
    println!(rt; "{filters} rows of filters differ, {profiles} of profiles and {plans} of plans")?;
    let many = many_pass(&rt, rt.alloc()).map_err(wanting)?;
    println!(rt;
        "twenty thousand tests: {}",
        if many { "ok" } else { "not all passed" }
    )?;
    are_met = are_met && many && reports == 0 && filters == 0 && profiles == 0 && plans == 0;
    Ok(if are_met {
        ExitCode::SUCCESS
    } else {
        ExitCode::FAILURE
    })
}
