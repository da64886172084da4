// Rows of reports: inputs of which a report is made in memory, in five settings, each once more with a sink that fails,
// which changes nothing of the run; what is shown of their lines; and lines with their JUnit file.
use crate::junit::junit_of;
use crate::made::{Made, report_of, shown_of};
use std::fs::Files;
use std::io::Write;
use std::{fs, io};

// What is to be shown of the lines of a row whose report is this.
fn wanted_of<X: AllocGlobal + Files + Copy>(
    rt: &X,
    name: &str,
    report: &[u8],
    variant: u32,
) -> io::Result<Vec<u8>> {
    match fs::read(rt, format!(in rt.alloc(); "{name}.{variant}.shown")?) {
        Ok(shown) => Ok(shown),
        Err(_) => Ok(Vec::from_slice(rt.alloc(), report)?),
    }
}

// Whether what is shown of the lines of a row is its report. Prints it where it isn't.
fn is_shown<X: AllocGlobal + Files + Print + Copy>(
    rt: &X,
    name: &str,
    lines: &[u8],
    report: &[u8],
    variant: u32,
) -> io::Result<bool> {
    let wanted = wanted_of(rt, name, report, variant)?;
    let Some(shown) = shown_of(rt.alloc(), lines, variant) else {
        println!(rt; "{name} {variant}: not shown")?;
        return Ok(false);
    };
    if shown.as_slice() == wanted.as_slice() {
        return Ok(true);
    }
    println!(rt; "{name} {variant}: SHOWN OTHERWISE:")?;
    io::writer(rt).write_all(shown.as_slice())?;
    Ok(false)
}

// Whether the report of a row is the one that is wanted in a setting. Prints it where it isn't.
fn is_made<X: AllocGlobal + Files + Print + Copy>(
    rt: &X,
    name: &str,
    input: &[u8],
    variant: u32,
) -> io::Result<bool> {
    let wanted = fs::read(rt, format!(in rt.alloc(); "{name}.{variant}.report")?)?;
    let Some(Made { lines, report, .. }) = report_of(rt.alloc(), input, variant, None) else {
        println!(rt; "{name} {variant}: no report")?;
        return Ok(false);
    };
    if report.as_slice() == wanted.as_slice() {
        return is_shown(rt, name, lines.as_slice(), wanted.as_slice(), variant);
    }
    println!(rt; "{name} {variant}: DIFFERS, and this was written:")?;
    io::writer(rt).write_all(report.as_slice())?;
    Ok(false)
}

// Whether a report whose sink fails is cut there and changes nothing of its run.
fn is_cut<X: AllocGlobal + Files + Print + Copy>(
    rt: &X,
    name: &str,
    input: &[u8],
) -> io::Result<bool> {
    let whole = report_of(rt.alloc(), input, 0, None);
    let cut = report_of(rt.alloc(), input, 0, Some(2));
    let (Some(whole), Some(cut)) = (whole, cut) else {
        println!(rt; "{name}: no report")?;
        return Ok(false);
    };
    let is_front = whole.report.as_slice().starts_with(cut.report.as_slice());
    let is_silent = cut.is_silent && !whole.is_silent && cut.report.len() < whole.report.len();
    if is_front && is_silent && cut.lines.as_slice() == whole.lines.as_slice() {
        return Ok(true);
    }
    println!(rt; "{name}: NOT CUT at a failed write")?;
    Ok(false)
}

// Whether a row is as it is to be.
fn is_met<X: AllocGlobal + Files + Print + Copy>(rt: &X, name: &str) -> io::Result<bool> {
    let input = fs::read(rt, format!(in rt.alloc(); "{name}.in")?)?;
    let mut is_right = is_cut(rt, name, input.as_slice())?;
    for variant in 0..5u32 {
        if !is_made(rt, name, input.as_slice(), variant)? {
            is_right = false;
        }
    }
    if is_right {
        println!(rt; "{name}: ok")?;
    }
    Ok(is_right)
}

// Whether the JUnit file of a row is the one that is wanted, and there is none where its sink fails. Prints it where it
// isn't.
fn is_junit<X: AllocGlobal + Files + Print + Copy>(rt: &X, name: &str) -> io::Result<bool> {
    let lines = fs::read_to_string(rt, format!(in rt.alloc(); "{name}.lines")?)?;
    let wanted = fs::read(rt, format!(in rt.alloc(); "{name}.junit")?)?;
    let failed = junit_of(rt.alloc(), lines.as_str(), Some(1));
    let made = junit_of(rt.alloc(), lines.as_str(), None);
    let (Some(made), None) = (made, failed) else {
        println!(rt; "{name}: no JUnit file")?;
        return Ok(false);
    };
    if made.as_slice() == wanted.as_slice() {
        println!(rt; "{name}: JUnit ok")?;
        return Ok(true);
    }
    println!(rt; "{name}: JUnit DIFFERS, and this was written:")?;
    io::writer(rt).write_all(made.as_slice())?;
    Ok(false)
}

/// How many rows of reports and of JUnit files aren't met. Prints each.
pub fn reports_unmet<X: AllocGlobal + Files + Print + Copy>(rt: &X) -> io::Result<u64> {
    let mut unmet = 0u64;
    let names = fs::read_to_string(rt, "reports.txt")?;
    for name in names.lines() {
        if !is_met(rt, name)? {
            unmet = unmet.saturating_add(1);
        }
    }
    let names = fs::read_to_string(rt, "junit.txt")?;
    for name in names.lines() {
        if !is_junit(rt, name)? {
            unmet = unmet.saturating_add(1);
        }
    }
    Ok(unmet)
}
