// Rows of filters, of profiles and of plans: filters with the tests that each holds of or the place of its fault; the
// files of projects with what a profile gives a test or the path of its fault; and files and words with the plan line
// that they make of a list, or the status. What differs is printed.
use crate::filters::filter_row;
use crate::plans::plan_row;
use crate::profiles::profile_row;
use std::fs::Files;
use std::{fs, io};

// Prints what a row gives where it isn't what is wanted, and says whether it is.
fn is_met<X: Print + Copy>(
    rt: &X,
    row: &str,
    wanted: &str,
    given: Option<String>,
) -> io::Result<bool> {
    let Some(given) = given else {
        println!(rt; "{row}: no answer")?;
        return Ok(false);
    };
    if given.as_str() == wanted {
        return Ok(true);
    }
    println!(rt; "{row}: DIFFERS, and this was given: {given}")?;
    Ok(false)
}

fn filter_met<X: AllocGlobal + Print + Copy>(rt: &X, row: &str, tests: &str) -> io::Result<bool> {
    let (filter, wanted) = row.split_once('\t').unwrap_or((row, ""));
    is_met(rt, filter, wanted, filter_row(rt.alloc(), filter, tests))
}

// How many of the rows of filters differ.
fn filters_in<X: AllocGlobal + Print + Copy>(rt: &X, rows: &str, tests: &str) -> io::Result<u64> {
    let mut unmet = 0u64;
    for row in rows.lines() {
        if !filter_met(rt, row, tests)? {
            unmet = unmet.saturating_add(1);
        }
    }
    Ok(unmet)
}

fn filters_unmet<X: AllocGlobal + Files + Print + Copy>(rt: &X) -> io::Result<u64> {
    let tests = fs::read_to_string(rt, "tests.txt")?;
    let rows = fs::read_to_string(rt, "filters.txt")?;
    filters_in(rt, rows.as_str(), tests.as_str())
}

// Reads the file of a row, and what a profile of it gives.
fn given_by<X: AllocGlobal + Files + Copy>(
    rt: &X,
    file: &str,
    profile: &str,
) -> io::Result<Option<String>> {
    let text = fs::read_to_string(rt, format!(in rt.alloc(); "{file}.toml")?)?;
    Ok(profile_row(rt.alloc(), text.as_str(), profile))
}

fn profile_met<X: AllocGlobal + Files + Print + Copy>(rt: &X, row: &str) -> io::Result<bool> {
    let (file, rest) = row.split_once('\t').unwrap_or((row, ""));
    let (profile, wanted) = rest.split_once('\t').unwrap_or((rest, ""));
    is_met(rt, file, wanted, given_by(rt, file, profile)?)
}

// How many of the rows of profiles differ.
fn profiles_in<X: AllocGlobal + Files + Print + Copy>(rt: &X, rows: &str) -> io::Result<u64> {
    let mut unmet = 0u64;
    for row in rows.lines() {
        if !profile_met(rt, row)? {
            unmet = unmet.saturating_add(1);
        }
    }
    Ok(unmet)
}

fn profiles_unmet<X: AllocGlobal + Files + Print + Copy>(rt: &X) -> io::Result<u64> {
    let rows = fs::read_to_string(rt, "profiles.txt")?;
    profiles_in(rt, rows.as_str())
}

fn plan_met<X: AllocGlobal + Print + Copy>(rt: &X, row: &str, list: &str) -> io::Result<bool> {
    let (name, rest) = row.split_once('\t').unwrap_or((row, ""));
    let (file, rest) = rest.split_once('\t').unwrap_or((rest, ""));
    let (words, wanted) = rest.split_once('\t').unwrap_or((rest, ""));
    is_met(rt, name, wanted, plan_row(rt.alloc(), list, file, words))
}

// How many of the rows of plans differ.
fn plans_in<X: AllocGlobal + Print + Copy>(rt: &X, rows: &str, list: &str) -> io::Result<u64> {
    let mut unmet = 0u64;
    for row in rows.lines() {
        if !plan_met(rt, row, list)? {
            unmet = unmet.saturating_add(1);
        }
    }
    Ok(unmet)
}

fn plans_unmet<X: AllocGlobal + Files + Print + Copy>(rt: &X) -> io::Result<u64> {
    let list = fs::read_to_string(rt, "shelf.list.json")?;
    let rows = fs::read_to_string(rt, "plans.txt")?;
    plans_in(rt, rows.as_str(), list.as_str())
}

/// How many rows of filters, of profiles and of plans differ.
pub fn projects_unmet<X: AllocGlobal + Files + Print + Copy>(
    rt: &X,
) -> io::Result<(u64, u64, u64)> {
    let filters = filters_unmet(rt)?;
    let profiles = profiles_unmet(rt)?;
    let plans = plans_unmet(rt)?;
    Ok((filters, profiles, plans))
}
