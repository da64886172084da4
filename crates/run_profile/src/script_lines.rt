// The order in which a file says its setup scripts.
ghost use Rattle.std.specs.Prelude.{◌≡◌, ◌≤◌, ◌<◌, length, option_map, take, true, IfOk};
ghost use Rattle.toml.specs.Parse.{parse_document};
ghost use Rattle.toml.specs.View.{members_view, table_view};
ghost use Rattle.run_profile.specs.ScriptOrder.{document_setup, is_after_line, script_order, unseen_names};
ghost use Rattle.run_profile.specs.ScriptOrder.{unseen_scripts, with_line_end, with_next};
ghost use Rattle.run_profile.specs.Time.{one_of};
ghost use Rattle.std.specs.Prelude.{Some};

use crate::levels::root_at;
use crate::lists::appended;
use run_capture::{List, Mem, OutOfMemory, Text};
use std::alloc::Global;
use toml::Table;

// The setup scripts of a file.
fn setup_in(table: &Table) -> Option<&Table>
    ensures { option_map (λ t. table_view t.now) result ≡ document_setup (Some (table_view table.now)) }
{
    match root_at(table, "scripts") {
        Some(scripts) => match scripts.get("setup") {
            Some(setup) => setup.as_table(),
            None => None,
        },
        None => None,
    }
}

fn is_among(name: &str, seen: &[Text]) -> bool
    ensures { result ≡ one_of name.now seen.now }
{
    seen.iter().any(|other| name == other.as_str())
}

// The names of members that aren't among those seen.
fn unseen_names(alloc: Global, seen: &[Text], members: &Table) -> Mem<List<Text>>
    ensures { IfOk result (λ l. l ≡ unseen_names seen.now (members_view members.now.entries)) }
{
    let mut names = List::new();
    for (name, _) in members.iter() {
        if !is_among(name.as_str(), seen) {
            let name = Text::from_str(alloc, name.as_str())?;
            names.push(alloc, name)?;
        }
    }
    Ok(names)
}

// The names of the setup scripts of a text that aren't among those seen; none where it is no document.
fn unseen_scripts(alloc: Global, seen: &[Text], text: &str) -> Mem<List<Text>>
    ensures { IfOk result (λ l. l ≡ unseen_scripts seen.now (document_setup (parse_document text.now))) }
{
    let table = match toml::table_from_str(alloc, text) {
        Ok(table) => table,
        Err(error) => {
            if error.is_memory() {
                return Err(OutOfMemory);
            }
            return Ok(List::new());
        }
    };
    match setup_in(&table) {
        Some(members) => unseen_names(alloc, seen, members),
        None => Ok(List::new()),
    }
}

// One name more, or none; of two the order isn't known.
fn with_next(alloc: Global, seen: List<Text>, next: List<Text>) -> Mem<Option<List<Text>>>
    ensures { IfOk result (λ r. r ≡ with_next seen next) }
{
    if next.len() <= 1 {
        Ok(Some(appended(alloc, seen, next)?))
    } else {
        Ok(None)
    }
}

// Whether a line ends before a place.
fn is_after_line(text: &[u8], place: usize) -> bool
    requires some { 0 < place }
    requires within { place ≤ length text.now }
    ensures { result ≡ is_after_line text.now place }
{
    text[place - 1] == b'\n' || place == text.len()
}

// The text up to a place, after a line.
#[tactic(auto, using(crate::proofs::ScriptOrderLemmas::cut_after_line))]
fn front(text: &str, place: usize) -> &str
    requires some { 0 < place }
    requires within { place ≤ length text.now }
    requires after { is_after_line text.now place ≡ true }
    ensures { result.now ≡ take place text.now }
{
    &text[..place]
}

// The scripts seen, and then those that a line brings which ends before a place.
fn with_line_end(
    alloc: Global,
    text: &str,
    place: usize,
    seen: List<Text>,
) -> Mem<Option<List<Text>>>
    requires some { 0 < place }
    requires within { place ≤ length text.now }
    ensures { IfOk result (λ r. r ≡ with_line_end text.now place seen) }
{
    if !is_after_line(text.as_bytes(), place) {
        return Ok(Some(seen));
    }
    let next = unseen_scripts(alloc, seen.as_slice(), front(text, place))?;
    with_next(alloc, seen, next)
}

/// The names of the setup scripts of a file in the order in which its lines bring them: a line brings a script where
/// the file up to that line's end is a document that has it, and up to no line before. None where a line brings two,
/// as a table in braces may: their order isn't known. It reads the file up to each line anew.
#[tactic(auto, unfolding(crate::specs::ScriptOrder::script_order), using(crate::proofs::ScriptOrderLemmas::order_more, crate::proofs::ScriptOrderLemmas::order_unknown, crate::proofs::ScriptOrderLemmas::order_done))]
pub fn script_order(alloc: Global, text: &str) -> Mem<Option<List<Text>>>
    ensures { IfOk result (λ r. r ≡ script_order text.now) }
{
    let mut seen = List::new();
    let mut place = 0usize;
    while place < text.len() {
        place += 1;
        match with_line_end(alloc, text, place, seen)? {
            Some(more) => seen = more,
            None => return Ok(None),
        }
    }
    Ok(Some(seen))
}
