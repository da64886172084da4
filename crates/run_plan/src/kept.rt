// Which tests stand in the part that the words name.
ghost use Rattle.std.specs.Prelude.{◌≡◌, [], IfOk, map, true};
ghost use Rattle.run_filter.specs.Partition.{parted};
ghost use Rattle.run_plan.specs.Planned.{candidate_of, kept_tests};
ghost use Rattle.run_plan.specs.Rows.{asked_row, parting_view};

use crate::choices::{Part, Picks};
use crate::reasons::passes;
use crate::rows::AskedRow;
use run_capture::Mem;
use run_filter::{Candidate, parted};
use std::alloc::Global;

// A test as partitions see it.
fn candidate_of<'a>(picks: &Picks, row: &AskedRow<'a>) -> Candidate<'a>
    ensures { parting_view result ≡ parting_view (candidate_of picks.now (asked_row row.now)) }
{
    Candidate {
        binary: row.row.place,
        name: row.row.test.name.as_str(),
        is_ignored: row.row.test.is_ignored,
        passes: passes(picks, row),
    }
}

fn candidates_of<'a>(alloc: Global, picks: &Picks, rows: &[AskedRow<'a>]) -> Mem<Vec<Candidate<'a>>>
    ensures { IfOk result (λ cs. map parting_view cs.items
        ≡ map parting_view (map (candidate_of picks.now) (map asked_row rows.now))) }
{
    let mut candidates = Vec::with_capacity(alloc, rows.len())?;
    for row in rows {
        candidates.push(candidate_of(picks, row))?;
    }
    Ok(candidates)
}

// Where the words name no part, each test stays.
fn stays(_row: &AskedRow<'_>) -> bool
    ensures { result ≡ true }
{
    true
}

fn all_kept(alloc: Global, rows: &[AskedRow<'_>]) -> Mem<Vec<bool>>
    ensures { IfOk result (λ kept. kept.items ≡ map (λ row. true) (map asked_row rows.now)) }
{
    let mut kept = Vec::with_capacity(alloc, rows.len())?;
    for row in rows {
        kept.push(stays(row))?;
    }
    Ok(kept)
}

// Of each test whether it stands in a part.
fn kept_in(alloc: Global, part: &Part, picks: &Picks, rows: &[AskedRow<'_>]) -> Mem<Vec<bool>>
    ensures { IfOk result (λ kept. kept.items ≡ parted part.now.0 part.now.1 part.now.2 []
        (map (candidate_of picks.now) (map asked_row rows.now))) }
{
    let candidates = candidates_of(alloc, picks, rows)?;
    let kept = parted(alloc, &part.partition, &candidates)?;
    Ok(kept)
}

/// Of each test whether it stands in the part, where the words name one.
pub(crate) fn kept_tests(alloc: Global, picks: &Picks, rows: &[AskedRow<'_>]) -> Mem<Vec<bool>>
    ensures { IfOk result (λ kept. kept.items ≡ kept_tests picks.now.partition picks.now (map asked_row rows.now)) }
{
    match &picks.partition {
        None => all_kept(alloc, rows),
        Some(part) => kept_in(alloc, part, picks, rows),
    }
}
