// The finished tests that are shown again at an end.
ghost use Rattle.std.specs.Prelude.{◌≡◌, ◌≤◌, ◌++◌, IfOk, OnOk, length};
ghost use Rattle.std.specs.List.{insert};
ghost use Rattle.run_report.specs.Heard.{id_behind, placed};
ghost use Rattle.run_report.specs.Kept.{kept_after, kept_behind, kept_bytes, kept_for};
ghost use Rattle.run_report.specs.declared.kept.Kept.{Kept as TheKept};

use crate::ReportSettings;
use crate::finished::{is_kept, kept_shown};
use crate::shown::Shown;
use run_capture::{Duplicate, List, Mem};
use run_events::{TestFinished, TestInstanceId};
use std::alloc::Global;
use std::mem;

/// A finished test, and what is shown of it at the next end.
#[derive(Drop)]
pub(crate) struct Kept {
    pub id: TestInstanceId,
    pub shown: Shown,
}

// Whether the second of two tests stands behind the first.
fn id_behind(first: &TestInstanceId, second: &TestInstanceId) -> bool
    ensures { result ≡ id_behind first.now second.now }
{
    let binaries = first.binary.cmp(&second.binary);
    let names = first.name.cmp(&second.name);
    binaries.then(names).is_lt()
}

// The place of a test: before those at the end that all stand behind it.
fn place_of(kept: &[Kept], id: &TestInstanceId) -> usize
    ensures within { result ≤ length kept.now }
    ensures place { (test : TheKept) → test.id ≡ id.now
        → insert kept.now result test ≡ placed kept_behind test kept.now }
{
    let mut at = kept.len();
    while at > 0 && id_behind(id, &kept[at - 1].id) {
        at -= 1;
    }
    at
}

// Puts a test into its place.
fn put(alloc: Global, kept: &mut List<Kept>, test: Kept) -> Mem<()>
    ensures { OnOk result (kept.new ≡ placed kept_behind test kept.old) }
{
    let mut list = mem::replace(kept, List::new()).into_vec(alloc);
    let at = place_of(list.as_slice(), &test.id);
    list.insert(at, test)?;
    *kept = List::from_vec(list);
    Ok(())
}

// What is kept of a finished test.
fn kept_for(alloc: Global, settings: &ReportSettings, told: &TestFinished) -> Mem<Kept>
    ensures { IfOk result (λ kept. kept ≡ kept_for settings.now told.now) }
{
    let id = told.finish.test.id.copy(alloc)?;
    let shown = kept_shown(alloc, settings, told)?;
    Ok(Kept { id, shown })
}

/// Keeps a finished test, where it is shown again at the next end.
pub(crate) fn keep(
    alloc: Global,
    settings: &ReportSettings,
    kept: &mut List<Kept>,
    told: &TestFinished,
) -> Mem<()>
    ensures { OnOk result (kept.new ≡ kept_after settings.now kept.old told.now) }
{
    if !is_kept(settings, &told.finish) {
        return Ok(());
    }
    let test = kept_for(alloc, settings, told)?;
    put(alloc, kept, test)
}

/// Adds what is shown of them.
pub(crate) fn push_kept(alloc: Global, shown: &mut Shown, kept: &[Kept]) -> Mem<()>
    ensures { OnOk result (shown.new ≡ shown.old ++ kept_bytes kept.now) }
{
    for test in kept {
        shown.append(alloc, &test.shown)?;
    }
    Ok(())
}
