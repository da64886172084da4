// What a chain of stores comes to, and its line.
ghost use Rattle.std.specs.Prelude.{ℕ, ◌≡◌, ◌<◌, List, IfOk, IsSome, length, map, string_bytes};
ghost use Rattle.run_input.specs.Input.{plan_line_of};
ghost use Rattle.run_rerun_cli.specs.Chains.{newest_line};
ghost use Rattle.run_rerun_cli.specs.Shelves.{doing_of, shelf_of};
ghost use Rattle.run_rerun_cli.specs.Comes.{ChainComesTo, LeavesTo, LeavesSome};
ghost use Rattle.run_rerun_cli.specs.Verdicts.{unwritten_status, verdict_status, verdict_text};

use crate::chain::{ChainError, read_chain};
use crate::faults::RerunFault;
use crate::lines::rerun_fault_line;
use crate::stores::Stores;
use run_capture::{Mem, OutOfMemory, Text};
use run_events::TestInstanceId;
use run_rerun::{StoredRun, outstanding, rerun_plan};
use std::alloc::Global;

/// What a chain of stores comes to.
#[derive(Drop)]
pub enum Verdict {
    /// Some tests are outstanding: the plan line of a rerun, without its line feed.
    Rerun(Text),
    /// None is.
    NothingLeft,
    /// The store at this place, from 0, has the first fault.
    Faulty { store: u64, fault: RerunFault },
}

impl Verdict {
    /// The status that goes with its line.
    pub fn status(&self) -> u8
        ensures { result ≡ verdict_status self.now }
    {
        match self {
            Verdict::Rerun(_) => 0,
            Verdict::NothingLeft => 4,
            Verdict::Faulty { fault, .. } => fault.status(),
        }
    }

    /// The status where its line could not be written.
    pub fn unwritten_status(&self) -> u8
        ensures { result ≡ unwritten_status self.now }
    {
        match self {
            Verdict::Rerun(_) | Verdict::NothingLeft => 9,
            Verdict::Faulty { fault, .. } => fault.status(),
        }
    }

    /// Its line, without its line feed.
    pub fn into_line(self, alloc: Global) -> Mem<Text>
        ensures { IfOk result (λ t. t ≡ verdict_text self) }
    {
        match self {
            Verdict::Rerun(line) => Ok(line),
            Verdict::NothingLeft => Text::from_str(alloc, "{\"outstanding\":0}"),
            Verdict::Faulty { store, fault } => rerun_fault_line(alloc, store, fault),
        }
    }
}

// What runs come to that leave these tests outstanding, and of which the newest has this plan line.
fn verdict_on(alloc: Global, line: &[u8], ids: &[TestInstanceId]) -> Mem<Verdict>
    requires { IsSome (plan_line_of line.now) }
    ensures { IfOk result (LeavesSome line.now ids.now) }
{
    if ids.is_empty() {
        return Ok(Verdict::NothingLeft);
    }
    Ok(Verdict::Rerun(rerun_plan(alloc, line, ids)?))
}

// The plan line of the newest run; an empty one, where there is none.
fn newest_line(runs: &[StoredRun]) -> &[u8]
    ensures { result.now ≡ newest_line runs.now }
{
    match runs.last() {
        Some(run) => run.line.as_slice(),
        None => &[],
    }
}

// What the runs of a chain come to.
fn verdict_in(alloc: Global, runs: &[StoredRun]) -> Mem<Verdict>
    requires { IsSome (plan_line_of (newest_line runs.now)) }
    ensures { IfOk result (LeavesTo runs.now) }
{
    let ids = outstanding(alloc, runs)?;
    let verdict = verdict_on(alloc, newest_line(runs), ids.as_slice())?;
    Ok(verdict)
}

/// What the chain of the stores with these names comes to. The first store that has a fault decides, and none after it
/// is opened.
pub fn verdict_of<T: Stores>(alloc: Global, stores: &mut T, names: &[String]) -> Mem<Verdict>
    requires { 0 < length names.now }
    ensures says { ChainComesTo (map (λ w. string_bytes w) names.now) (shelf_of T.Stores stores.old stores.new)
        (doing_of T.Stores stores.old stores.new) result }
    ensures same { (n : List ℕ) → T.bytes stores.new n ≡ T.bytes stores.old n }
{
    match read_chain(alloc, stores, names) {
        Ok(runs) => verdict_in(alloc, runs.as_slice()),
        Err(ChainError::Store { store, fault }) => Ok(Verdict::Faulty { store, fault }),
        Err(ChainError::OutOfMemory) => Err(OutOfMemory),
    }
}
