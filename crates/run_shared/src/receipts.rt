// Whether receipts are those of a journal.
ghost use Rattle.std.specs.Prelude.{◌≡◌, ◌<◌, ◌∷◌, ◌↔◌, ℕ, List as Items, [], length, IfOk, IfErr, OnOk, OnErr, IfSome};
ghost use Rattle.std.specs.Prelude.{IsSome, IsNone};
ghost use Rattle.std.specs.Prelude.{IsTrue, Some, None, replicate, false};
ghost use Rattle.run_shared.specs.Receipts.{concatenated, turn_at, StandsIn, IsFault, HasFault, Looked, Closes};

use crate::closing::CloseKind;
use crate::shared::Receipt;
use crate::turns::same_turn;
use run_capture::{Duplicate, List, Mem};
use run_events::Turn;
use run_model::Entry;
use std::alloc::Global;

// The turn that a journal has at a number.
fn found_at(journal: &[Entry], number: u64) -> Option<&Turn>
    ensures some { IfSome result (λ t. turn_at journal.now number ≡ Some t.now) }
    ensures within { IsSome result → number < length journal.now }
    ensures none { IsNone result → turn_at journal.now number ≡ None }
{
    match journal.get(number as usize) {
        Some(entry) => Some(&entry.turn),
        None => None,
    }
}

// Whether a journal has a receipt's turn at its number.
fn stands(journal: &[Entry], receipt: &Receipt) -> bool
    ensures answer { IsTrue result ↔ StandsIn journal.now receipt.now }
    ensures within { IsTrue result → receipt.now.number < length journal.now }
{
    match found_at(journal, receipt.number()) {
        Some(turn) => same_turn(turn, receipt.turn()),
        None => false,
    }
}

// A copy of the turn that a journal has at a number.
fn copy_at(alloc: Global, journal: &[Entry], number: u64) -> Mem<Option<Turn>>
    ensures { IfOk result (λ o. o ≡ turn_at journal.now number) }
{
    match found_at(journal, number) {
        Some(turn) => Ok(Some(turn.copy(alloc)?)),
        None => Ok(None),
    }
}

// What is wrong with a receipt that doesn't stand in the journal.
fn mismatch(alloc: Global, journal: &[Entry], receipt: &Receipt) -> Mem<CloseKind>
    requires { ¬ StandsIn journal.now receipt.now }
    ensures { IfOk result (λ e. (ns : Items ℕ) → IsFault journal.now ns (receipt.now ∷ []) e) }
{
    let number = receipt.number();
    let found = copy_at(alloc, journal, number)?;
    let copy = receipt.turn().copy(alloc)?;
    Ok(CloseKind::Mismatch {
        number,
        receipt: copy,
        journal: found,
    })
}

// Looks at a receipt, and flags its number.
#[tactic(auto, using(crate::proofs::Marked::looked_one, crate::proofs::Marked::seen_twice))]
fn mark(
    alloc: Global,
    journal: &[Entry],
    seen: &mut [bool],
    receipt: &Receipt,
) -> Result<(), CloseKind>
    requires { length seen.old ≡ length journal.now }
    ensures looked { OnOk result (Looked journal.now seen.old seen.new (receipt.now ∷ [])) }
    ensures fault { IfErr result (HasFault journal.now seen.old (receipt.now ∷ [])) }
{
    if !stands(journal, receipt) {
        let Ok(kind) = mismatch(alloc, journal, receipt) else {
            return Err(CloseKind::OutOfMemory);
        };
        return Err(kind);
    }
    let number = receipt.number();
    let place = number as usize;
    if seen[place] {
        return Err(CloseKind::Repeated { number });
    }
    seen[place] = true;
    Ok(())
}

// The same for a list of receipts.
#[tactic(auto, using(crate::proofs::Marked::looked_none))]
fn mark_list(
    alloc: Global,
    journal: &[Entry],
    seen: &mut [bool],
    list: &[Receipt],
) -> Result<(), CloseKind>
    requires { length seen.old ≡ length journal.now }
    ensures looked { OnOk result (Looked journal.now seen.old seen.new list.now) }
    ensures fault { IfErr result (HasFault journal.now seen.old list.now) }
{
    for receipt in list {
        if let Err(kind) = mark(alloc, journal, seen, receipt) {
            return Err(kind);
        }
    }
    Ok(())
}

// The same for lists of receipts.
#[tactic(auto, using(crate::proofs::Marked::looked_none))]
fn mark_all(
    alloc: Global,
    journal: &[Entry],
    seen: &mut [bool],
    lists: &[List<Receipt>],
) -> Result<(), CloseKind>
    requires { length seen.old ≡ length journal.now }
    ensures looked { OnOk result (Looked journal.now seen.old seen.new (concatenated lists.now)) }
    ensures fault { IfErr result (HasFault journal.now seen.old (concatenated lists.now)) }
{
    for list in lists {
        if let Err(kind) = mark_list(alloc, journal, seen, list.as_slice()) {
            return Err(kind);
        }
    }
    Ok(())
}

// So many flags, none of them set.
pub(crate) fn no_flags(alloc: Global, len: usize) -> Mem<Vec<bool>>
    ensures { IfOk result (λ v. v.items ≡ replicate len false) }
{
    Ok(vec![in alloc; false; len]?)
}

/// Whether receipts are those of a journal: each stands in it, and no number comes twice.
pub fn check(
    alloc: Global,
    journal: &[Entry],
    receipts: &List<List<Receipt>>,
) -> Result<(), CloseKind>
    ensures closes { OnOk result (Closes journal.now (concatenated receipts.now)) }
    ensures fault { IfErr result (IsFault journal.now [] (concatenated receipts.now)) }
{
    let Ok(mut seen) = no_flags(alloc, journal.len()) else {
        return Err(CloseKind::OutOfMemory);
    };
    if let Err(kind) = mark_all(alloc, journal, seen.as_mut_slice(), receipts.as_slice()) {
        return Err(kind);
    }
    Ok(())
}
