// The order in which tests come.
ghost use Rattle.std.specs.Prelude.{◌≡◌, ◌<◌, ℕ, length, slice_index, IfOk};
ghost use Rattle.run_admission.specs.Kept.{nobody};
ghost use Rattle.run_admission.specs.Ordered.{IsOrder, IsRanking, at_places};

use crate::seat::Claim;
use run_capture::Mem;
use std::alloc::Global;
use std::cmp::Reverse;

// The tests, each behind its priority, in order.
fn ranked(alloc: Global, claims: &[Claim]) -> Mem<Vec<(Reverse<i8>, usize)>>
    ensures { IfOk result (λ v. IsRanking claims.now v.items) }
{
    let mut ranked = Vec::new(alloc);
    for (test, claim) in claims.iter().enumerate() {
        ranked.push((Reverse(claim.priority), test))?;
    }
    ranked.sort_unstable();
    Ok(ranked)
}

/// The tests by descending priority, and those of equal priority in plan order.
pub fn order_of(alloc: Global, claims: &[Claim]) -> Mem<Vec<usize>>
    ensures { IfOk result (λ v. IsOrder claims.now v.items) }
{
    let ranked = ranked(alloc, claims)?;
    let mut order = Vec::new(alloc);
    for rank in &ranked {
        order.push(rank.1)?;
    }
    Ok(order)
}

/// What the tests claim, in this order.
pub fn claims_in(alloc: Global, claims: &[Claim], order: &[usize]) -> Mem<Vec<Claim>>
    requires { (r : ℕ) → r < length order.now → slice_index order.now r < length claims.now }
    ensures { IfOk result (λ v. v.items ≡ at_places nobody.0 claims.now order.now) }
{
    let mut ordered = Vec::new(alloc);
    for test in order {
        ordered.push(claims[*test])?;
    }
    Ok(ordered)
}
