// Copies of several parts at once.
ghost use Rattle.std.specs.Prelude.{◌≡◌, IfOk, Ok};

use run_capture::{Mem, OutOfMemory};

/// Both, where there was memory for both. So a copy of many parts leaves in one place.
pub fn both<A: Drop, B: Drop>(first: Mem<A>, second: Mem<B>) -> Mem<(A, B)>
    ensures first { IfOk result (λ pair. first ≡ Ok pair.0) }
    ensures second { IfOk result (λ pair. second ≡ Ok pair.1) }
{
    match (first, second) {
        (Ok(first), Ok(second)) => Ok((first, second)),
        _ => Err(OutOfMemory),
    }
}
