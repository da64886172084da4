// What each thread begins with.
ghost use Rattle.std.specs.Prelude.{◌≡◌, [], IfOk, vec_len};
ghost use Rattle.std.specs.List.{All};
ghost use Rattle.run_live.specs.Work.{IsOneEmpty, IsFresh};

use run_capture::{List, Mem, OutOfMemory};
use run_drive::Host;
use run_shared::Receipt;
use std::alloc::Global;
use std::sync::ledger::{Ledger, Share};

// What a worker's thread begins with: its spawner, its share, and the word by which units decide.
#[derive(Drop)]
pub(crate) struct Job<L: Ledger, W> {
    pub(crate) worker: W,
    pub(crate) share: Share<L>,
    pub(crate) word: u32,
}

/// What the ticker's thread begins with, and the receipts that its share has counted already.
#[derive(Drop)]
pub struct TickJob<L: Ledger, T> {
    pub ticker: T,
    pub share: Share<L>,
    pub word: u32,
    pub first: List<Receipt>,
}

// A job for each share.
pub(crate) fn make_jobs<H: Host, L: Ledger>(
    alloc: Global,
    host: &mut H,
    shares: Vec<Share<L>>,
) -> Mem<Vec<Job<L, H::Worker>>>
    requires { All (λ (s : Share L). IsOneEmpty s.parts s.amount) shares.items }
    ensures count { IfOk result (λ jobs. vec_len jobs ≡ vec_len shares) }
    ensures each { IfOk result (λ jobs. All (IsFresh H.Worker.has_said) jobs.items) }
{
    let Ok(mut jobs) = Vec::with_capacity(alloc, shares.len()) else {
        drop(shares);
        return Err(OutOfMemory);
    };
    for share in shares {
        let worker = host.spawner();
        let word = host.word();
        jobs.push_reserved(Job {
            worker,
            share,
            word,
        });
    }
    Ok(jobs)
}
