// What each worker's thread begins with.
ghost use Rattle.std.specs.Prelude.{◌≡◌, [], IfOk, vec_len};
ghost use Rattle.std.specs.List.{All};
ghost use Rattle.run_live.specs.Work.{IsOneEmpty};
ghost use Rattle.run_whole.specs.Work.{IsJobReady};

use run_capture::{Mem, OutOfMemory};
use run_keep::KeeperHost;
use std::alloc::Global;
use std::sync::ledger::{Ledger, Share};

// What a worker's thread begins with: its keeper, its share, and the word by which units decide.
#[derive(Drop)]
pub(crate) struct Job<L: Ledger, W> {
    pub(crate) worker: W,
    pub(crate) share: Share<L>,
    pub(crate) word: u32,
}

// A job for each share.
pub(crate) fn make_jobs<H: KeeperHost, L: Ledger>(
    alloc: Global,
    host: &mut H,
    shares: Vec<Share<L>>,
) -> Mem<Vec<Job<L, H::Worker>>>
    requires { All (λ (s : Share L). IsOneEmpty s.parts s.amount) shares.items }
    ensures count { IfOk result (λ jobs. vec_len jobs ≡ vec_len shares) }
    ensures each { IfOk result (λ jobs. All (IsJobReady H.Worker.has_heard) jobs.items) }
{
    let Ok(mut jobs) = Vec::with_capacity(alloc, shares.len()) else {
        drop(shares);
        return Err(OutOfMemory);
    };
    for share in shares {
        let worker = host.keeper();
        let word = host.word();
        jobs.push_reserved(Job {
            worker,
            share,
            word,
        });
    }
    Ok(jobs)
}
