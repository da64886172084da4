// What a shared run begins with.
ghost use Rattle.std.specs.Prelude.{◌≡◌, [], IfOk, vec_len};
ghost use Rattle.std.specs.List.{All};
ghost use Rattle.run_engine.specs.Standing.{sound};

use run_capture::{Duplicate, Mem, OutOfMemory, Whole};
use run_engine::{Run, TestRunner};
use run_events::Settings;
use std::alloc::Global;
use std::sync::ledger::{Blank, Book, Ledger, Share};

// Cuts a share into as many as there are workers, each of one part.
fn split<L: Ledger>(alloc: Global, all: Share<L>, workers: u64) -> Mem<Vec<Share<L>>>
    requires parts { all.parts ≡ workers }
    requires empty { all.amount ≡ 0 }
    ensures count { IfOk result (λ shares. vec_len shares ≡ workers) }
    ensures each { IfOk result (λ shares. All (λ (s : Share L). (s.parts ≡ 1) × (s.amount ≡ 0)) shares.items) }
{
    let mut rest = all;
    let mut shares = Vec::with_capacity(alloc, workers as usize)?;
    for _ in 0..workers {
        shares.push(rest.split_off(1, 0))?;
    }
    Ok(shares)
}

// What a shared run begins with.
#[derive(Drop)]
pub(crate) struct Begun<L: Ledger> {
    pub(crate) settings: Whole<Settings>,
    pub(crate) run: Run,
    pub(crate) book: Book<L>,
    pub(crate) rest: Share<L>,
    pub(crate) shares: Vec<Share<L>>,
}

// A run that has taken no turn, with a copy of its settings.
fn run_of(alloc: Global, runner: TestRunner) -> Mem<(Whole<Settings>, Run)>
    ensures settings { IfOk result (λ r. r.0 ≡ runner) }
    ensures run { IfOk result (λ r. r.1 ≡ sound runner []) }
{
    let settings = match runner.settings().copy(alloc) {
        Ok(settings) => Whole::new(settings),
        Err(error) => {
            drop(runner);
            return Err(error);
        }
    };
    match runner.into_run(alloc) {
        Ok(run) => Ok((settings, run)),
        Err(error) => {
            drop(settings);
            Err(error)
        }
    }
}

// What a run of this runner begins with, and a share of one part for each worker.
pub(crate) fn begin<L: Ledger>(
    alloc: Global,
    runner: TestRunner,
    workers: u64,
    blank: Blank,
) -> Mem<Begun<L>>
    requires name { blank.name ≡ L.name }
    requires parts { blank.parts ≡ L.parts }
    requires workers { blank.parts ≡ workers }
    ensures settings { IfOk result (λ b. b.settings ≡ runner) }
    ensures run { IfOk result (λ b. b.run ≡ sound runner []) }
    ensures book { IfOk result (λ b. b.book.total ≡ 0) }
    ensures rest { IfOk result (λ b. b.rest.parts ≡ 0) }
    ensures count { IfOk result (λ b. vec_len b.shares ≡ workers) }
    ensures each { IfOk result (λ b. All (λ (s : Share L). (s.parts ≡ 1) × (s.amount ≡ 0)) b.shares.items) }
{
    let (book, mut all) = blank.open::<L>();
    let rest = all.empty();
    let Ok(shares) = split(alloc, all, workers) else {
        drop(runner);
        return Err(OutOfMemory);
    };
    let Ok((settings, run)) = run_of(alloc, runner) else {
        drop(shares);
        return Err(OutOfMemory);
    };
    Ok(Begun {
        settings,
        run,
        book,
        rest,
        shares,
    })
}
