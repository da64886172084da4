// What a run leaves once all threads have ended.
ghost use Rattle.std.specs.Prelude.{◌≡◌, ◌≢◌, ◌+◌, ◌<◌, ℕ, IfOk, IfErr, IfSome, IsSome, IsNone, None, length};
ghost use Rattle.std.specs.List.{All, sum_by};
ghost use Rattle.run_model.specs.Words.{times};
ghost use Rattle.run_shared.specs.Receipts.{concatenated, receipt_numbers, StandsIn};
ghost use Rattle.run_shared.specs.Closed.{IsLeft, IsLeftUnclosed, Refuses};
ghost use Rattle.run_shared.specs.Orders.{Delivers, IsOrderFault};
ghost use Rattle.run_laws.specs.Course.{turns_of};
ghost use Rattle.run_live.specs.Left.{HasToldSome, HasTakenSome};
ghost use Rattle.run_whole.specs.Whole.{handed, order_fault, receipts_error};

use crate::closing::{Ran, close_run, report_ran};
use crate::delivering::judge;
use crate::left::{Ended, GivenUp, Whole};
use run_capture::List;
use run_events::Reporter;
use run_shared::{CloseError, CloseKind, OrderFault, Receipt, SharedRun};
use std::alloc::Global;
use std::sync::ledger::{Ledger, Share};

// What a run leaves that was closed so; the reporter alone where memory was wanting.
fn settle<W: Drop, T: Drop, O: Drop, S: Drop, R: Reporter>(
    alloc: Global,
    threads: Ended<W, T, O, S>,
    run: Ran<R>,
    error: Option<CloseError>,
) -> Result<Whole<W, T, O, S, R>, GivenUp<R>>
    requires told { HasToldSome R.told run.report }
    requires turns { HasTakenSome R.taken run.report }
    ensures same { IfOk result
        (λ w. (w.threads ≡ threads) × (w.run ≡ run) × (receipts_error w.error ≡ error)) }
    ensures delivers { IfOk result (λ w. IsNone w.error
        → Delivers w.run.asks (handed w.threads.workers.orders w.threads.ear.halts)) }
    ensures undelivered { IfOk result (λ w. IfSome (order_fault w.error)
        (IsOrderFault w.run.asks (handed w.threads.workers.orders w.threads.ear.halts))) }
    ensures fault_kind { IfOk result (λ w. IfSome (order_fault w.error) (λ f. f ≢ OrderFault.OutOfMemory)) }
    ensures given_up { IfErr result (λ g. HasToldSome R.told g.report) }
    ensures turns_given_up { IfErr result (λ g. HasTakenSome R.taken g.report) }
    ensures not_cut_off { IfErr result (λ g. g.cut_off ≡ None) }
{
    let orders = &threads.workers.orders;
    match judge(alloc, &run.asks, orders, &threads.ear.halts, error) {
        Ok(error) => Ok(Whole {
            threads,
            run,
            error,
        }),
        Err(_) => {
            drop(threads);
            Err(GivenUp {
                report: report_ran(run),
                cut_off: None,
            })
        }
    }
}

// Closes a run, and looks whether the receipts are those of its journal and each thing asked was handed on once; the
// reporter alone where memory was wanting.
pub(crate) fn finish<W: Drop, T: Drop, O: Drop, S: Drop, L: Ledger, R: Reporter>(
    alloc: Global,
    shared: SharedRun<L, R>,
    threads: Ended<W, T, O, S>,
    shares: Vec<Share<L>>,
    receipts: List<List<Receipt>>,
) -> Result<Whole<W, T, O, S, R>, GivenUp<R>>
    requires parts { sum_by (λ (s : Share L). s.parts) shares.items ≡ L.parts }
    requires amounts { sum_by (λ (s : Share L). s.amount) shares.items ≡ length (concatenated receipts) }
    ensures same { IfOk result (λ w. (w.threads ≡ threads) × (w.run.receipts ≡ receipts)) }
    ensures left { IfOk result (λ w. IsNone (receipts_error w.error)
        → IsLeft R.told w.run.report w.run.asks shared w.run.journal w.run.outcome) }
    ensures once { IfOk result (λ w. IsNone (receipts_error w.error) → (k : ℕ) → k < length w.run.journal
        → times k (receipt_numbers (concatenated w.run.receipts)) ≡ 1) }
    ensures stands { IfOk result (λ w. IsNone (receipts_error w.error)
        → All (StandsIn w.run.journal) (concatenated w.run.receipts)) }
    ensures delivers { IfOk result (λ w. IsNone w.error
        → Delivers w.run.asks (handed w.threads.workers.orders w.threads.ear.halts)) }
    ensures undelivered { IfOk result (λ w. IfSome (order_fault w.error)
        (IsOrderFault w.run.asks (handed w.threads.workers.orders w.threads.ear.halts))) }
    ensures refused { IfOk result (λ w. IfSome (receipts_error w.error)
        (λ e. Refuses shared w.run.journal (concatenated w.run.receipts) e.kind)) }
    ensures kind { IfOk result (λ w. IfSome (receipts_error w.error) (λ e. e.kind ≢ CloseKind.OutOfMemory)) }
    ensures fault_kind { IfOk result (λ w. IfSome (order_fault w.error) (λ f. f ≢ OrderFault.OutOfMemory)) }
    ensures left_too { IfOk result (λ w. IfSome (receipts_error w.error)
        (λ e. IsLeftUnclosed R.told w.run.report w.run.asks shared w.run.journal e.kind)) }
    ensures no_outcome { IfOk result (λ w. IsSome (receipts_error w.error) → w.run.outcome ≡ None) }
    ensures turns { IfOk result (λ w. R.taken w.run.report (turns_of w.run.journal)) }
    ensures given_up { IfErr result (λ g. HasToldSome R.told g.report) }
    ensures turns_given_up { IfErr result (λ g. HasTakenSome R.taken g.report) }
    ensures not_cut_off { IfErr result (λ g. g.cut_off ≡ None) }
{
    match close_run(alloc, shared, shares, receipts) {
        Ok((run, error)) => settle(alloc, threads, run, error),
        Err(report) => {
            drop(threads);
            Err(GivenUp {
                report,
                cut_off: None,
            })
        }
    }
}
