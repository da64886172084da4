// Whether each signal and each stop that was asked was handed on once.
ghost use Rattle.std.specs.Prelude.{◌≡◌, ◌≢◌, IfOk, IfErr, IfSome, IsNone};
ghost use Rattle.run_shared.specs.Orders.{Delivers, IsOrderFault};
ghost use Rattle.run_whole.specs.Whole.{handed, order_fault, receipts_error};

use crate::left::WholeError;
use run_capture::{List, Mem, OutOfMemory};
use run_events::AskList;
use run_shared::{CloseError, Halt, Order, OrderFault, check_orders};
use std::alloc::Global;

// What is wrong with orders and halts, if something is.
fn find_fault(
    alloc: Global,
    asks: &AskList,
    orders: &List<List<Order>>,
    halts: &List<Halt>,
) -> Mem<Option<OrderFault>>
    ensures delivers { IfOk result (λ f. IsNone f → Delivers asks.now (handed orders.now halts.now)) }
    ensures fault { IfOk result (λ f. IfSome f (IsOrderFault asks.now (handed orders.now halts.now))) }
    ensures kind { IfOk result (λ f. IfSome f (λ x. x ≢ OrderFault.OutOfMemory)) }
{
    match check_orders(alloc, asks, orders, halts) {
        Ok(()) => Ok(None),
        Err(OrderFault::OutOfMemory) => Err(OutOfMemory),
        Err(fault) => Ok(Some(fault)),
    }
}

// What is wrong with a run that was closed so, with these orders and halts.
pub(crate) fn judge(
    alloc: Global,
    asks: &AskList,
    orders: &List<List<Order>>,
    halts: &List<Halt>,
    error: Option<CloseError>,
) -> Mem<Option<WholeError>>
    ensures receipts { IfOk result (λ e. receipts_error e ≡ error) }
    ensures delivers { IfOk result (λ e. IsNone e → Delivers asks.now (handed orders.now halts.now)) }
    ensures fault { IfOk result (λ e. IfSome (order_fault e)
        (IsOrderFault asks.now (handed orders.now halts.now))) }
    ensures kind { IfOk result (λ e. IfSome (order_fault e) (λ x. x ≢ OrderFault.OutOfMemory)) }
{
    if let Some(error) = error {
        return Ok(Some(WholeError::Receipts { error }));
    }
    match find_fault(alloc, asks, orders, halts)? {
        Some(fault) => Ok(Some(WholeError::Orders { fault })),
        None => Ok(None),
    }
}
