//! A run that threads share: one lock round the run with its asks and its reporter, shares of a ledger that count the
//! turns that were taken, receipts, refusals, and orders to hand on what the run asks.
#![tactic(auto)]

mod asking;
mod beginning;
mod closing;
mod locked;
mod offered;
mod order_check;
mod orders;
mod receipts;
mod same;
mod same_commands;
mod same_plan;
mod same_settings;
mod shared;
mod turns;

pub use closing::{CloseError, CloseKind};
pub use locked::Locked;
pub use offered::{Offered, Refusal, RefusalKind};
pub use order_check::{OrderFault, check_orders};
pub use orders::{Errand, Halt, Order};
pub use receipts::check;
pub use same::Same;
pub use shared::{Closed, Receipt, SharedRun, Unclosed};
pub use turns::same_turn;
