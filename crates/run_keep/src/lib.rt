//! What one worker of a shared run does where asked signals are sent, and beside it who hears the outside and who ends
//! rounds: a worker takes a start, asks its keeper for it, hands the keeper each signal that is asked of the unit while
//! its child runs, and offers what the keeper tells until it is taken. Keepers, outsides and halters are traits, with
//! implementations in memory. The layer above runs them on threads of their own.
#![tactic(auto)]

mod access;
mod adding;
mod beats;
mod halting;
mod handing;
mod hearing;
mod host;
mod keeper;
mod keeping;
mod kept;
mod listened;
mod memory_keeper;
mod memory_keeper_host;
mod memory_outside;
mod outside;
mod rounds;
mod saying;
mod threads;
mod turns;

pub use beats::Beats;
pub use host::KeeperHost;
pub use keeper::{Heard, Keeper, Sent};
pub use kept::Kept;
pub use listened::{Dropped, Listened};
pub use memory_keeper::{Child, Line, MemoryKeeper};
pub use memory_keeper_host::MemoryKeeperHost;
pub use memory_outside::{Cue, MemoryHalter, MemoryOutside};
pub use outside::{Came, Halter, Outside};
pub use rounds::{Round, Ticked};
pub use threads::{hear, keep, tick_rounds};
