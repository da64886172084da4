//! What one worker of a shared run does, and the ticker beside it: a worker takes a start, asks its spawner for it, and
//! offers what the spawner says; the ticker offers the time that goes by. Spawners, tickers and hosts are traits, with
//! implementations in memory. What a worker's receipts and refusals tell of children is what its spawner said, no more
//! and no less, and each child is heard out. The layer above runs any number of workers and the ticker on threads of
//! their own.
#![tactic(auto)]

mod awaited;
mod driving;
mod given;
mod host;
mod listening;
mod memory_host;
mod memory_spawner;
mod settling;
mod spawner;
mod ticking;
mod work;

pub use awaited::Awaited;
pub use driving::drive;
pub use host::{Host, Ticker};
pub use memory_host::{MemoryHost, MemoryTicker};
pub use memory_spawner::MemorySpawner;
pub use settling::wind;
pub use spawner::{Begun, Heard, Said, Spawner};
pub use ticking::tick;
pub use work::Work;
