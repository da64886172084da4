// The clocks at which turns tick.
ghost use Rattle.std.specs.Prelude.{◌≡◌, IfOk};
ghost use Rattle.run_cli.specs.Clocks.{turn_clocks};

use run_capture::{List, Mem};
use run_events::Turn;
use std::alloc::Global;

/// The clock of each turn that ticks, in order.
pub fn turn_clocks(alloc: Global, turns: &[Turn]) -> Mem<List<u64>>
    ensures { IfOk result (λ clocks. clocks ≡ turn_clocks 0 turns.now) }
{
    let mut clocks = List::new();
    let mut now = 0u64;
    for turn in turns {
        match turn {
            Turn::Tick => clocks.push(alloc, now)?,
            Turn::Clock { ns } => now = now.saturating_add(*ns),
            _ => {}
        }
    }
    Ok(clocks)
}
