// A request to each unit that was let go and isn't over.
ghost use Rattle.std.specs.Prelude.{◌≡◌, ◌<◌, ◌^◌, OnOk, OnErr, None, length, map, count_by, option_map};
ghost use Rattle.run_model.specs.Unit.{reached};
ghost use Rattle.run_model.specs.Board.{reach_all};
ghost use Rattle.run_model.specs.Turns.{live_in};
ghost use Rattle.run_state.specs.Counted.{holders_in, holds_asked, is_left, is_working};
ghost use Rattle.run_state.specs.Placed.{is_no_script};

use crate::units::Units;
use run_capture::Mem;
use run_events::Request;
use run_unit::Unit;
use std::alloc::Global;

// A unit is reached, where it is live.
fn reach(alloc: Global, unit: &mut Option<Unit>, request: Request) -> Mem<()>
    ensures ok { OnOk result (unit.new ≡ option_map (reached request) unit.old) }
    ensures err { OnErr result (unit.new ≡ unit.old) }
{
    match unit {
        Some(unit) if unit.is_live() => unit.request(alloc, request),
        _ => Ok(()),
    }
}

/// Each of some units is reached. After want of memory some of them were.
pub fn reach_each(alloc: Global, units: &mut [Option<Unit>], request: Request) -> Mem<()>
    ensures ok { OnOk result (units.new ≡ map (option_map (reached request)) units.old) }
    ensures scripts { map is_no_script units.new ≡ map is_no_script units.old }
    ensures left { count_by is_left units.new ≡ count_by is_left units.old }
    ensures live { live_in units.new ≡ live_in units.old }
    ensures working { map is_working units.new ≡ map is_working units.old }
    ensures count { length units.new ≡ length units.old }
{
    for unit in units.iter_mut() {
        reach(alloc, unit, request)?;
    }
    Ok(())
}

/// Whether a unit has in its line what the open round asks.
pub fn holds_asked(unit: &Option<Unit>, asks: Option<Request>) -> bool
    ensures { result ≡ holds_asked asks unit.now }
{
    match (unit, asks) {
        (Some(unit), Some(request)) => unit.holds(request),
        _ => false,
    }
}

/// How many of some units have in their lines what the open round asks.
pub fn holders(units: &[Option<Unit>], asks: Option<Request>) -> u32
    requires { length units.now < 2 ^ 32 }
    ensures { result ≡ holders_in asks units.now }
{
    units.iter().filter(|unit| holds_asked(unit, asks)).count() as u32
}

/// A request, if there is one, reaches each unit. Those that have in their lines what the open round asks are counted
/// anew, also after want of memory.
pub fn broadcast(
    alloc: Global,
    units: &mut Units,
    count: &mut u32,
    asks: Option<Request>,
    request: Option<Request>,
) -> Mem<()>
    requires counted { request ≡ None → count.old ≡ holders_in asks units.old }
    ensures after { OnOk result (units.new ≡ reach_all request units.old) }
    ensures scripts { map is_no_script units.new ≡ map is_no_script units.old }
    ensures counted { count.new ≡ holders_in asks units.new }
{
    match request {
        Some(request) => {
            let reached = units.broadcast(alloc, request);
            *count = units.holders(asks);
            reached
        }
        None => Ok(()),
    }
}
