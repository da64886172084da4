// What of the units of a run is forgotten.
ghost use Rattle.std.specs.Prelude.{◌≡◌, None, map};
ghost use Rattle.run_state.specs.Forgotten.{forgotten, forgotten_at};

use run_unit::Unit;

/// None of these is admitted any more.
pub fn forget_each(units: &mut [Option<Unit>])
    ensures { units.new ≡ map (λ _. None) units.old }
{
    for unit in units.iter_mut() {
        *unit = None;
    }
}

// Nothing is kept of a unit that is over and for which no request waits.
fn forget_unit(unit: &mut Option<Unit>)
    ensures { unit.new ≡ forgotten unit.old }
{
    if let Some(member) = unit {
        if member.is_spent() {
            member.forget();
        }
    }
}

/// Nothing is kept of the unit of a number, if there is one, where it is over and no request waits for it.
pub fn forget_at(units: &mut Vec<Option<Unit>>, unit: u32)
    ensures { units.new.items ≡ forgotten_at unit units.old.items }
{
    if unit as usize >= units.len() {
        return;
    }
    forget_unit(&mut units[unit as usize]);
}
