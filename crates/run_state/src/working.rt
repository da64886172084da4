// The numbers of the units that were admitted and aren't over, in ascending order. Contracts speak of a flag for each
// unit, of which the numbers are the places.
ghost use Rattle.std.specs.Prelude.{◌≡◌, ◌<◌, List, Bool, length, slice_index_or, slice_set};
ghost use Rattle.std.specs.Prelude.{OnOk, OnErr, true, false, not};
ghost use Rattle.run_state.specs.Counted.{places};

use run_capture::{Mem, OutOfMemory};

// Puts a number at its place.
fn put_in(numbers: &mut Vec<u32>, number: u32) -> Mem<()>
    ensures ok { OnOk result ((flags : List Bool) → numbers.old.items ≡ places 0 flags → number
        < length flags
        → slice_index_or flags number false ≡ false → numbers.new.items
        ≡ places 0 (slice_set flags number true)) }
    ensures err { OnErr result (numbers.new.items ≡ numbers.old.items) }
{
    let place = match numbers.as_slice().binary_search(&number) {
        Ok(place) | Err(place) => place,
    };
    match numbers.insert(place, number) {
        Ok(()) => Ok(()),
        Err(_) => Err(OutOfMemory),
    }
}

// Takes a number away.
fn take_out(numbers: &mut Vec<u32>, number: u32)
    ensures { (flags : List Bool) → numbers.old.items ≡ places 0 flags
        → slice_index_or flags number false ≡ true
        → numbers.new.items ≡ places 0 (slice_set flags number false) }
{
    if let Ok(place) = numbers.as_slice().binary_search(&number) {
        numbers.remove(place);
    }
}

/// A unit is admitted, which is over or not: its flag is set where it isn't.
pub fn admit(numbers: &mut Vec<u32>, unit: u32, over: bool) -> Mem<()>
    ensures ok { OnOk result ((flags : List Bool) → numbers.old.items ≡ places 0 flags → unit
        < length flags
        → slice_index_or flags unit false ≡ false → numbers.new.items
        ≡ places 0 (slice_set flags unit (not over))) }
    ensures err { OnErr result (numbers.new.items ≡ numbers.old.items) }
{
    if over {
        return Ok(());
    }
    put_in(numbers, unit)
}

/// A unit that wasn't over took a turn, after which it is over or not.
pub fn leave(numbers: &mut Vec<u32>, unit: u32, over: bool)
    ensures { (flags : List Bool) → numbers.old.items ≡ places 0 flags
        → slice_index_or flags unit false ≡ true
        → numbers.new.items ≡ places 0 (slice_set flags unit (not over)) }
{
    if over {
        take_out(numbers, unit);
    }
}
