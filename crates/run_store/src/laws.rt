// Theorems on the text of stores.
ghost use Rattle.run_store.specs.Stores.{NoFrontIsBad, StoresAreReadOneWay, TurnsAreStored};

/// A store can have each turn whose parts fit their types, if its line has at most 16,777,216 bytes.
pub fn turns_are_stored()
    ensures { TurnsAreStored }
{}

/// A reader of any bytes has exactly one answer: they are a whole store text, or it is torn, or it has no plan, or a
/// record of it is bad; of one plan and one list of turns, or with one place.
pub fn stores_are_read_one_way()
    ensures { StoresAreReadOneWay }
{}

/// No front part of a store text has a bad record.
pub fn no_front_is_bad()
    ensures { NoFrontIsBad }
{}
