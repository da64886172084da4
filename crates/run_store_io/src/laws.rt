// Theorems on recorded inputs.
ghost use Rattle.run_store_io.specs.Recorded.{RecordedStoresAreRead};

/// The store that was written of an input is read in one way alone: whole, with the input's first line and its turns.
pub fn recorded_stores_are_read()
    ensures { RecordedStoresAreRead }
{}
