// The runs of a chain of stores.
ghost use Rattle.std.specs.Prelude.{ℕ, ◌≡◌, List, map, string_bytes};
ghost use Rattle.run_capture.specs.Faults.{RoseExactlyIf};
ghost use Rattle.run_rerun_cli.specs.Finds.{VisitsOne, fails_to_read};
ghost use Rattle.run_rerun_cli.specs.Reads.{ReadsChain, TakesStore, chain_error};
ghost use Rattle.run_rerun_cli.specs.Shelves.{doing_of, shelf_of};

use crate::faults::{FoundError, RerunFault};
use crate::found::run_named;
use crate::stores::Stores;
use run_capture::List;
use run_rerun::StoredRun;
use std::alloc::Global;

/// Why there is no chain.
#[derive(Clone, Copy, Drop)]
pub enum ChainError {
    /// The store at this place, from 0, has the first fault.
    Store { store: u64, fault: RerunFault },
    /// Memory was refused.
    OutOfMemory,
}

// Why there is no chain, where the store at this place has no run.
fn error_at(store: u64, error: FoundError) -> ChainError
    ensures { result ≡ chain_error store error }
{
    match error {
        FoundError::Fault(fault) => ChainError::Store { store, fault },
        FoundError::OutOfMemory => ChainError::OutOfMemory,
    }
}

// Adds the run of the store with this name.
fn take_store<T: Stores>(
    alloc: Global,
    stores: &mut T,
    name: &str,
    runs: &mut List<StoredRun>,
) -> Result<(), FoundError>
    ensures says { TakesStore (T.bytes stores.old name.now) runs.old runs.new result }
    ensures fault { RoseExactlyIf (fails_to_read result) (T.faults stores.old) (T.faults stores.new) }
    ensures did { VisitsOne name.now (doing_of T.Stores stores.old stores.new) result }
    ensures same { (n : List ℕ) → T.bytes stores.new n ≡ T.bytes stores.old n }
{
    let run = run_named(alloc, stores, name)?;
    runs.push(alloc, run)?;
    Ok(())
}

/// The runs of the stores with these names, in their order. The first store that has a fault ends it, and none after
/// that is opened.
pub fn read_chain<T: Stores>(
    alloc: Global,
    stores: &mut T,
    names: &[String],
) -> Result<List<StoredRun>, ChainError>
    ensures says { ReadsChain (map (λ w. string_bytes w) names.now) (shelf_of T.Stores stores.old stores.new)
        (doing_of T.Stores stores.old stores.new) result }
    ensures same { (n : List ℕ) → T.bytes stores.new n ≡ T.bytes stores.old n }
{
    let mut runs = List::new();
    for (store, name) in names.iter().enumerate() {
        match take_store(alloc, stores, name.as_str(), &mut runs) {
            Ok(()) => {}
            Err(error) => return Err(error_at(store as u64, error)),
        }
    }
    Ok(runs)
}
