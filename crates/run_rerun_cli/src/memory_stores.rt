// Stores in memory, some of whose calls fail.
ghost use Rattle.std.specs.Prelude.{◌≡◌, [], Some, IfOk, IfSome, option_map};
ghost use Rattle.run_rerun_cli.specs.Counted.{counted_faults};
ghost use Rattle.run_rerun_cli.specs.InMemory.{HasCounted, bytes_named, memory_left};

use crate::counted_source::CountedSource;
use crate::stores::Stores;
use run_capture::{Blob, Duplicate, Failed, List, Mem, MemorySource, Text};
use std::alloc::Global;

/// A store in memory. One read moves at most so many bytes, or one where that is 0; the reads of these numbers, counted
/// from 1 each time that it is opened, fail.
#[derive(Drop)]
pub struct MemoryStore {
    pub name: Text,
    pub bytes: Blob,
    pub most: usize,
    pub fail: List<u64>,
}

/// Stores in memory: a name is that of the first store that has it. The openings of these numbers, counted from 1,
/// fail, and so does one of a name that no store has, or for which memory is wanting.
#[derive(Drop)]
pub struct MemoryStores {
    alloc: Global,
    stores: List<MemoryStore>,
    fail: List<u64>,
    tried: u64,
    opened: u64,
    returned: u64,
    faults: u64,
}

// A source over the bytes of a store.
fn source_of(alloc: Global, store: &MemoryStore) -> Mem<CountedSource<MemorySource>>
    ensures left { IfOk result (λ src. memory_left src ≡ Some store.now.bytes) }
    ensures fresh { IfOk result (λ src. counted_faults src ≡ 0) }
{
    let bytes = store.bytes.copy(alloc)?;
    let fail = store.fail.copy(alloc)?;
    let source = MemorySource::new(bytes, store.most.max(1), fail);
    Ok(CountedSource::new(source))
}

// The first store with a name.
fn store_named<'a>(stores: &'a [MemoryStore], name: &str) -> Option<&'a MemoryStore>
    ensures { option_map (λ s. s.now.bytes) result ≡ bytes_named stores.now name.now }
{
    for store in stores {
        if store.name.as_str() == name {
            return Some(store);
        }
    }
    None
}

// A source over the bytes of the first store with a name; none where no store has it, or memory is wanting.
fn source_named(
    alloc: Global,
    stores: &[MemoryStore],
    name: &str,
) -> Option<CountedSource<MemorySource>>
    ensures left { IfSome result (λ src. memory_left src ≡ bytes_named stores.now name.now) }
    ensures fresh { IfSome result (λ src. counted_faults src ≡ 0) }
{
    let store = store_named(stores, name)?;
    source_of(alloc, store).ok()
}

impl MemoryStores {
    /// Stores that have not failed.
    pub fn new(alloc: Global, stores: List<MemoryStore>, fail: List<u64>) -> Self
        ensures stores { result.stores ≡ stores }
        ensures fail { result.fail ≡ fail }
        ensures fresh { result.faults ≡ 0 }
        ensures done { HasCounted result [] }
    {
        MemoryStores {
            alloc,
            stores,
            fail,
            tried: 0,
            opened: 0,
            returned: 0,
            faults: 0,
        }
    }

    /// How often a store was opened.
    pub fn opened(&self) -> u64
        ensures { result ≡ self.now.opened }
    {
        self.opened
    }

    /// How often a store was given back.
    pub fn returned(&self) -> u64
        ensures { result ≡ self.now.returned }
    {
        self.returned
    }

    // The source of a name, unless the opening of this number fails.
    fn source(&self, name: &str) -> Option<CountedSource<MemorySource>>
        ensures left { IfSome result (λ src. memory_left src ≡ bytes_named self.now.stores name.now) }
        ensures fresh { IfSome result (λ src. counted_faults src ≡ 0) }
    {
        if self.fail.as_slice().contains(&self.tried) {
            return None;
        }
        source_named(self.alloc, self.stores.as_slice(), name)
    }
}

impl Stores for MemoryStores {
    type Src = CountedSource<MemorySource>;

    ghost use Rattle.run_rerun_cli.specs.InMemory.{HasCounted, bytes_named, failed_so};

    ghost bytes = { λ s name. bytes_named s.stores name };

    ghost faults = { failed_so };

    ghost did = { HasCounted };

    fn open_store(&mut self, name: &str) -> Result<CountedSource<MemorySource>, Failed> {
        self.tried = self.tried.saturating_add(1);
        match self.source(name) {
            Some(source) => {
                self.opened = self.opened.saturating_add(1);
                Ok(source)
            }
            None => {
                self.faults = self.faults.saturating_add(1);
                Err(Failed)
            }
        }
    }

    fn give_back(&mut self, src: CountedSource<MemorySource>) {
        self.returned = self.returned.saturating_add(1);
        if src.has_failed() {
            self.faults = self.faults.saturating_add(1);
        }
    }
}
