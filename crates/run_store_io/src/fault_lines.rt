// Faults of stores that are played, as lines.
ghost use Rattle.std.specs.Prelude.{◌≡◌, ◌++◌, decimal, IfOk};
ghost use Rattle.run_store_io.specs.FaultLines.{store_fault_text, store_fault_status};

use itoa::Buffer;
use run_capture::{Mem, Text};
use std::alloc::Global;

/// What is wrong with a store.
#[derive(Clone, Copy, Drop)]
pub enum StoreFault {
    /// Its end is missing: so many turns are there.
    Torn { turns: u64 },
    /// The record of this number, from 0, is in no store.
    Bad { record: u64 },
}

impl StoreFault {
    /// The exit status that goes with its line.
    pub fn status(self) -> u8
        ensures { result ≡ store_fault_status self }
    {
        match self {
            StoreFault::Torn { .. } => 14,
            StoreFault::Bad { .. } => 15,
        }
    }
}

// A number between two texts.
fn numbered(alloc: Global, before: &str, number: u64, after: &str) -> Mem<Text>
    ensures { IfOk result (λ t. t ≡ before.now ++ decimal number ++ after.now) }
{
    let mut digits = Buffer::new();
    let mut text = Text::from_str(alloc, before)?;
    text.push_str(alloc, digits.format(number))?;
    text.push_str(alloc, after)?;
    Ok(text)
}

/// The line of a fault of a store, without its line feed: its keys in byte order.
pub fn store_fault_line(alloc: Global, fault: StoreFault) -> Mem<Text>
    ensures { IfOk result (λ t. t ≡ store_fault_text fault) }
{
    match fault {
        StoreFault::Torn { turns } => numbered(
            alloc,
            "{\"fault\":\"torn\",\"status\":14,\"turns\":",
            turns,
            "}",
        ),
        StoreFault::Bad { record } => {
            numbered(
                alloc,
                "{\"fault\":\"bad\",\"record\":",
                record,
                ",\"status\":15}",
            )
        }
    }
}
