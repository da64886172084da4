// The line that says what wasn't handed on exactly once.
ghost use Rattle.std.specs.Prelude.{◌≡◌, ◌++◌, decimal, IfOk};
ghost use Rattle.run_whole_cli.specs.OrderText.{order_text};

use itoa::Buffer;
use run_capture::{Mem, Text};
use run_output::{Fault, fault_line};
use run_shared::OrderFault;
use std::alloc::Global;

// A number between two texts.
fn between(alloc: Global, before: &str, number: u64, after: &str) -> Mem<Text>
    ensures { IfOk result (λ t. t ≡ before.now ++ decimal number ++ after.now) }
{
    let mut digits = Buffer::new();
    let mut text = Text::from_str(alloc, before)?;
    text.push_str(alloc, digits.format(number))?;
    text.push_str(alloc, after)?;
    Ok(text)
}

/// The line of what is wrong with what was handed on, without its line feed. Its `place` is that of an ask among what
/// the run asked, from 0: `lost` if nothing has it, `repeated` if two have it, and `unasked` if something has it that
/// the run didn't ask there.
pub fn order_line(alloc: Global, fault: OrderFault) -> Mem<Text>
    ensures { IfOk result (λ t. t ≡ order_text fault) }
{
    match fault {
        OrderFault::Unasked { place } => between(
            alloc,
            "{\"fault\":\"order\",\"kind\":\"unasked\",\"place\":",
            place,
            ",\"status\":13}",
        ),
        OrderFault::Repeated { place } => between(
            alloc,
            "{\"fault\":\"order\",\"kind\":\"repeated\",\"place\":",
            place,
            ",\"status\":13}",
        ),
        OrderFault::Lost { place } => between(
            alloc,
            "{\"fault\":\"order\",\"kind\":\"lost\",\"place\":",
            place,
            ",\"status\":13}",
        ),
        OrderFault::OutOfMemory => fault_line(alloc, Fault::Memory),
    }
}
