// Texts that are put together.
ghost use Rattle.std.specs.Prelude.{◌≡◌, ◌++◌, IfOk};

use run_capture::{Mem, Text};
use std::alloc::Global;

/// A text with more behind it.
pub(crate) fn with_text(alloc: Global, text: Text, more: &str) -> Mem<Text>
    ensures { IfOk result (λ t. t ≡ text ++ more.now) }
{
    let mut text = text;
    text.push_str(alloc, more)?;
    Ok(text)
}
