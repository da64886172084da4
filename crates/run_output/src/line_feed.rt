// Lines with their ends.
ghost use Rattle.std.specs.Prelude.{◌≡◌, IfOk};
ghost use Rattle.run_output.specs.Fields.{line_bytes};

use run_capture::{Mem, Text};
use std::alloc::Global;

/// A line with the line feed that ends it.
pub fn with_line_feed(alloc: Global, line: Text) -> Mem<Text>
    ensures { IfOk result (λ t. t ≡ line_bytes line) }
{
    let mut line = line;
    line.push_str(alloc, "\n")?;
    Ok(line)
}
