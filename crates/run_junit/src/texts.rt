// The form of a document.
ghost use Rattle.std.specs.Prelude.{◌≡◌, ◌≤◌, ◌++◌, ◌∷◌, [], string_bytes, OnOk};
ghost use Rattle.run_junit.specs.Tokens.{attribute_bytes, attributes_bytes, new_line_bytes, tag_name};
ghost use Rattle.run_junit.specs.Tokens.{end, line, tokens_bytes};

use crate::escape::push_attribute_text;
use crate::tag::{Key, Tag};
use run_capture::Mem;

// A line feed, and four blanks for each step.
fn line_of(depth: u8) -> &'static str
    requires { depth ≤ 4 }
    ensures { result.now ≡ new_line_bytes depth }
{
    match depth {
        0 => "\n",
        1 => "\n    ",
        2 => "\n        ",
        3 => "\n            ",
        _ => "\n                ",
    }
}

/// Adds the end of a line.
pub(crate) fn push_line(out: &mut String, depth: u8) -> Mem<()>
    requires { depth ≤ 4 }
    ensures { OnOk result (string_bytes out.new ≡ string_bytes out.old ++ new_line_bytes depth) }
{
    out.push_str(line_of(depth))?;
    Ok(())
}

/// Adds where an element begins, before its attributes.
pub(crate) fn push_start(out: &mut String, tag: Tag) -> Mem<()>
    ensures { OnOk result (string_bytes out.new ≡ string_bytes out.old ++ (60 ∷ tag_name tag)) }
{
    out.push_str("<")?;
    out.push_str(tag.name())?;
    Ok(())
}

/// Adds an attribute.
pub(crate) fn push_attribute(out: &mut String, key: Key, value: &str) -> Mem<()>
    ensures { OnOk result (string_bytes out.new ≡ string_bytes out.old ++ attribute_bytes (key, value.now)) }
{
    out.push_str(" ")?;
    out.push_str(key.name())?;
    out.push_str("=\"")?;
    push_attribute_text(out, value)?;
    out.push_str("\"")?;
    Ok(())
}

/// Adds where an element ends.
pub(crate) fn push_end(out: &mut String, tag: Tag) -> Mem<()>
    ensures { OnOk result (string_bytes out.new ≡ string_bytes out.old ++ (60 ∷ 47 ∷ (tag_name tag ++ (62 ∷ [])))) }
{
    out.push_str("</")?;
    out.push_str(tag.name())?;
    out.push_str(">")?;
    Ok(())
}
