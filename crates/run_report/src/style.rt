// Parts of a line, each in its style.
ghost use Rattle.std.specs.Prelude.{◌≡◌, ◌++◌, string_bytes, OnOk};
ghost use Rattle.run_report.specs.Style.{acts, escape_of, escaped_number};
ghost use Rattle.run_report.specs.Style.{shown_char, shown_text, span_bytes, style_code};

use run_capture::Mem;

/// How a part of a line is shown, where colours are on.
#[derive(Clone, Copy, Drop)]
pub enum Style {
    Plain,
    Bold,
    Green,
    Yellow,
    Red,
    Magenta,
    Cyan,
}

impl Style {
    // What turns it on, between the escape character and the text.
    fn code(self) -> &'static str
        ensures { result.now ≡ style_code self }
    {
        match self {
            Style::Plain => "[0m",
            Style::Bold => "[1m",
            Style::Green => "[32;1m",
            Style::Yellow => "[33;1m",
            Style::Red => "[31;1m",
            Style::Magenta => "[35;1m",
            Style::Cyan => "[36;1m",
        }
    }
}

// A character that a terminal would act on.
fn acts(c: char) -> bool
    ensures { result ≡ acts c }
{
    c.is_control()
        || ('\u{2028}'..='\u{202e}').contains(&c)
        || ('\u{2066}'..='\u{2069}').contains(&c)
}

// Adds a character that acts, as Rust's literals have it.
fn push_escape(line: &mut String, c: char) -> Mem<()>
    ensures { OnOk result (string_bytes line.new ≡ string_bytes line.old ++ escape_of c) }
{
    match c {
        '\n' => line.push_str("\\n")?,
        '\r' => line.push_str("\\r")?,
        '\t' => line.push_str("\\t")?,
        _ => push_number(line, c as u32)?,
    }
    Ok(())
}

/// Adds a character, escaped where a terminal would act on it.
pub(crate) fn push_char(line: &mut String, c: char) -> Mem<()>
    ensures { OnOk result (string_bytes line.new ≡ string_bytes line.old ++ shown_char c) }
{
    if acts(c) {
        return push_escape(line, c);
    }
    line.push(c)?;
    Ok(())
}

// Adds the number of a character, as Rust's literals have it.
fn push_number(line: &mut String, number: u32) -> Mem<()>
    ensures { OnOk result (string_bytes line.new ≡ string_bytes line.old ++ escaped_number number) }
{
    write!(line, "\\u{{{number:x}}}")?;
    Ok(())
}

// Adds a text, in which each character that a terminal would act on is escaped.
fn push_escaped(line: &mut String, text: &str) -> Mem<()>
    ensures { OnOk result (string_bytes line.new ≡ string_bytes line.old ++ shown_text text.now) }
{
    for c in text.chars() {
        push_char(line, c)?;
    }
    Ok(())
}

/// Adds a part of a line.
pub(crate) fn push_part(line: &mut String, color: bool, style: Style, text: &str) -> Mem<()>
    ensures { OnOk result (string_bytes line.new ≡ string_bytes line.old ++ span_bytes color (style, text.now)) }
{
    if !color || matches!(style, Style::Plain) {
        return push_escaped(line, text);
    }
    line.push_str("\u{1b}")?;
    line.push_str(style.code())?;
    push_escaped(line, text)?;
    line.push_str("\u{1b}[0m")?;
    Ok(())
}
