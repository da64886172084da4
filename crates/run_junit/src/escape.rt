// Texts as they stand in a document of XML 1.0.
ghost use Rattle.std.specs.Prelude.{◌≡◌, ◌++◌, string_bytes, OnOk};
ghost use Rattle.run_junit.specs.Escape.{
  sequence_after,
  behind_escape,
  after_command,
  after_control,
  after_outside,
  attribute_reference,
  attribute_text,
  body_reference,
  char_in,
  is_said,
  is_xml,
  placed_char,
  reference,
  char_shown,
};

use run_capture::Mem;

/// Where a text stands.
#[derive(Clone, Copy, Drop)]
pub(crate) enum Place {
    /// Within the quotes of an attribute.
    Attribute,
    /// Between two tags.
    Body,
}

/// How far an escape sequence of a terminal is.
#[derive(Clone, Copy, Drop)]
pub(crate) enum Sequence {
    Outside,
    /// Behind the escape character.
    Begun,
    /// In a control sequence, which `[` begins.
    Control,
    /// In a command, which `]` begins.
    Command,
    /// In a command, behind the escape character.
    CommandEnd,
}

// Whether a document may have a character.
fn is_xml(c: char) -> bool
    ensures { result ≡ is_xml c }
{
    c == '\t'
        || c == '\n'
        || c == '\r'
        || (' '..='\u{d7ff}').contains(&c)
        || ('\u{e000}'..='\u{fffd}').contains(&c)
        || ('\u{10000}'..='\u{10ffff}').contains(&c)
}

// What stands for a character between two tags, and nothing where it stands for itself.
fn body_reference(c: char) -> &'static str
    ensures { result.now ≡ body_reference c }
{
    match c {
        '&' => "&amp;",
        '<' => "&lt;",
        '>' => "&gt;",
        '\r' => "&#13;",
        _ => "",
    }
}

// The same in an attribute.
fn attribute_reference(c: char) -> &'static str
    ensures { result.now ≡ attribute_reference c }
{
    match c {
        '"' => "&quot;",
        '\'' => "&apos;",
        '\n' => "&#10;",
        '\t' => "&#9;",
        _ => body_reference(c),
    }
}

fn reference(place: Place, c: char) -> &'static str
    ensures { result.now ≡ reference place c }
{
    match place {
        Place::Attribute => attribute_reference(c),
        Place::Body => body_reference(c),
    }
}

// Adds a character that a document may have.
fn push_placed(out: &mut String, place: Place, c: char) -> Mem<()>
    ensures { OnOk result (string_bytes out.new ≡ string_bytes out.old ++ placed_char place c) }
{
    let reference = reference(place, c);
    if reference.is_empty() {
        out.push(c)?;
    } else {
        out.push_str(reference)?;
    }
    Ok(())
}

// Adds a character, if a document may have it.
fn push_in(out: &mut String, place: Place, c: char) -> Mem<()>
    ensures { OnOk result (string_bytes out.new ≡ string_bytes out.old ++ char_in place c) }
{
    if is_xml(c) {
        return push_placed(out, place, c);
    }
    Ok(())
}

fn after_outside(c: char) -> Sequence
    ensures { result ≡ after_outside c }
{
    if c == '\u{1b}' {
        Sequence::Begun
    } else {
        Sequence::Outside
    }
}

fn behind_escape(c: char) -> Sequence
    ensures { result ≡ behind_escape c }
{
    match c {
        '[' => Sequence::Control,
        ']' => Sequence::Command,
        _ => after_outside(c),
    }
}

fn after_control(c: char) -> Sequence
    ensures { result ≡ after_control c }
{
    if (' '..='?').contains(&c) {
        Sequence::Control
    } else {
        after_outside(c)
    }
}

fn after_command(c: char) -> Sequence
    ensures { result ≡ after_command c }
{
    if c == '\u{7}' || c == '\n' {
        Sequence::Outside
    } else if c == '\u{1b}' {
        Sequence::CommandEnd
    } else {
        Sequence::Command
    }
}

impl Sequence {
    // How far it is behind one more character.
    pub(crate) fn after(self, c: char) -> Sequence
        ensures { result ≡ sequence_after self c }
    {
        match self {
            Sequence::Outside => after_outside(c),
            Sequence::Control => after_control(c),
            Sequence::Command => after_command(c),
            Sequence::Begun | Sequence::CommandEnd => behind_escape(c),
        }
    }

    // Whether a character there is no part of it.
    fn is_said(self, c: char) -> bool
        ensures { result ≡ is_said self c }
    {
        match self {
            Sequence::Outside => true,
            Sequence::Control => !(' '..='~').contains(&c),
            Sequence::Command => c == '\n',
            Sequence::Begun | Sequence::CommandEnd => !('@'..='_').contains(&c),
        }
    }
}

/// Adds a character, where an escape sequence is so far.
pub(crate) fn push_char(out: &mut String, place: Place, at: Sequence, c: char) -> Mem<()>
    ensures { OnOk result (string_bytes out.new ≡ string_bytes out.old ++ char_shown place at c) }
{
    if at.is_said(c) {
        return push_in(out, place, c);
    }
    Ok(())
}

/// Adds a text as the value of an attribute.
pub(crate) fn push_attribute_text(out: &mut String, text: &str) -> Mem<()>
    ensures { OnOk result (string_bytes out.new ≡ string_bytes out.old ++ attribute_text text.now) }
{
    let mut at = Sequence::Outside;
    for c in text.chars() {
        push_char(out, Place::Attribute, at, c)?;
        at = at.after(c);
    }
    Ok(())
}
