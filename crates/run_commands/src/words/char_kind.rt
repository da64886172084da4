// What characters mean to the grammar of words.
ghost use Rattle.std.specs.Prelude.{◌≡◌};
ghost use Rattle.run_commands.specs.Words.{kind};

/// What a character means to the grammar of words.
#[derive(Clone, Copy)]
pub enum CharKind {
    /// A space or a tab.
    Space,
    /// An LF.
    Newline,
    /// `#`, which begins a comment at a word's start.
    Hash,
    /// `\`.
    Backslash,
    /// `'`.
    SingleQuote,
    /// `"`.
    DoubleQuote,
    /// `$` or a backquote, which begin an expansion in a shell.
    Expansion,
    /// Any other.
    Plain,
}

/// The kind of a character.
pub fn kind_of(c: char) -> CharKind
    ensures { result ≡ kind c }
{
    match c {
        ' ' | '\t' => CharKind::Space,
        '\n' => CharKind::Newline,
        '#' => CharKind::Hash,
        '\\' => CharKind::Backslash,
        '\'' => CharKind::SingleQuote,
        '"' => CharKind::DoubleQuote,
        '$' | '`' => CharKind::Expansion,
        _ => CharKind::Plain,
    }
}
