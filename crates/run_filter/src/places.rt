// Places in the text of a filter, in bytes.
ghost use Rattle.std.specs.Prelude.{◌≡◌, ◌≤◌, length, drop};
ghost use Rattle.run_filter.specs.Grammar.{opens, closes};

/// The place so many bytes on, or the end of the text.
#[tactic(auto, using(crate::proofs::GrammarLemmas::places))]
pub(crate) fn past(text: &[u8], at: usize, count: usize) -> usize
    requires { at ≤ length text.now }
    ensures rest { drop result text.now ≡ drop count (drop at text.now) }
    ensures end { result ≤ length text.now }
{
    if count <= text.len() - at {
        at + count
    } else {
        text.len()
    }
}

/// Whether a text begins with `(`.
pub(crate) fn opens(rest: &[u8]) -> bool
    ensures { result ≡ opens rest.now }
{
    match rest {
        [] => false,
        [first, ..] => *first == b'(',
    }
}

/// Whether a text begins with `)`.
pub(crate) fn closes(rest: &[u8]) -> bool
    ensures { result ≡ closes rest.now }
{
    match rest {
        [] => false,
        [first, ..] => *first == b')',
    }
}
