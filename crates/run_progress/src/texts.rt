// Times as they are shown.
ghost use Rattle.std.specs.Prelude.{◌≡◌, string_bytes, IfOk};
ghost use Rattle.run_progress.specs.Texts.{right, clock_text, bracket};

use run_capture::Mem;
use std::alloc::Global;

// A text at the right of so many columns.
fn at_right(alloc: Global, width: usize, text: &str) -> Mem<String>
    ensures { IfOk result (λ s. string_bytes s ≡ right width text.now) }
{
    let mut shown = String::new(alloc);
    let missing = width.saturating_sub(text.len());
    for _column in 0..missing {
        shown.push_str(" ")?;
    }
    shown.push_str(text)?;
    Ok(shown)
}

// Whole seconds as HH:MM:SS.
#[tactic(auto, using(crate::proofs::TextLemmas::padded_two), unfolding(crate::specs::Texts::clock_text))]
fn clock(alloc: Global, seconds: u64) -> Mem<String>
    ensures { IfOk result (λ s. string_bytes s ≡ clock_text seconds) }
{
    let hours = seconds / 3600;
    let minutes = seconds / 60 % 60;
    let rest = seconds % 60;
    Ok(format!(in alloc; "{hours:02}:{minutes:02}:{rest:02}")?)
}

/// A time in nanoseconds, rounded down to seconds, in brackets.
#[tactic(auto, unfolding(crate::specs::Texts::bracket))]
pub(crate) fn in_brackets(alloc: Global, time: u64) -> Mem<String>
    ensures { IfOk result (λ s. string_bytes s ≡ bracket time) }
{
    let clock = clock(alloc, time / 1_000_000_000)?;
    let shown = at_right(alloc, 9, clock.as_str())?;
    Ok(format!(in alloc; "[{shown}] ")?)
}
