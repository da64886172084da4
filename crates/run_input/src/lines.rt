// The lines of an input.
ghost use Rattle.std.specs.Prelude.{◌≡◌, ◌≢◌, ◌<◌, ◌≤◌, ◌∷◌, ℕ, length, slice_index};
ghost use Rattle.run_input.specs.Lines.{lines_of};

use memchr::memchr;

// The place of the first LF, or the length where there is none.
#[tactic(auto, using(crate::proofs::LineLemmas::no_feed_before, crate::proofs::LineLemmas::no_feed_all, crate::proofs::LineLemmas::feed_there))]
fn end_of_line(bytes: &[u8]) -> usize
    ensures within { result ≤ length bytes.now }
    ensures before { (k : ℕ) → k < result → slice_index bytes.now k ≢ 10 }
    ensures found { result < length bytes.now → slice_index bytes.now result ≡ 10 }
{
    match memchr(b'\n', bytes) {
        Some(place) => place,
        None => bytes.len(),
    }
}

/// The first line of some bytes, without its end, and the bytes after it.
pub fn split_line(bytes: &[u8]) -> (&[u8], &[u8])
    requires { 0 < length bytes.now }
    ensures lines { lines_of bytes.now ≡ result.0.now ∷ lines_of result.1.now }
    ensures shorter { length result.1.now < length bytes.now }
{
    let end = end_of_line(bytes);
    if end < bytes.len() {
        (&bytes[..end], &bytes[end + 1..])
    } else {
        (bytes, &[])
    }
}
