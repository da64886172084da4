// Places of keys in byte order.
ghost use Rattle.std.specs.Prelude.{◌≡◌, true, length};
ghost use Rattle.run_output.specs.Rows.{row_place, has_key, ascend};

use std::cmp::Ordering;

/// Whether a key stands above all of these.
#[tactic(auto, using(crate::proofs::RowLemmas::above_last))]
pub(crate) fn is_last<F>(rows: &[(&'static str, F)], key: &str) -> bool
    requires { ascend rows.now ≡ true }
    ensures { result ≡ true → row_place key.now rows.now ≡ length rows.now }
{
    let count = rows.len();
    if count == 0 {
        return true;
    }
    match key.cmp(rows[count - 1].0) {
        Ordering::Greater => true,
        _ => false,
    }
}

/// How many of the keys from the first on stand below a key, and whether the next one is that key.
pub(crate) fn place_of<F>(rows: &[(&'static str, F)], key: &str) -> (usize, bool)
    ensures place { result.0 ≡ row_place key.now rows.now }
    ensures found { result.1 ≡ has_key key.now rows.now }
{
    let mut place = 0;
    while place < rows.len() {
        match key.cmp(rows[place].0) {
            Ordering::Greater => place += 1,
            Ordering::Equal => return (place, true),
            Ordering::Less => return (place, false),
        }
    }
    (place, false)
}

/// Whether each key stands above the one before it.
#[tactic(auto, using(crate::proofs::InOrderLemmas::one_in_order))]
pub(crate) fn are_in_order<F>(fields: &[(&'static str, F)]) -> bool
    ensures { result ≡ true → ascend fields.now ≡ true }
{
    let mut at = 1;
    while at < fields.len() {
        match fields[at].0.cmp(fields[at - 1].0) {
            Ordering::Greater => at += 1,
            _ => return false,
        }
    }
    true
}
