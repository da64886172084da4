// Types whose values can be compared.
ghost use Rattle.std.specs.Prelude.{◌≡◌, ◌↔◌, IsTrue, length};

use jiff_core::Timestamp;
use run_capture::{List, Text};
use uuid::Uuid;

/// A type whose values can be compared.
pub trait Same {
    /// Whether two values are the same.
    fn same(&self, other: &Self) -> bool
        ensures { IsTrue result ↔ (self.now ≡ other.now) };
}

impl Same for u32 {
    fn same(&self, other: &u32) -> bool {
        *self == *other
    }
}

impl Same for u64 {
    fn same(&self, other: &u64) -> bool {
        *self == *other
    }
}

impl Same for Text {
    fn same(&self, other: &Text) -> bool {
        *self == *other
    }
}

impl<T: Same> Same for Option<T> {
    fn same(&self, other: &Option<T>) -> bool {
        match (self, other) {
            (Some(a), Some(b)) => a.same(b),
            (None, None) => true,
            _ => false,
        }
    }
}

/// Whether two lists have the same items.
pub fn same_items<T: Same>(a: &[T], b: &[T]) -> bool
    ensures { IsTrue result ↔ (a.now ≡ b.now) }
{
    if a.len() != b.len() {
        return false;
    }
    for i in 0..a.len() {
        if !a[i].same(&b[i]) {
            return false;
        }
    }
    true
}

impl<T: Same> Same for List<T> {
    fn same(&self, other: &List<T>) -> bool {
        same_items(self.as_slice(), other.as_slice())
    }
}

impl Same for Uuid {
    fn same(&self, other: &Uuid) -> bool {
        *self == *other
    }
}

impl Same for Timestamp {
    fn same(&self, other: &Timestamp) -> bool {
        *self == *other
    }
}
