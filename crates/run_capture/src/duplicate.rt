// Copies that take memory.
ghost use Rattle.std.specs.Prelude.{◌≡◌, ◌++◌, IfOk};

use crate::Mem;
use std::alloc::Global;

/// A value that can be copied, where memory is there.
pub trait Duplicate: Sized {
    /// A copy, which equals its source.
    fn copy(&self, alloc: Global) -> Mem<Self>
        ensures { IfOk result (λ c. c ≡ self.now) };
}

/// Some items, and then copies of others, in order.
pub fn with_copies<T: Duplicate + Drop>(alloc: Global, front: Vec<T>, items: &[T]) -> Mem<Vec<T>>
    ensures { IfOk result (λ v. v.items ≡ front.items ++ items.now) }
{
    let mut vec = front;
    for item in items {
        vec.push(item.copy(alloc)?)?;
    }
    Ok(vec)
}

/// Copies each item, in order.
pub fn copies<T: Duplicate + Drop>(alloc: Global, items: &[T]) -> Mem<Vec<T>>
    ensures { IfOk result (λ v. v.items ≡ items.now) }
{
    with_copies(alloc, Vec::with_capacity(alloc, items.len())?, items)
}

impl Duplicate for u32 {
    fn copy(&self, _alloc: Global) -> Mem<u32> {
        Ok(*self)
    }
}

impl Duplicate for u64 {
    fn copy(&self, _alloc: Global) -> Mem<u64> {
        Ok(*self)
    }
}

impl Duplicate for bool {
    fn copy(&self, _alloc: Global) -> Mem<bool> {
        Ok(*self)
    }
}

impl<A: Duplicate + Drop, B: Duplicate + Drop> Duplicate for (A, B) {
    fn copy(&self, alloc: Global) -> Mem<(A, B)> {
        Ok((self.0.copy(alloc)?, self.1.copy(alloc)?))
    }
}

impl<T: Duplicate> Duplicate for Option<T> {
    fn copy(&self, alloc: Global) -> Mem<Option<T>> {
        match self {
            Some(value) => Ok(Some(value.copy(alloc)?)),
            None => Ok(None),
        }
    }
}
