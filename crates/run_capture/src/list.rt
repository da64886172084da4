// A list that is made with no allocator and no memory; contracts see it as the list of its items.
ghost use Rattle.std.specs.Prelude.{◌≡◌, ◌++◌, ◌∷◌, ◌==◌, [], length, IfOk, OnOk, OnErr, slice_get};
ghost use Rattle.std.specs.Option.{option_copied};

use crate::duplicate::copies;
use crate::{Duplicate, Mem};
use std::alloc::Global;
use std::fmt;
use std::fmt::{Debug, Write};
use std::marker::Model;

/// A list of items in order.
#[derive(Drop)]
pub struct List<T> {
    vec: Option<Vec<T>>,
}

impl<T> Model for List<T> {
    ghost use Rattle.std.specs.Prelude.{List as Items};
    ghost use Rattle.run_capture.specs.Held.{items_held};

    ghost Value = { Items T };

    ghost view = { λ l. items_held l.vec };
}

impl<T> List<T> {
    /// No items. Takes no memory.
    pub fn new() -> List<T>
        ensures { result ≡ [] }
    {
        List { vec: None }
    }

    /// No items, with room for so many.
    pub fn with_capacity(alloc: Global, count: usize) -> Mem<List<T>>
        ensures { IfOk result (λ l. l ≡ []) }
    {
        Ok(List::from_vec(Vec::with_capacity(alloc, count)?))
    }

    /// Takes a `Vec`, and no memory.
    pub fn from_vec(vec: Vec<T>) -> List<T>
        ensures { result ≡ vec.items }
    {
        List { vec: Some(vec) }
    }

    /// Gives its items as a `Vec`, and takes no memory.
    pub fn into_vec(self, alloc: Global) -> Vec<T>
        ensures { result.items ≡ self }
    {
        match self.vec {
            Some(vec) => vec,
            None => Vec::new(alloc),
        }
    }

    pub fn as_slice(&self) -> &[T]
        ensures { result.now ≡ self.now }
    {
        match &self.vec {
            Some(vec) => vec.as_slice(),
            None => &[],
        }
    }

    pub fn len(&self) -> usize
        ensures { result ≡ length self.now }
    {
        self.as_slice().len()
    }

    pub fn is_empty(&self) -> bool
        ensures { result ≡ (length self.now == 0) }
    {
        self.as_slice().is_empty()
    }

    pub fn get(&self, place: usize) -> Option<&T>
        ensures { option_copied result ≡ slice_get self.now place }
    {
        self.as_slice().get(place)
    }

    /// Adds an item at the end. A refused item is dropped.
    pub fn push(&mut self, alloc: Global, item: T) -> Mem<()>
    where
        T: Drop,
        ensures ok { OnOk result (self.new ≡ self.old ++ item ∷ []) }
        ensures err { OnErr result (self.new ≡ self.old) }
    {
        match &mut self.vec {
            Some(vec) => {
                vec.push(item)?;
            }
            None => {
                // Many a list has one item.
                let mut vec = Vec::with_capacity(alloc, 1)?;
                vec.push(item)?;
                self.vec = Some(vec);
            }
        }
        Ok(())
    }
}

impl<T: Duplicate + Drop> Duplicate for List<T> {
    fn copy(&self, alloc: Global) -> Mem<List<T>> {
        Ok(List::from_vec(copies(alloc, self.as_slice())?))
    }
}

/// Whether two lists have equal items, in order.
impl<T: PartialEq> PartialEq for List<T> {
    ghost use lib.Pointwise.{pointwise};
    ghost use Rattle.std.specs.Cmp.Lexicographic.{lists_per};

    ghost eq = { pointwise T.eq };

    ghost laws = { lists_per T.laws };

    fn eq(&self, other: &List<T>) -> bool {
        self.as_slice() == other.as_slice()
    }
}

impl<T: Eq> Eq for List<T> {
    ghost use Rattle.std.specs.Cmp.Lexicographic.{lists_equiv};

    ghost laws = { lists_equiv T.Eq.laws };
}

impl<T: Debug> Debug for List<T> {
    fn fmt<W: Write>(&self, f: &mut fmt::Formatter<W>) -> fmt::Result {
        self.as_slice().fmt(f)
    }
}
