// Bytes, which contracts see as a list.
ghost use Rattle.std.specs.Prelude.{◌≡◌, ◌++◌, ◌==◌, [], length, if◌then◌else◌, IfOk, OnOk, OnErr};

use crate::{Duplicate, Mem};
use std::alloc::Global;
use std::fmt;
use std::fmt::{Debug, Write};
use std::marker::Model;
use std::sync::Arc;

/// Bytes that can grow. A copy holds the same bytes in memory, until one of the two grows.
#[derive(Drop)]
pub struct Blob {
    // None where there are no bytes.
    held: Option<Arc<Vec<u8>, Global>>,
}

impl Model for Blob {
    ghost use Rattle.std.specs.Prelude.{List, ℕ};
    ghost use Rattle.run_capture.specs.Held.{bytes_held};

    ghost Value = { List ℕ };

    ghost view = { λ b. bytes_held b.held };
}

impl Debug for Blob {
    fn fmt<W: Write>(&self, f: &mut fmt::Formatter<W>) -> fmt::Result {
        Debug::fmt(self.as_slice(), f)
    }
}

impl Blob {
    /// No bytes. Takes no memory.
    pub fn new(_alloc: Global) -> Blob
        ensures { result ≡ [] }
    {
        Blob { held: None }
    }

    /// Copies a slice.
    pub fn from_slice(alloc: Global, bytes: &[u8]) -> Mem<Blob>
        ensures { IfOk result (λ b. b ≡ bytes.now) }
    {
        let mut vec = Vec::with_capacity(alloc, bytes.len())?;
        vec.extend_from_slice(bytes)?;
        Blob::from_vec(alloc, vec)
    }

    /// Takes a vector's bytes.
    pub fn from_vec(alloc: Global, vec: Vec<u8>) -> Mem<Blob>
        ensures { IfOk result (λ b. b ≡ vec.items) }
    {
        let arc = Arc::new(alloc, vec)?;
        Ok(Blob { held: Some(arc) })
    }

    pub fn as_slice(&self) -> &[u8]
        ensures { result.now ≡ self.now }
    {
        match &self.held {
            Some(arc) => arc.as_slice(),
            None => &[],
        }
    }

    pub fn len(&self) -> usize
        ensures { result ≡ length self.now }
    {
        self.as_slice().len()
    }

    pub fn is_empty(&self) -> bool
        ensures { result ≡ (length self.now == 0) }
    {
        self.as_slice().is_empty()
    }

    // Adds bytes to a copy of its own, where another holds the same.
    fn extend_copy(&mut self, alloc: Global, bytes: &[u8]) -> Mem<()>
        ensures ok { OnOk result (self.new ≡ self.old ++ bytes.now) }
        ensures err { OnErr result (self.new ≡ self.old) }
    {
        let mut vec = Vec::with_capacity(alloc, self.len().saturating_add(bytes.len()))?;
        vec.extend_from_slice(self.as_slice())?;
        vec.extend_from_slice(bytes)?;
        *self = Blob::from_vec(alloc, vec)?;
        Ok(())
    }

    // Adds bytes in place, where nobody else holds the same.
    fn extend_own(&mut self, bytes: &[u8]) -> Mem<bool>
        ensures ok { IfOk result (λ own. self.new ≡ (if own then self.old ++ bytes.now else self.old)) }
        ensures err { OnErr result (self.new ≡ self.old) }
    {
        let Some(arc) = &mut self.held else {
            return Ok(false);
        };
        let Some(vec) = Arc::get_mut(arc) else {
            return Ok(false);
        };
        vec.extend_from_slice(bytes)?;
        Ok(true)
    }

    /// Adds bytes at the end. Who else holds the bytes from before keeps those.
    pub fn extend_from_slice(&mut self, alloc: Global, bytes: &[u8]) -> Mem<()>
        ensures ok { OnOk result (self.new ≡ self.old ++ bytes.now) }
        ensures err { OnErr result (self.new ≡ self.old) }
    {
        if self.extend_own(bytes)? {
            return Ok(());
        }
        self.extend_copy(alloc, bytes)
    }
}

impl Duplicate for Blob {
    fn copy(&self, _alloc: Global) -> Mem<Blob> {
        match &self.held {
            Some(arc) => Ok(Blob {
                held: Some(Arc::try_clone(arc)?),
            }),
            None => Ok(Blob { held: None }),
        }
    }
}

/// Whether two blobs have the same bytes.
impl PartialEq for Blob {
    ghost use Rattle.std.specs.Prelude.{nat_eq};
    ghost use lib.Pointwise.{pointwise};
    ghost use Rattle.std.specs.Cmp.{partial_equiv_from_equiv};
    ghost use Rattle.std.specs.Cmp.Lexicographic.{nat_list_eq_equiv};

    ghost eq = { pointwise nat_eq };

    ghost laws = { partial_equiv_from_equiv nat_list_eq_equiv };

    fn eq(&self, other: &Blob) -> bool {
        self.as_slice() == other.as_slice()
    }
}

impl Eq for Blob {
    ghost use Rattle.std.specs.Cmp.Lexicographic.{nat_list_eq_equiv};

    ghost laws = { nat_list_eq_equiv };
}
