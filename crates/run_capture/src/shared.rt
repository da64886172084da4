// A value that several hold and nobody changes.
ghost use Rattle.std.specs.Prelude.{◌≡◌, IfOk};

use crate::Mem;
use std::alloc::Global;
use std::marker::Model;
use std::sync::Arc;

/// A value that several hold, in any threads, and nobody changes. Contracts see the value.
#[derive(Drop)]
pub struct Shared<T> {
    arc: Arc<T, Global>,
}

impl<T> Model for Shared<T> {
    ghost use Rattle.std.specs.Arc.{arc_value};

    ghost Value = { T };

    ghost view = { λ s. arc_value s.arc };
}

impl<T: Drop> Shared<T> {
    pub fn new(alloc: Global, value: T) -> Mem<Shared<T>>
        ensures { IfOk result (λ shared. shared ≡ value) }
    {
        let arc = Arc::new(alloc, value)?;
        Ok(Shared { arc })
    }
}

impl<T> Shared<T> {
    pub fn get(&self) -> &T
        ensures { result.now ≡ self.now }
    {
        &self.arc
    }

    /// The same value, with one more to hold it. Takes no memory of its own.
    pub fn share(&self) -> Mem<Shared<T>>
        ensures { IfOk result (λ shared. shared ≡ self.now) }
    {
        let arc = Arc::try_clone(&self.arc)?;
        Ok(Shared { arc })
    }
}
