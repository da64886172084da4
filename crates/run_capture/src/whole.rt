// A wide value that is moved and dropped as one piece.
ghost use Rattle.std.specs.Prelude.{◌≡◌};

use std::marker::Model;

/// A value of many parts as one piece: contracts see the value, and proofs move it as one. Takes no memory.
#[derive(Drop)]
pub struct Whole<T> {
    inner: T,
}

impl<T> Model for Whole<T> {
    ghost Value = { T };

    ghost view = { λ w. w.inner };
}

impl<T> Whole<T> {
    pub fn new(inner: T) -> Whole<T>
        ensures { result ≡ inner }
    {
        Whole { inner }
    }

    pub fn get(&self) -> &T
        ensures { result.now ≡ self.now }
    {
        &self.inner
    }
}
