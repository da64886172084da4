// Whether something is ready.

/// A value that is ready, or none yet.
#[derive(Clone, Copy, Drop, PartialEq, Eq)]
pub enum Poll<T> {
    /// It is ready, with this value.
    Ready(T),
    /// It isn't ready yet.
    Pending,
}
