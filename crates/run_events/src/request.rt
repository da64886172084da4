// What the dispatcher asks of a unit, and how a unit ends its child.

/// Why a unit is to end its child.
#[derive(Clone, Copy, Drop)]
pub enum ShutdownRequest {
    Interrupt,
    Term,
    Hangup,
    Quit,
    /// Too many tests failed.
    TestFailureImmediate,
    /// A second signal came.
    Twice,
}

/// A request of the dispatcher to a unit. Each unit has a line of its own.
#[derive(Clone, Copy, Drop)]
pub enum Request {
    /// Stop the child, in this round.
    Stop { round: u32 },
    /// Let it go on.
    Continue,
    /// End it.
    Shutdown(ShutdownRequest),
    /// Start no further attempt.
    OtherCancel,
    /// Say what it is doing, in this round.
    GetInfo { round: u32 },
}

/// Why a child is being ended.
#[derive(Clone, Copy, Drop)]
pub enum TerminateReason {
    /// It ran too long.
    Timeout,
    /// The run is shut down.
    Signal(ShutdownRequest),
}

/// The signal that ends a child.
#[derive(Clone, Copy, Drop)]
pub enum TermSignal {
    Interrupt,
    Term,
    Hangup,
    Quit,
    Kill,
}

/// A signal that is asked for a child.
#[derive(Clone, Copy, Drop)]
pub enum ChildSignal {
    /// It is to end.
    End(TermSignal),
    /// It is to stop.
    Tstp,
    /// It is to go on.
    Cont,
}
