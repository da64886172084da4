// Why a run is cancelled.
ghost use Rattle.std.specs.Prelude.{◌≡◌, nat_lt};
ghost use Rattle.run_events.specs.Cancel.{greater, rank};

/// The reason of a cancelled run, in rising order.
#[derive(Clone, Copy, Debug, Drop, PartialEq, Eq, PartialOrd, Ord)]
pub enum CancelReason {
    SetupScriptFailure,
    TestFailure,
    ReportError,
    GlobalTimeout,
    TestFailureImmediate,
    Signal,
    Interrupt,
    SecondSignal,
}

impl CancelReason {
    /// Whether this reason stands below another, which replaces it.
    pub fn is_below(self, other: CancelReason) -> bool
        ensures { result ≡ nat_lt (rank self) (rank other) }
    {
        self < other
    }

    /// The greater of two reasons, of which either may be missing.
    pub fn greater(
        reason: Option<CancelReason>,
        cause: Option<CancelReason>,
    ) -> Option<CancelReason>
        ensures { result ≡ greater reason cause }
    {
        match (reason, cause) {
            (None, cause) => cause,
            (reason, None) => reason,
            (Some(reason), Some(cause)) if reason.is_below(cause) => Some(cause),
            (reason, Some(_)) => reason,
        }
    }
}
