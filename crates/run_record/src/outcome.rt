// What became of a record.
ghost use Rattle.std.specs.Prelude.{◌≡◌};
ghost use Rattle.run_record.specs.Statuses.{is_over_status, recorded_status, status_for_outcome};

/// What became of the record of a run.
#[derive(Clone, Copy, Drop)]
pub enum RecordOutcome {
    /// It has the plan line and each turn that the run took; and its end, where the run is over.
    Recorded,
    /// The line is no plan line, and nothing is recorded.
    Planless,
    /// Its sink failed.
    Unwritten,
    /// A turn's line is longer than a store may have it.
    Unstorable,
    /// Memory was wanting.
    NoMemory,
}

/// Whether a run with this status is over: it has an outcome, or an event of it was refused.
pub fn is_over(status: u8) -> bool
    ensures { result ≡ is_over_status status }
{
    matches!(status, 0 | 4 | 9 | 100 | 105)
}

impl RecordOutcome {
    // The status in the place of an outcome's.
    fn status_for_outcome(self, status: u8) -> u8
        ensures { result ≡ status_for_outcome self status }
    {
        match self {
            RecordOutcome::Recorded | RecordOutcome::Planless => status,
            RecordOutcome::Unwritten => 9,
            RecordOutcome::Unstorable => 12,
            RecordOutcome::NoMemory => 11,
        }
    }

    /// The status of a recorded run whose own status is this: that one, but of a run with an outcome that wasn't
    /// recorded 9, 11 or 12.
    pub(crate) fn status(self, status: u8) -> u8
        ensures { result ≡ recorded_status self status }
    {
        if is_over(status) {
            self.status_for_outcome(status)
        } else {
            status
        }
    }
}
