// Theorems on the lines of events.
ghost use Rattle.run_laws_audit_line.specs.ToldLines.{CancelsHaveReasons, ToldLinesAreRead};
ghost use Rattle.run_laws_audit_line.specs.EventLines.{EventLinesAreRead};

/// A reader for an auditor reads the line of an event as what an auditor sees of that event, if the event's data are
/// plain, the numbers that an auditor sees of it fit 32 bits, and it has a reason where it tells that the run is
/// cancelled or killed.
pub fn event_lines_are_read()
    ensures { EventLinesAreRead }
{}

/// Each event that a legal journal tells has a reason, where it tells that the run is cancelled or killed.
pub fn cancels_have_reasons()
    ensures { CancelsHaveReasons }
{}

/// So the line of each event that a legal journal tells is read as what an auditor sees of it, if its data are plain
/// and the numbers that an auditor sees of it fit 32 bits.
pub fn told_lines_are_read()
    ensures { ToldLinesAreRead }
{}
