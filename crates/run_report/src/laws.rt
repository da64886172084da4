// What holds of every report.
ghost use Rattle.run_report.specs.Laws.{FinalLines, NoForgedLine, Outputs, SummariesAreTold};

/// There is one final line for each finished test that a level shows, in order, with its test, its word and its
/// counter.
pub fn each_finish_has_its_line()
    ensures { FinalLines }
{}

/// An output is shown where it is to be shown, and with the end of its own run or sub-run.
pub fn an_output_is_its_own()
    ensures { Outputs }
{}

/// The summaries show the counts that were told.
pub fn summaries_are_told()
    ensures { SummariesAreTold }
{}

/// No name, id, word of a command or text of an error can end a line, or begin an escape sequence.
pub fn no_line_is_forged()
    ensures { NoForgedLine }
{}
