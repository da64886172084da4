// What holds of every document.
ghost use Rattle.run_junit.specs.Laws.{CasesAreFinishes, CountsAreThoseBelow, FaultsAreCounted, NoTextIsForm};

/// There is one case for each finished test and setup script that was told, in the order of its suite.
pub fn cases_are_finishes()
    ensures { CasesAreFinishes }
{}

/// Each count is the number of what stands below it.
pub fn counts_are_those_below()
    ensures { CountsAreThoseBelow }
{}

/// The failures and errors are the finishes that the statistics count as failed.
pub fn faults_are_counted()
    ensures { FaultsAreCounted }
{}

/// No name, id, text of an error or output can be read as the form of the document, and all its characters are of XML
/// 1.0.
pub fn no_text_is_form()
    ensures { NoTextIsForm }
{}
