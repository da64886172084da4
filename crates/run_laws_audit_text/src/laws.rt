// Theorems on the text of a replay.
ghost use Rattle.run_laws_audit_text.specs.Replayed.{AuditsHaveTheseLines, ReplayedTextGetsYes, ReplayedTextIsRead};

/// An auditor reads the input of a replay and the text that it writes with an outcome as the plan, the turns and what
/// an auditor sees of the events that the run told, if the data of all that was told and asked are plain and the
/// numbers that are seen fit 32 bits.
pub fn replayed_text_is_read()
    ensures { ReplayedTextIsRead }
{}

/// The bytes of an input that ends with a line feed, of the line that says that event lines follow, with its line feed,
/// and of a text, one after another, have the lines of the input, that line and the lines of the text.
pub fn audits_have_these_lines()
    ensures { AuditsHaveTheseLines }
{}

/// So if a replay ended with the status of an outcome, and its sink didn't fail, an auditor of what it wrote answers
/// yes, want of memory apart, with 0 if its own sink doesn't fail, and 9 if that does.
pub fn replayed_text_gets_yes()
    ensures { ReplayedTextGetsYes }
{}
