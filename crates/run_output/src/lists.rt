// Lists as arrays.
ghost use Rattle.std.specs.Prelude.{◌≡◌, ◌∷◌, []};
ghost use Rattle.run_output.specs.Fields.{array_of, texts, pair};
ghost use Rattle.run_output.specs.Printer.{Prints, data_tokens};
ghost use Rattle.run_output.specs.Texts.{test_data};

use crate::printer::Printer;
use run_capture::{Mem, Text};
use run_events::{TestInstanceId, Variables};
use std::alloc::Global;

/// Texts.
pub(crate) fn print_texts(out: &mut Printer, list: &[Text]) -> Mem<()>
    ensures { Prints result out.old out.new (data_tokens (texts list.now)) }
{
    out.begin_array()?;
    for text in list {
        out.text(text.as_str())?;
    }
    out.end_array()
}

// Two texts.
#[tactic(auto, using(crate::proofs::PrintLemmas::pair_printed))]
fn print_pair(out: &mut Printer, first: &Text, second: &Text) -> Mem<()>
    ensures { Prints result out.old out.new
        (data_tokens (texts (first.now ∷ second.now ∷ []))) }
{
    out.begin_array()?;
    out.text(first.as_str())?;
    out.text(second.as_str())?;
    out.end_array()
}

/// Pairs of texts.
pub(crate) fn print_pairs(out: &mut Printer, list: &[(Text, Text)]) -> Mem<()>
    ensures { Prints result out.old out.new (data_tokens (array_of pair list.now)) }
{
    out.begin_array()?;
    for (first, second) in list {
        print_pair(out, first, second)?;
    }
    out.end_array()
}

/// Variables, each as its name and its value.
pub(crate) fn print_variables(alloc: Global, out: &mut Printer, variables: &Variables) -> Mem<()>
    ensures { Prints result out.old out.new (data_tokens (array_of pair variables.now)) }
{
    let list = variables.to_list(alloc)?;
    print_pairs(out, list.as_slice())
}

/// A test by its binary and its name.
pub(crate) fn print_test(out: &mut Printer, test: &TestInstanceId) -> Mem<()>
    ensures { Prints result out.old out.new (data_tokens (test_data test.now)) }
{
    print_pair(out, &test.binary, &test.name)
}

/// Tests.
pub(crate) fn print_tests(out: &mut Printer, list: &[TestInstanceId]) -> Mem<()>
    ensures { Prints result out.old out.new (data_tokens (array_of test_data list.now)) }
{
    out.begin_array()?;
    for test in list {
        print_test(out, test)?;
    }
    out.end_array()
}
