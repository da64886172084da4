// What stands at a key of an object, where it holds no object itself.
ghost use Rattle.std.specs.Prelude.{◌≡◌, true, false, is_none, option_map};
ghost use Rattle.run_output.specs.Fields.{count, nonzero};
ghost use Rattle.run_output.specs.Printer.{Prints, data_tokens, or_null};

use crate::errors::{has_no_errors, print_errors};
use crate::lists::{print_pairs, print_test, print_tests, print_texts, print_variables};
use crate::printer::{Printed, Printer};
use crate::texts::{print_hex, print_id, print_result, print_runs};
use run_capture::{Blob, List, Mem, Text};
use run_commands::{SetupScriptOutputError, StressCount};
use run_events::{ChildExecutionOutput, ExecutionResult, TestInstanceId, Variables};
use std::alloc::Global;
use uuid::Uuid;

/// What stands at a key. No variant holds a float.
#[derive(Clone, Copy)]
pub(crate) enum Leaf<'a> {
    /// Nothing: the key is left out.
    Absent,
    /// A number.
    Count(u32),
    /// A number.
    Number(u64),
    /// A number, left out where it is 0.
    Nonzero(u64),
    /// A number that may be below 0.
    Signed(i32),
    /// A truth value.
    Truth(bool),
    /// A text of this crate's own.
    Word(&'a str),
    /// A text.
    Text(&'a Text),
    /// A list of texts.
    Texts(&'a List<Text>),
    /// A list of pairs of texts, each as a list of two.
    Pairs(&'a [(Text, Text)]),
    /// Variables, each as a list of its name and its value.
    Variables(&'a Variables),
    /// Bytes, as a text in hex.
    Hex(&'a Blob),
    /// An id, as a text.
    Id(Uuid),
    /// A test, as a list of its binary and its name.
    Test(&'a TestInstanceId),
    /// A list of tests.
    Tests(&'a List<TestInstanceId>),
    /// A result, as a text.
    Result(ExecutionResult),
    /// The errors of a child and then that of its environment file, as a list of texts; left out where
    /// there is none.
    Errors(&'a ChildExecutionOutput, Option<SetupScriptOutputError>),
    /// How often a stress run repeats, as a text.
    Runs(StressCount),
}

// Whether a number is left out where it is 0.
#[tactic(auto, using(crate::proofs::PrintLemmas::nonzero_absent))]
fn is_left_out(number: u64) -> bool
    ensures { result ≡ is_none (nonzero number) }
{
    number == 0
}

#[tactic(auto, unfolding(crate::specs::Fields::nonzero))]
fn print_nonzero(out: &mut Printer, number: u64) -> Mem<()>
    ensures { Prints result out.old out.new (data_tokens (or_null (nonzero number))) }
{
    if number == 0 {
        out.null()
    } else {
        out.number(number)
    }
}

impl Printed for Leaf<'_> {
    ghost use Rattle.run_output.specs.Leaf.{leaf_data};

    ghost printed = { leaf_data };

    fn is_absent(&self) -> bool {
        match *self {
            Leaf::Absent => true,
            Leaf::Nonzero(number) => is_left_out(number),
            Leaf::Errors(child, fault) => has_no_errors(child, fault),
            _ => false,
        }
    }

    fn print(&self, alloc: Global, out: &mut Printer) -> Mem<()> {
        if self.is_short() {
            self.print_short(out)
        } else {
            self.print_long(alloc, out)
        }
    }
}

impl Leaf<'_> {
    ghost use Rattle.run_output.specs.Leaf.{leaf_data, is_short};

    // Whether it is nothing, a number or a truth value.
    fn is_short(&self) -> bool
        ensures { result ≡ is_short self.now }
    {
        matches!(
            *self,
            Leaf::Absent
                | Leaf::Count(_)
                | Leaf::Number(_)
                | Leaf::Nonzero(_)
                | Leaf::Signed(_)
                | Leaf::Truth(_)
        )
    }

    fn print_short(&self, out: &mut Printer) -> Mem<()>
        requires { is_short self.now ≡ true }
        ensures { Prints result out.old out.new (data_tokens (or_null (leaf_data self.now))) }
    {
        match *self {
            Leaf::Absent => out.null(),
            Leaf::Count(number) => out.number(number as u64),
            Leaf::Number(number) => out.number(number),
            Leaf::Nonzero(number) => print_nonzero(out, number),
            Leaf::Signed(number) => out.signed(number),
            Leaf::Truth(truth) => out.truth(truth),
            _ => unreachable!(),
        }
    }

    fn print_long(&self, alloc: Global, out: &mut Printer) -> Mem<()>
        requires { is_short self.now ≡ false }
        ensures { Prints result out.old out.new (data_tokens (or_null (leaf_data self.now))) }
    {
        match *self {
            Leaf::Word(word) => out.text(word),
            Leaf::Text(text) => out.text(text.as_str()),
            Leaf::Texts(list) => print_texts(out, list.as_slice()),
            Leaf::Pairs(list) => print_pairs(out, list),
            Leaf::Variables(list) => print_variables(alloc, out, list),
            Leaf::Hex(bytes) => print_hex(alloc, out, bytes),
            Leaf::Id(id) => print_id(alloc, out, id),
            Leaf::Test(test) => print_test(out, test),
            Leaf::Tests(list) => print_tests(out, list.as_slice()),
            Leaf::Result(outcome) => print_result(alloc, out, outcome),
            Leaf::Errors(child, fault) => print_errors(alloc, out, child, fault),
            Leaf::Runs(runs) => print_runs(alloc, out, runs),
            _ => unreachable!(),
        }
    }
}

impl Leaf<'_> {
    ghost use Rattle.run_output.specs.Leaf.{leaf_data};

    /// A number, where there is one.
    pub(crate) fn count_of(number: Option<u32>) -> Leaf<'static>
        ensures { leaf_data result ≡ option_map count number }
    {
        match number {
            Some(number) => Leaf::Count(number),
            None => Leaf::Absent,
        }
    }

    /// A number, where there is one.
    pub(crate) fn number_of(number: Option<u64>) -> Leaf<'static>
        ensures { leaf_data result ≡ option_map count number }
    {
        match number {
            Some(number) => Leaf::Number(number),
            None => Leaf::Absent,
        }
    }
}
