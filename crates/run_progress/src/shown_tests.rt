// Running tests as a display shows them, in whichever way they are kept.
ghost use Rattle.std.specs.Prelude.{◌≡◌, ◌++◌, ◌<◌, ◌^◌, length, map, take, string_bytes, IfOk};
ghost use Rattle.run_progress.specs.Lines.{below, shown_of, test_line};
ghost use Rattle.std.specs.Prelude.{List};
ghost use Rattle.run_progress.specs.declared.running_test.RunningTest.{RunningTest as Running};

use crate::lines::{push_lines, shown_of};
use crate::live_tests::LiveTests;
use crate::max_running::MaxProgressRunning;
use crate::running_test::RunningTest;
use run_capture::{List, Mem};
use std::alloc::Global;

/// Running tests, in the order in which they started last.
pub(crate) trait ShownTests {
    ghost use Rattle.std.specs.Prelude.{List};
    ghost use Rattle.run_progress.specs.declared.running_test.RunningTest.{RunningTest as Running};

    /// The tests.
    ghost tests: { Self → List Running };

    /// How many they are.
    fn count(&self) -> usize
        ensures count { result ≡ length (tests self.now) }
        ensures small { result < 2 ^ 63 };

    /// Adds the lines of those that are shown, and answers how many they are.
    fn push_shown(
        &self,
        alloc: Global,
        out: &mut String,
        now: u64,
        width: u32,
        max: MaxProgressRunning,
    ) -> Mem<usize>
        ensures text { IfOk result (λ _. string_bytes out.new
            ≡ string_bytes out.old ++ below (map (test_line now width) (shown_of max (tests self.now)))) }
        ensures lines { IfOk result (λ n. n ≡ length (shown_of max (tests self.now))) };
}

impl ShownTests for List<RunningTest> {
    ghost tests = { λ tests. tests };

    fn count(&self) -> usize {
        self.as_slice().len()
    }

    fn push_shown(
        &self,
        alloc: Global,
        out: &mut String,
        now: u64,
        width: u32,
        max: MaxProgressRunning,
    ) -> Mem<usize> {
        let shown = shown_of(max, self.as_slice());
        push_lines(alloc, out, now, width, shown)?;
        Ok(shown.len())
    }
}

// How many of so many tests are shown.
fn shown_count(max: MaxProgressRunning, count: usize) -> usize
    ensures { (tests : List Running) → length tests ≡ count → take result tests ≡ shown_of max tests }
{
    match max {
        MaxProgressRunning::Count(most) => most,
        MaxProgressRunning::Infinite => count,
    }
}

impl ShownTests for LiveTests {
    ghost tests = { λ tests. tests };

    fn count(&self) -> usize {
        self.len()
    }

    fn push_shown(
        &self,
        alloc: Global,
        out: &mut String,
        now: u64,
        width: u32,
        max: MaxProgressRunning,
    ) -> Mem<usize> {
        let most = shown_count(max, self.len());
        self.push_first(alloc, out, now, width, most)
    }
}
