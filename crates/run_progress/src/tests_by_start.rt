// The running tests by their starts: a test is found by its id, and leaves, with no look at the others.
ghost use Rattle.std.specs.Prelude.{◌≡◌, ◌+◌, ◌<◌, ◌^◌, ◌∷◌, [], ◌++◌, length, map, take, string_bytes};
ghost use Rattle.std.specs.Prelude.{IfOk, OnErr, OnOk};
ghost use Rattle.std.specs.BTreeMap.{IsOrdered, values};
ghost use Rattle.std.specs.BTreeMap as tree;
ghost use Rattle.std.specs.HashMap.{get};
ghost use Rattle.std.specs.Ordering.{nat_cmp};
ghost use Rattle.run_progress.specs.Deeds.{is_same};
ghost use Rattle.run_progress.specs.Edits.{paused_more, slowed, without};
ghost use Rattle.run_progress.specs.Lines.{below, test_line};
ghost use Rattle.run_progress.specs.Starts.{FindsEach, paused_each, slow_where, without_start};

use crate::edits::delay_one;
use crate::lines::push_line;
use crate::running_test::{RunningTest, RunningTestStatus};
use run_capture::{Mem, OutOfMemory};
use run_events::TestInstanceId;
use std::alloc::Global;
use std::collections::{BTreeMap, HashMap};
use std::marker::Model;

/// Running tests by the numbers of their starts, the number of each id's last start, and that of the next start.
/// Contracts see the tests, in the order of their starts.
#[derive(Drop)]
pub(crate) struct Started {
    tests: BTreeMap<u64, RunningTest>,
    starts: HashMap<TestInstanceId, u64>,
    next: u64,
}

impl Model for Started {
    ghost use Rattle.std.specs.Prelude.{List};
    ghost use Rattle.std.specs.BTreeMap.{values};
    ghost use Rattle.std.specs.HashMap.{get};
    ghost use Rattle.run_progress.specs.declared.running_test.RunningTest.{RunningTest as Running};
    ghost use Rattle.run_progress.specs.Deeds.{is_same};
    ghost use Rattle.run_progress.specs.Starts.{FindsEach};

    ghost Value = { List Running };

    ghost view = { λ s. values s.tests };

    ghost invariant = { λ s. FindsEach (get is_same s.starts) s.next s.tests.entries };
}

// Takes out the test of a start, if it is one.
fn leave(tests: &mut BTreeMap<u64, RunningTest>, start: Option<u64>)
    ensures tests { tests.new.entries ≡ without_start start tests.old.entries }
    ensures ordered { IsOrdered nat_cmp tests.old → IsOrdered nat_cmp tests.new }
{
    if let Some(number) = start {
        tests.remove(&number);
    }
}

// Takes out a test and its start.
fn remove(
    tests: &mut BTreeMap<u64, RunningTest>,
    starts: &mut HashMap<TestInstanceId, u64>,
    id: &TestInstanceId,
)
    ensures finds { (next : _) → FindsEach (get is_same starts.old) next tests.old.entries
        → FindsEach (get is_same starts.new) next tests.new.entries }
    ensures tests { (next : _) → FindsEach (get is_same starts.old) next tests.old.entries
        → values tests.new ≡ without id.now (values tests.old) }
{
    let start = starts.remove(id);
    leave(tests, start);
}

// Puts a test at the end, with its start, and takes it out of where it was.
fn put(
    tests: &mut BTreeMap<u64, RunningTest>,
    starts: &mut HashMap<TestInstanceId, u64>,
    number: u64,
    running: RunningTest,
    id: TestInstanceId,
) -> Mem<()>
    requires { running.test ≡ id }
    ensures finds { OnOk result (FindsEach (get is_same starts.old) number tests.old.entries
        → FindsEach (get is_same starts.new) (number + 1) tests.new.entries) }
    ensures tests { OnOk result (FindsEach (get is_same starts.old) number tests.old.entries
        → values tests.new ≡ without id (values tests.old) ++ running ∷ []) }
    ensures err { OnErr result (FindsEach (get is_same starts.old) number tests.old.entries
        → (tests.new.entries ≡ tests.old.entries) × (starts.new.entries ≡ starts.old.entries)) }
{
    tests.insert(number, running)?;
    let before = match starts.insert(id, number) {
        Ok(before) => before,
        Err(_) => {
            leave(tests, Some(number));
            return Err(OutOfMemory);
        }
    };
    leave(tests, before);
    Ok(())
}

// The test of a start is slow, if it is one.
fn slow_at(tests: &mut BTreeMap<u64, RunningTest>, number: u64)
    ensures { tests.new.entries ≡ slow_where (tree.get nat_cmp tests.old number) number tests.old.entries }
{
    if let Some(running) = tests.get_mut(&number) {
        running.status = RunningTestStatus::Slow;
    }
}

// A pause of this length ends.
fn delay_each(tests: &mut BTreeMap<u64, RunningTest>, pause: u64)
    ensures { tests.new.entries ≡ paused_each pause tests.old.entries }
{
    tests.retain(|_, running| {
        delay_one(running, pause);
        true
    });
}

// Adds the lines of the first tests, and answers how many they are.
fn push_first(
    alloc: Global,
    out: &mut String,
    now: u64,
    width: u32,
    tests: &BTreeMap<u64, RunningTest>,
    most: usize,
) -> Mem<usize>
    ensures text { IfOk result (λ _. string_bytes out.new
        ≡ string_bytes out.old ++ below (map (test_line now width) (take most (values tests.now)))) }
    ensures lines { IfOk result (λ n. n ≡ length (take most (values tests.now))) }
{
    let mut shown = 0;
    for running in tests.values() {
        if shown == most {
            return Ok(shown);
        }
        push_line(alloc, out, now, width, running)?;
        shown += 1;
    }
    Ok(shown)
}

impl Started {
    /// Before any start.
    pub(crate) fn new(alloc: Global) -> Started
        ensures { result ≡ [] }
    {
        Started {
            tests: BTreeMap::new(alloc),
            starts: HashMap::new(alloc),
            next: 0,
        }
    }

    /// A test starts: it stands at the end, and no more where it was.
    pub(crate) fn start(&mut self, running: RunningTest, id: TestInstanceId) -> Mem<()>
        requires { running.test ≡ id }
        ensures ok { OnOk result (self.new ≡ without id self.old ++ running ∷ []) }
        ensures err { OnErr result (self.new ≡ self.old) }
    {
        let Some(next) = self.next.checked_add(1) else {
            return Err(OutOfMemory);
        };
        put(&mut self.tests, &mut self.starts, self.next, running, id)?;
        self.next = next;
        Ok(())
    }

    /// A test finishes.
    pub(crate) fn finish(&mut self, id: &TestInstanceId)
        ensures { self.new ≡ without id.now self.old }
    {
        remove(&mut self.tests, &mut self.starts, id);
    }

    /// A test is slow.
    pub(crate) fn slow(&mut self, id: &TestInstanceId)
        ensures { self.new ≡ map (slowed id.now) self.old }
    {
        if let Some(number) = self.starts.get(id) {
            slow_at(&mut self.tests, *number);
        }
    }

    /// A pause of this length ends.
    pub(crate) fn delay(&mut self, pause: u64)
        ensures { self.new ≡ map (paused_more pause) self.old }
    {
        delay_each(&mut self.tests, pause);
    }

    /// How many tests run.
    pub(crate) fn len(&self) -> usize
        ensures len { result ≡ length self.now }
        ensures small { result < 2 ^ 63 }
    {
        self.tests.len()
    }

    /// Adds the lines of the first tests, and answers how many they are.
    pub(crate) fn push_first(
        &self,
        alloc: Global,
        out: &mut String,
        now: u64,
        width: u32,
        most: usize,
    ) -> Mem<usize>
        ensures text { IfOk result (λ _. string_bytes out.new
            ≡ string_bytes out.old ++ below (map (test_line now width) (take most self.now))) }
        ensures lines { IfOk result (λ n. n ≡ length (take most self.now)) }
    {
        push_first(alloc, out, now, width, &self.tests, most)
    }
}
