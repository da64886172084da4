// What is to be run.
ghost use Rattle.std.specs.Prelude.{◌≡◌, IfOk};

use crate::copies::both;
use crate::{
    FlakyResult, InputHandlerKind, LeakTimeoutResult, RetryPolicy, RunMode, SignalHandlerKind,
    SlowTimeoutResult,
};
use jiff_core::Timestamp;
use run_capture::{Duplicate, List, Mem, Text};
use run_commands::{BuildPlatform, TargetRunner, VersionEnvVars};
use std::alloc::Global;
use uuid::Uuid;

/// The name of a test: its binary and its name within it. In order by binary, then by name.
#[derive(Debug, Drop, PartialEq, Eq, PartialOrd, Ord, Hash)]
pub struct TestInstanceId {
    pub binary: Text,
    pub name: Text,
}

impl Duplicate for TestInstanceId {
    fn copy(&self, alloc: Global) -> Mem<TestInstanceId> {
        let (binary, name) = both(self.binary.copy(alloc), self.name.copy(alloc))?;
        Ok(TestInstanceId { binary, name })
    }
}

/// A slot within a test's group: the least free number from 0, and the group's name.
#[derive(Drop)]
pub struct GroupSlot {
    pub slot: u32,
    pub name: Text,
}

impl Duplicate for GroupSlot {
    fn copy(&self, alloc: Global) -> Mem<GroupSlot> {
        let name = self.name.copy(alloc)?;
        Ok(GroupSlot {
            slot: self.slot,
            name,
        })
    }
}

/// The slot that a test holds while it runs: the least free number from 0, and the same within its group.
#[derive(Drop)]
pub struct TestSlotAssignment {
    pub global: u32,
    /// In a group alone.
    pub group: Option<GroupSlot>,
}

impl Duplicate for TestSlotAssignment {
    fn copy(&self, alloc: Global) -> Mem<TestSlotAssignment> {
        let group = self.group.copy(alloc)?;
        Ok(TestSlotAssignment {
            global: self.global,
            group,
        })
    }
}

/// Tests that share a limit on how much of them runs at a time.
#[derive(Drop)]
pub struct Group {
    pub name: Text,
    /// The greatest sum of weights that may run at a time.
    pub limit: u32,
}

impl Duplicate for Group {
    fn copy(&self, alloc: Global) -> Mem<Group> {
        let name = self.name.copy(alloc)?;
        Ok(Group {
            name,
            limit: self.limit,
        })
    }
}

/// When an attempt is slow, and what comes of that. Times are in nanoseconds.
#[derive(Clone, Copy, Drop)]
pub struct SlowTimeout {
    /// After each such time the attempt is reported slow.
    pub period: u64,
    /// After so many of them it is ended; None is never, and 0 acts like 1.
    pub terminate_after: Option<u32>,
    /// How long it is given to end by itself, before it is killed.
    pub grace: u64,
    /// What an attempt that was ended so counts as.
    pub on_timeout: SlowTimeoutResult,
}

/// How long open descriptors of an ended child are waited for, in nanoseconds, and what a leak counts as.
#[derive(Clone, Copy, Drop)]
pub struct LeakTimeout {
    pub period: u64,
    pub result: LeakTimeoutResult,
}

/// A setup script of the plan.
#[derive(Drop)]
pub struct PlanScript {
    pub id: Text,
    /// The program and its arguments.
    pub command: List<Text>,
    /// Where it writes the variables that it hands on.
    pub env_path: Text,
    pub slow: SlowTimeout,
    pub leak: LeakTimeout,
    pub capture_stdout: bool,
    pub capture_stderr: bool,
}

impl Duplicate for PlanScript {
    fn copy(&self, alloc: Global) -> Mem<PlanScript> {
        let texts = both(self.id.copy(alloc), self.env_path.copy(alloc));
        let ((id, env_path), command) = both(texts, self.command.copy(alloc))?;
        Ok(PlanScript {
            id,
            command,
            env_path,
            slow: self.slow,
            leak: self.leak,
            capture_stdout: self.capture_stdout,
            capture_stderr: self.capture_stderr,
        })
    }
}

/// A test of the plan.
#[derive(Drop)]
pub struct PlanTest {
    pub id: TestInstanceId,
    /// The program and its arguments.
    pub command: List<Text>,
    /// Where the test doesn't match, the reason for which it is skipped.
    pub skip: Option<Text>,
    /// How much of the limits it takes while it runs.
    pub weight: u32,
    /// The greater, the earlier it is admitted: from -100 to 100; usual 0.
    pub priority: i8,
    pub group: Option<Text>,
    pub retries: RetryPolicy,
    pub flaky: FlakyResult,
    pub slow: SlowTimeout,
    pub leak: LeakTimeout,
    /// The setup scripts whose variables it gets, by number.
    pub scripts: List<u32>,
    pub platform: BuildPlatform,
}

// The reason of a test's skip, and its group.
fn texts_of(alloc: Global, test: &PlanTest) -> Mem<(Option<Text>, Option<Text>)>
    ensures { IfOk result (λ p. p ≡ (test.now.skip, test.now.group)) }
{
    both(test.skip.copy(alloc), test.group.copy(alloc))
}

impl Duplicate for PlanTest {
    fn copy(&self, alloc: Global) -> Mem<PlanTest> {
        let lists = both(self.scripts.copy(alloc), self.command.copy(alloc));
        let texts = both(texts_of(alloc, self), self.id.copy(alloc));
        let ((scripts, command), ((skip, group), id)) = both(lists, texts)?;
        Ok(PlanTest {
            id,
            command,
            skip,
            weight: self.weight,
            priority: self.priority,
            group,
            retries: self.retries,
            flaky: self.flaky,
            slow: self.slow,
            leak: self.leak,
            scripts,
            platform: self.platform,
        })
    }
}

/// What a run is to its children and to whoever reads its events.
pub struct RunHead {
    pub run_id: Uuid,
    /// The moment at which the run's clock is 0: the start of 1970 where none is given.
    pub started_at: Option<Timestamp>,
    pub profile: Text,
    pub workspace_root: Text,
    /// The words with which the runner was called.
    pub args: List<Text>,
    pub mode: RunMode,
    pub versions: VersionEnvVars,
}

// A call of its own, which keeps the proofs of all that hold a run's head small.
impl Drop for RunHead {
    fn drop(self) {
        let RunHead {
            run_id: _,
            started_at: _,
            profile: _,
            workspace_root: _,
            args: _,
            mode: _,
            versions: _,
        } = self;
    }
}

impl Duplicate for RunHead {
    fn copy(&self, alloc: Global) -> Mem<RunHead> {
        let texts = both(self.profile.copy(alloc), self.workspace_root.copy(alloc));
        let words = both(self.args.copy(alloc), self.versions.copy(alloc));
        let ((profile, workspace_root), (args, versions)) = both(texts, words)?;
        Ok(RunHead {
            run_id: self.run_id,
            started_at: self.started_at,
            profile,
            workspace_root,
            args,
            mode: self.mode,
            versions,
        })
    }
}

/// Which signals and keys a run hears.
#[derive(Clone, Copy, Drop)]
pub struct Hearing {
    pub signals: SignalHandlerKind,
    pub input: InputHandlerKind,
    /// Whether a quit signal asks for information, and doesn't shut the run down.
    pub quit_is_info: bool,
}

/// What is to be run. With S scripts, script i is unit i, and the test at place j is unit S + j.
pub struct Plan {
    pub head: RunHead,
    pub hearing: Hearing,
    /// How long the run may take, in nanoseconds.
    pub global_timeout: Option<u64>,
    /// Of equal names the first counts.
    pub groups: List<Group>,
    pub runners: TargetRunner,
    pub scripts: List<PlanScript>,
    pub tests: List<PlanTest>,
}

// A call of its own, which keeps the proofs of all that hold a plan small.
impl Drop for Plan {
    fn drop(self) {
        let Plan {
            head: _,
            hearing: _,
            global_timeout: _,
            groups: _,
            runners: _,
            scripts: _,
            tests: _,
        } = self;
    }
}

// What a plan lists.
#[derive(Drop)]
struct PlanLists {
    groups: List<Group>,
    scripts: List<PlanScript>,
    tests: List<PlanTest>,
}

fn lists_of(alloc: Global, plan: &Plan) -> Mem<PlanLists>
    ensures groups { IfOk result (λ lists. lists.groups ≡ plan.now.groups) }
    ensures scripts { IfOk result (λ lists. lists.scripts ≡ plan.now.scripts) }
    ensures tests { IfOk result (λ lists. lists.tests ≡ plan.now.tests) }
{
    let units = both(plan.scripts.copy(alloc), plan.tests.copy(alloc));
    let ((scripts, tests), groups) = both(units, plan.groups.copy(alloc))?;
    Ok(PlanLists {
        groups,
        scripts,
        tests,
    })
}

// A plan with these lists and runners, and all else of another.
fn with_head(alloc: Global, plan: &Plan, lists: PlanLists, runners: TargetRunner) -> Mem<Plan>
    ensures { IfOk result (λ p. p ≡ record plan.now {
      groups = lists.groups;
      runners = runners;
      scripts = lists.scripts;
      tests = lists.tests;
    }) }
{
    let head = plan.head.copy(alloc)?;
    Ok(Plan {
        head,
        hearing: plan.hearing,
        global_timeout: plan.global_timeout,
        groups: lists.groups,
        runners,
        scripts: lists.scripts,
        tests: lists.tests,
    })
}

impl Duplicate for Plan {
    fn copy(&self, alloc: Global) -> Mem<Plan> {
        let (lists, runners) = both(lists_of(alloc, self), self.runners.copy(alloc))?;
        with_head(alloc, self, lists, runners)
    }
}
