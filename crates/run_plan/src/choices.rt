// What words choose.

use run_capture::{List, Text};
use run_commands::StressCondition;
use run_events::{FlakyResult, MaxFail};
use run_filter::Partition;
use std::marker::Model;

/// Which tests run, of those that are ignored and those that aren't.
#[derive(Clone, Copy, Drop)]
pub enum RunIgnored {
    /// Those that aren't.
    Default,
    /// Those that are.
    Only,
    All,
}

/// A part of a partition of the tests, as `hash:2/3`. Clauses see its kind, its number from 1, and how many there are.
#[derive(Drop)]
pub struct Part {
    pub(crate) partition: Partition,
}

impl Model for Part {
    ghost use Rattle.std.specs.Prelude.{ℕ};
    ghost use Rattle.run_filter.specs.declared.partition.PartitionKind.{PartitionKind};

    ghost Value = { PartitionKind × ℕ × ℕ };

    ghost view = { λ p. (p.partition.kind, p.partition.part, p.partition.parts) };
}

/// The files that are read.
#[derive(Drop)]
pub struct Files {
    pub list: Option<Text>,
    /// What `rustc --print cfg` says.
    pub cfg: Option<Text>,
    pub config: Option<Text>,
}

/// Which tests run.
#[derive(Drop)]
pub struct Picks {
    pub filters: List<Text>,
    pub names: List<Text>,
    pub skips: List<Text>,
    /// Whether names are whole names.
    pub is_exact: bool,
    pub ignores_default_filter: bool,
    pub run_ignored: Option<RunIgnored>,
    pub partition: Option<Part>,
}

/// How they run.
#[derive(Drop)]
pub struct Ways {
    pub profile: Option<Text>,
    pub threads: Option<u32>,
    pub retries: Option<u32>,
    pub flaky: Option<FlakyResult>,
    pub max_fail: Option<MaxFail>,
    /// How often, or how long, all is repeated.
    pub stress: Option<StressCondition>,
    pub no_capture: bool,
}

/// What words choose. Nothing stands where no word says it.
#[derive(Drop)]
pub struct Choices {
    pub files: Files,
    pub picks: Picks,
    pub ways: Ways,
}
