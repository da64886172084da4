// The tests of a list.

use run_capture::{List, Text};
use run_commands::BuildPlatform;

/// A test that a binary has.
#[derive(Drop)]
pub struct ListedTest {
    pub name: Text,
    pub is_ignored: bool,
    /// The reason for which the list itself leaves the test out.
    pub left_out: Option<Text>,
}

/// What a test binary is of.
#[derive(Drop)]
pub struct BinaryFacts {
    pub package_name: Text,
    pub name: Text,
    /// As `lib`, `test` or `bin`.
    pub kind: Text,
    pub platform: BuildPlatform,
}

/// A test binary.
#[derive(Drop)]
pub struct TestBinary {
    pub id: Text,
    pub facts: BinaryFacts,
    /// What runs it in its folder: a program and its arguments, before those of a test.
    pub command: List<Text>,
    pub tests: List<ListedTest>,
}

/// What is there to be run.
#[derive(Drop)]
pub struct TestList {
    /// The folder that cargo builds in.
    pub target: Text,
    /// The workspace's folder, where the list names it.
    pub root: Option<Text>,
    /// In the order of the bytes of their ids; of each the tests in that of their names.
    pub binaries: List<TestBinary>,
}
