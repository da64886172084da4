// Target runners, and how they print.
use crate::rows::{MEMORY, copied, holds, is_shown, one, text};
use run_capture::{List, Text};
use run_commands::{
    BuildPlatform, CargoConfigSource, PlatformRunner, PlatformRunnerSource, RunnerArgs,
    TargetRunner,
};
use std::alloc::Global;
use std::process::Abort;

// The arguments `-q NAME`.
fn args_with(rt: &impl Abort, alloc: Global, name: &str) -> List<Text> {
    let mut args = one(rt, alloc, text(rt, alloc, "-q"));
    args.push(alloc, text(rt, alloc, name)).expect(rt, MEMORY);
    args
}

// A runner `run -q NAME`, named by a variable.
fn runner(rt: &impl Abort, alloc: Global, name: &str) -> PlatformRunner {
    let source = PlatformRunnerSource::Env(text(rt, alloc, "V"));
    PlatformRunner::debug_new(text(rt, alloc, "run"), args_with(rt, alloc, name), source)
}

// Runners for both platforms, of different names.
fn both(rt: &impl Abort, alloc: Global) -> TargetRunner {
    TargetRunner::of(Some(runner(rt, alloc, "h")), Some(runner(rt, alloc, "t")))
}

fn next_is(args: &mut RunnerArgs, wanted: &str) -> bool {
    match args.next() {
        Some(arg) => arg == wanted,
        None => false,
    }
}

fn has_args(runner: &PlatformRunner, name: &str) -> bool {
    let mut args = runner.args();
    next_is(&mut args, "-q") && next_is(&mut args, name) && args.next().is_none()
}

// The runner of a platform is there and has these arguments.
fn runs(both: &TargetRunner, platform: BuildPlatform, name: &str) -> bool {
    match both.for_build_platform(platform) {
        Some(runner) => runner.binary() == "run" && has_args(runner, name),
        None => false,
    }
}

// The list of platforms gives each its runner.
fn lists(both: &TargetRunner) -> bool {
    let [(first, runner), (second, other)] = both.all_build_platforms();
    first == BuildPlatform::Target
        && second == BuildPlatform::Host
        && runner == both.target()
        && other == both.host()
}

// Both runners are those that were given, and differ from none.
fn are_both(both: &TargetRunner) -> bool {
    lists(both)
        && runs(both, BuildPlatform::Host, "h")
        && runs(both, BuildPlatform::Target, "t")
        && both.host() != both.target()
}

fn is_empty(runner: &TargetRunner, other: &TargetRunner) -> bool {
    runner.host().is_none() && runner.target().is_none() && runner != other
}

// A copy of runners equals them, and they differ from those of none.
fn are_equal(both: &TargetRunner, copied: &TargetRunner) -> bool {
    both == copied && are_both(copied) && is_empty(&TargetRunner::empty(), copied)
}

fn are_runners(rt: &impl Abort, alloc: Global) -> bool {
    are_equal(&both(rt, alloc), &copied(rt, alloc, both(rt, alloc)))
}

fn is_variable(rt: &impl Abort, alloc: Global, triple: &str, variable: &str) -> bool {
    PlatformRunner::runner_env_var(alloc, triple)
        .expect(rt, triple)
        .as_str()
        == variable
}

#[test]
fn names_runners(rt: HostRuntime) {
    let alloc = rt.alloc();
    let variable = "CARGO_TARGET_X86_64_UNKNOWN_LINUX_GNU_RUNNER";
    holds(
        &rt,
        variable,
        is_variable(&rt, alloc, "x86_64-unknown-linux-gnu", variable),
    );
    holds(&rt, "runners", are_runners(&rt, alloc));
}

// A copy of a source prints so.
fn prints(rt: &impl Abort, alloc: Global, source: PlatformRunnerSource, shown: &str) {
    holds(
        rt,
        shown,
        is_shown(alloc, &copied(rt, alloc, source), shown),
    );
}

fn prints_variable(rt: &impl Abort, alloc: Global, shown: &str) {
    prints(
        rt,
        alloc,
        PlatformRunnerSource::Env(text(rt, alloc, "V")),
        shown,
    );
}

// The source of the table `cfg(unix)` there.
fn table_of(rt: &impl Abort, alloc: Global, source: CargoConfigSource) -> PlatformRunnerSource {
    PlatformRunnerSource::CargoConfig {
        source,
        target_table: text(rt, alloc, "cfg(unix)"),
    }
}

fn prints_option(rt: &impl Abort, alloc: Global, shown: &str) {
    prints(
        rt,
        alloc,
        table_of(rt, alloc, CargoConfigSource::CliOption),
        shown,
    );
}

fn prints_file(rt: &impl Abort, alloc: Global, shown: &str) {
    let source = CargoConfigSource::File(text(rt, alloc, "p"));
    prints(rt, alloc, table_of(rt, alloc, source), shown);
}

#[test]
fn prints_sources(rt: HostRuntime) {
    let alloc = rt.alloc();
    prints_variable(&rt, alloc, "environment variable `V`");
    prints_option(
        &rt,
        alloc,
        "`target.cfg(unix).runner` specified by `--config`",
    );
    prints_file(&rt, alloc, "`target.cfg(unix).runner` within `p`");
}
