// The lines of the faults of a chain, and their statuses.
ghost use Rattle.std.specs.Prelude.{◌≡◌, ◌++◌, codes, decimal, IfOk};
ghost use Rattle.run_output.specs.declared.fault.PlanFault.TheVariants.{ZeroLimit};
ghost use Rattle.run_rerun_cli.specs.declared.faults.RerunFault.TheVariants.{Plan};
ghost use Rattle.run_rerun_cli.specs.RerunFaults.{rerun_fault_status, rerun_fault_text};

use crate::faults::RerunFault;
use itoa::Buffer;
use run_capture::{Mem, Text};
use run_output::PlanFault;
use std::alloc::Global;

impl RerunFault {
    /// The exit status that goes with its line.
    pub fn status(self) -> u8
        ensures { result ≡ rerun_fault_status self }
    {
        match self {
            RerunFault::Plan(_) => 5,
            RerunFault::NotEnabled { .. } => 6,
            RerunFault::ThirdSignal { .. } => 7,
            RerunFault::Read => 10,
            RerunFault::TooLong => 12,
            RerunFault::Torn => 14,
            RerunFault::Bad { .. } => 15,
        }
    }
}

// A number between two texts.
fn numbered(alloc: Global, before: &str, number: u64, after: &str) -> Mem<Text>
    ensures { IfOk result (λ t. t ≡ before.now ++ decimal number ++ after.now) }
{
    let mut digits = Buffer::new();
    let mut text = Text::from_str(alloc, before)?;
    text.push_str(alloc, digits.format(number))?;
    text.push_str(alloc, after)?;
    Ok(text)
}

// Two numbers, each between two texts.
fn numbered_twice(
    alloc: Global,
    before: &str,
    number: u64,
    between: &str,
    other: u64,
    after: &str,
) -> Mem<Text>
    ensures { IfOk result
        (λ t. t ≡ before.now ++ (decimal number ++ (between.now ++ (decimal other ++ after.now)))) }
{
    let mut digits = Buffer::new();
    let mut text = numbered(alloc, before, number, between)?;
    text.push_str(alloc, digits.format(other))?;
    text.push_str(alloc, after)?;
    Ok(text)
}

// The line of a plan that has a limit of 0.
fn limit_line(alloc: Global, store: u64, group: Option<u32>) -> Mem<Text>
    ensures { IfOk result (λ t. t ≡ rerun_fault_text store (Plan (ZeroLimit group))) }
{
    match group {
        None => numbered(
            alloc,
            "{\"fault\":\"plan\",\"kind\":\"zero-limit\",\"status\":5,\"store\":",
            store,
            "}",
        ),
        Some(group) => numbered_twice(
            alloc,
            "{\"fault\":\"plan\",\"group\":",
            group as u64,
            ",\"kind\":\"zero-limit\",\"status\":5,\"store\":",
            store,
            "}",
        ),
    }
}

// The line of a plan that has a wrong test at this place.
fn test_line(alloc: Global, front: &str, store: u64, test: u32) -> Mem<Text>
    ensures { IfOk result
        (λ t. t ≡ front.now ++ (decimal store ++ (codes ",\"test\":" ++ (decimal test ++ codes "}")))) }
{
    numbered_twice(alloc, front, store, ",\"test\":", test as u64, "}")
}

// The line of a plan that can't be run.
fn plan_line(alloc: Global, store: u64, plan: PlanFault) -> Mem<Text>
    ensures { IfOk result (λ t. t ≡ rerun_fault_text store (Plan plan)) }
{
    match plan {
        PlanFault::ZeroLimit { group } => limit_line(alloc, store, group),
        PlanFault::DuplicateTest { test } => test_line(
            alloc,
            "{\"fault\":\"plan\",\"kind\":\"duplicate-test\",\"status\":5,\"store\":",
            store,
            test,
        ),
        PlanFault::UnknownGroup { test } => test_line(
            alloc,
            "{\"fault\":\"plan\",\"kind\":\"unknown-group\",\"status\":5,\"store\":",
            store,
            test,
        ),
        PlanFault::ZeroWeight { test } => test_line(
            alloc,
            "{\"fault\":\"plan\",\"kind\":\"zero-weight\",\"status\":5,\"store\":",
            store,
            test,
        ),
        PlanFault::TooManyRetries { test } => test_line(
            alloc,
            "{\"fault\":\"plan\",\"kind\":\"too-many-retries\",\"status\":5,\"store\":",
            store,
            test,
        ),
    }
}

// The line of a fault of a turn.
fn turn_line(alloc: Global, front: &str, store: u64, turn: u64) -> Mem<Text>
    ensures { IfOk result
        (λ t. t ≡ front.now ++ (decimal store ++ (codes ",\"turn\":" ++ (decimal turn ++ codes "}")))) }
{
    numbered_twice(alloc, front, store, ",\"turn\":", turn, "}")
}

const NOT_ENABLED: &str = "{\"fault\":\"not-enabled\",\"status\":6,\"store\":";

const THIRD_SIGNAL: &str = "{\"fault\":\"third-signal\",\"status\":7,\"store\":";

const READ: &str = "{\"fault\":\"read\",\"status\":10,\"store\":";

const TOO_LONG: &str = "{\"fault\":\"too-long\",\"status\":12,\"store\":";

const TORN: &str = "{\"fault\":\"torn\",\"status\":14,\"store\":";

const BAD: &str = "{\"fault\":\"bad\",\"record\":";

const BAD_STORE: &str = ",\"status\":15,\"store\":";

/// The line of a fault of the store at this place of a chain, from 0, without its line feed: its keys in byte order.
pub fn rerun_fault_line(alloc: Global, store: u64, fault: RerunFault) -> Mem<Text>
    ensures { IfOk result (λ t. t ≡ rerun_fault_text store fault) }
{
    match fault {
        RerunFault::Plan(plan) => plan_line(alloc, store, plan),
        RerunFault::NotEnabled { turn } => turn_line(alloc, NOT_ENABLED, store, turn),
        RerunFault::ThirdSignal { turn } => turn_line(alloc, THIRD_SIGNAL, store, turn),
        RerunFault::Read => numbered(alloc, READ, store, "}"),
        RerunFault::TooLong => numbered(alloc, TOO_LONG, store, "}"),
        RerunFault::Torn => numbered(alloc, TORN, store, "}"),
        RerunFault::Bad { record } => numbered_twice(alloc, BAD, record, BAD_STORE, store, "}"),
    }
}
