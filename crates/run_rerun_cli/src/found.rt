// What one store of a chain has.
ghost use Rattle.std.specs.Prelude.{◌≡◌, ◌<◌, ◌^◌, ℕ, List, Option, false, length, Some, IsSome};
ghost use Rattle.run_capture.specs.Faults.{RoseExactlyIf};
ghost use Rattle.run_events.specs.declared.plan.Plan.{Plan};
ghost use Rattle.run_input.specs.Input.{plan_line_of};
ghost use Rattle.run_input.specs.declared.plan_line.RunnerKeys.{RunnerKeys};
ghost use Rattle.run_cli.specs.Plans.{plan_refusal};
ghost use Rattle.run_rerun_cli.specs.Finds.{IsFoundRefusal, GivesRun, GivesStored, HasStored, VisitsOne, fails_to_read};
ghost use Rattle.run_rerun_cli.specs.Finds.{GivesTests, found_error, is_reading_error, refusal_error};
ghost use Rattle.run_rerun_cli.specs.Shelves.{doing_of};

use crate::faults::{FoundError, RerunFault};
use crate::stores::Stores;
use run_cli::{fault_of_plan, runner_of};
use run_engine::TestRunnerBuildError;
use run_input::read_plan_line;
use run_output::Fault;
use run_rerun::{RerunError, RunTests, StoredRun, run_passed};
use run_store_io::{StoreError, Stored, read_store};
use std::alloc::Global;

// What reading a store answered, as an error here.
fn error_of(error: StoreError) -> FoundError
    ensures { result ≡ found_error error }
{
    match error {
        StoreError::Read => FoundError::Fault(RerunFault::Read),
        StoreError::TooLong => FoundError::Fault(RerunFault::TooLong),
        StoreError::NoPlan => FoundError::Fault(RerunFault::Torn),
        StoreError::Bad { place } => FoundError::Fault(RerunFault::Bad { record: place }),
        StoreError::Write | StoreError::Closed | StoreError::OutOfMemory => FoundError::OutOfMemory,
    }
}

// Opens a store, reads it, and gives it back, whatever reading it answered.
fn read_named<T: Stores>(alloc: Global, stores: &mut T, name: &str) -> Result<Stored, FoundError>
    ensures says { GivesStored (T.bytes stores.old name.now) result }
    ensures fault { RoseExactlyIf (fails_to_read result) (T.faults stores.old) (T.faults stores.new) }
    ensures did { VisitsOne name.now (doing_of T.Stores stores.old stores.new) result }
    ensures same { (n : List ℕ) → T.bytes stores.new n ≡ T.bytes stores.old n }
{
    let Ok(mut source) = stores.open_store(name) else {
        return Err(FoundError::Fault(RerunFault::Read));
    };
    let answer = read_store(alloc, &mut source);
    stores.give_back(source);
    match answer {
        Ok(stored) => Ok(stored),
        Err(error) => Err(error_of(error)),
    }
}

// Why a plan is refused, by the error of its runner.
fn refusal_of(error: TestRunnerBuildError) -> FoundError
    ensures is { result ≡ refusal_error error }
    ensures quiet { is_reading_error result ≡ false }
{
    match fault_of_plan(error) {
        Fault::Plan(plan) => FoundError::Fault(RerunFault::Plan(plan)),
        _ => FoundError::OutOfMemory,
    }
}

// Why the plan of this line is refused.
fn refusal_in(alloc: Global, line: &[u8]) -> FoundError
    requires said { IsSome (plan_line_of line.now) }
    requires refused { (keys : RunnerKeys) (plan : Plan) → plan_line_of line.now ≡ Some (keys, plan)
        → IsSome (plan_refusal keys plan) }
    ensures says { (keys : RunnerKeys) (plan : Plan) → plan_line_of line.now ≡ Some (keys, plan)
        → IsFoundRefusal keys plan result }
    ensures quiet { is_reading_error result ≡ false }
{
    match read_plan_line(alloc, line) {
        Ok((keys, plan)) => match runner_of(alloc, keys, plan) {
            Ok(_) => unreachable!(),
            Err(error) => refusal_of(error),
        },
        Err(_) => FoundError::OutOfMemory,
    }
}

// The tests of the run that a store has.
fn tests_in(alloc: Global, stored: &Stored) -> Result<RunTests, FoundError>
    requires plan { IsSome (plan_line_of stored.now.plan) }
    requires turns { length stored.now.turns < 2 ^ 32 }
    ensures says { (told : Option (List ℕ)) → HasStored told stored.now
        → GivesTests told stored.now.plan stored.now.whole result }
    ensures quiet { fails_to_read result ≡ false }
{
    match run_passed(alloc, stored) {
        Ok(tests) => Ok(tests),
        Err(RerunError::Plan) => Err(refusal_in(alloc, stored.plan.as_slice())),
        Err(RerunError::NotEnabled { turn }) => {
            Err(FoundError::Fault(RerunFault::NotEnabled { turn }))
        }
        Err(RerunError::ThirdSignal { turn }) => {
            Err(FoundError::Fault(RerunFault::ThirdSignal { turn }))
        }
        Err(RerunError::OutOfMemory) => Err(FoundError::OutOfMemory),
    }
}

// The run that a store has.
fn run_in(alloc: Global, stored: Stored) -> Result<StoredRun, FoundError>
    requires plan { IsSome (plan_line_of stored.plan) }
    requires turns { length stored.turns < 2 ^ 32 }
    ensures says { (told : Option (List ℕ)) → HasStored told stored → GivesRun told result }
    ensures quiet { fails_to_read result ≡ false }
{
    let tests = tests_in(alloc, &stored);
    let Stored { plan, turns, whole } = stored;
    drop(turns);
    match tests {
        Ok(tests) => Ok(StoredRun {
            line: plan,
            tests,
            whole,
        }),
        Err(error) => Err(error),
    }
}

/// The run that the store with this name has. The store is given back, whatever it has.
pub fn run_named<T: Stores>(
    alloc: Global,
    stores: &mut T,
    name: &str,
) -> Result<StoredRun, FoundError>
    ensures says { GivesRun (T.bytes stores.old name.now) result }
    ensures fault { RoseExactlyIf (fails_to_read result) (T.faults stores.old) (T.faults stores.new) }
    ensures did { VisitsOne name.now (doing_of T.Stores stores.old stores.new) result }
    ensures same { (n : List ℕ) → T.bytes stores.new n ≡ T.bytes stores.old n }
{
    match read_named(alloc, stores, name) {
        Ok(stored) => run_in(alloc, stored),
        Err(error) => Err(error),
    }
}
