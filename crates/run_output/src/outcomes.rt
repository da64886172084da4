// The lines of outcomes.
ghost use Rattle.std.specs.Prelude.{◌≡◌, option_map, IfOk};
ghost use Rattle.serde_json.specs.Data.{string};
ghost use Rattle.run_output.specs.Leaf.{leaf_data};
ghost use Rattle.run_output.specs.Outcomes.{step_word, outcome_word, step_of, outcome_text};

use crate::leaf::Leaf;
use crate::object::Object;
use run_capture::{Mem, Text};
use run_events::{RunOutcome, RunStep};
use std::alloc::Global;

#[tactic(auto, unfolding(crate::specs::Outcomes::step_word))]
fn step_name(step: RunStep) -> &'static str
    ensures { result.now ≡ step_word step }
{
    match step {
        RunStep::SetupScript => "setup-script",
        RunStep::Test => "test",
    }
}

/// An outcome by its word, without the step.
#[tactic(auto, unfolding(crate::specs::Outcomes::outcome_word))]
pub(crate) fn outcome_name(outcome: RunOutcome) -> &'static str
    ensures { result.now ≡ outcome_word outcome }
{
    match outcome {
        RunOutcome::Success => "success",
        RunOutcome::NoTestsRun => "no-tests-run",
        RunOutcome::Failed { .. } => "failed",
        RunOutcome::Cancelled { .. } => "cancelled",
    }
}

// The step at which the run failed or was cancelled.
fn step_leaf(outcome: RunOutcome) -> Leaf<'static>
    ensures { leaf_data result ≡ option_map (λ step. string (step_word step)) (step_of outcome) }
{
    match outcome {
        RunOutcome::Success | RunOutcome::NoTestsRun => Leaf::Absent,
        RunOutcome::Failed { step } | RunOutcome::Cancelled { step } => {
            Leaf::Word(step_name(step))
        }
    }
}

/// The line of an outcome, without its line feed.
#[tactic(auto, unfolding(crate::specs::Outcomes::outcome_fields))]
pub fn outcome_line(alloc: Global, outcome: RunOutcome) -> Mem<Text>
    ensures { IfOk result (λ t. t ≡ outcome_text outcome) }
{
    Object::line(
        alloc,
        &[
            ("outcome", Leaf::Word(outcome_name(outcome))),
            ("step", step_leaf(outcome)),
        ],
    )
}
