// The statistics of a run as an object.
ghost use Rattle.std.specs.Prelude.{◌≡◌, option_map, IfOk};
ghost use Rattle.serde_json.specs.Data.{string};
ghost use Rattle.run_output.specs.Fields.{rows};
ghost use Rattle.run_output.specs.Leaf.{leaf_data};
ghost use Rattle.run_output.specs.Printer.{Prints, data_tokens};
ghost use Rattle.run_output.specs.Stats.{reason_word, script_count_fields, test_fields, stats_data};

use crate::leaf::Leaf;
use crate::object::Object;
use crate::printer::Printer;
use run_capture::Mem;
use run_events::{CancelReason, RunStats};
use std::alloc::Global;

#[tactic(auto, unfolding(crate::specs::Stats::reason_word))]
fn reason_name(reason: CancelReason) -> &'static str
    ensures { result.now ≡ reason_word reason }
{
    match reason {
        CancelReason::SetupScriptFailure => "setup-script-failure",
        CancelReason::TestFailure => "test-failure",
        CancelReason::ReportError => "report-error",
        CancelReason::GlobalTimeout => "global-timeout",
        CancelReason::TestFailureImmediate => "test-failure-immediate",
        CancelReason::Signal => "signal",
        CancelReason::Interrupt => "interrupt",
        CancelReason::SecondSignal => "second-signal",
    }
}

fn reason_leaf(reason: Option<CancelReason>) -> Leaf<'static>
    ensures { leaf_data result ≡ option_map (λ r. string (reason_word r)) reason }
{
    match reason {
        Some(reason) => Leaf::Word(reason_name(reason)),
        None => Leaf::Absent,
    }
}

// The counts of the run and of its setup scripts.
#[tactic(auto, unfolding(crate::specs::Stats::script_count_fields))]
fn script_counts(stats: &RunStats) -> [(&'static str, Leaf<'static>); 8]
    ensures { rows leaf_data result ≡ script_count_fields stats.now }
{
    [
        ("initial_run_count", Leaf::Nonzero(stats.initial_run_count)),
        ("finished_count", Leaf::Nonzero(stats.finished_count)),
        (
            "setup_scripts_initial_count",
            Leaf::Nonzero(stats.setup_scripts_initial_count),
        ),
        (
            "setup_scripts_finished_count",
            Leaf::Nonzero(stats.setup_scripts_finished_count),
        ),
        (
            "setup_scripts_passed",
            Leaf::Nonzero(stats.setup_scripts_passed),
        ),
        (
            "setup_scripts_failed",
            Leaf::Nonzero(stats.setup_scripts_failed),
        ),
        (
            "setup_scripts_exec_failed",
            Leaf::Nonzero(stats.setup_scripts_exec_failed),
        ),
        (
            "setup_scripts_timed_out",
            Leaf::Nonzero(stats.setup_scripts_timed_out),
        ),
    ]
}

// The counts of its tests, and why it is cancelled.
#[tactic(auto, unfolding(crate::specs::Stats::test_fields))]
fn test_counts(stats: &RunStats) -> [(&'static str, Leaf<'static>); 12]
    ensures { rows leaf_data result ≡ test_fields stats.now }
{
    [
        ("passed", Leaf::Nonzero(stats.passed)),
        ("passed_slow", Leaf::Nonzero(stats.passed_slow)),
        ("passed_timed_out", Leaf::Nonzero(stats.passed_timed_out)),
        ("flaky", Leaf::Nonzero(stats.flaky)),
        ("failed", Leaf::Nonzero(stats.failed)),
        ("failed_slow", Leaf::Nonzero(stats.failed_slow)),
        ("failed_timed_out", Leaf::Nonzero(stats.failed_timed_out)),
        ("leaky", Leaf::Nonzero(stats.leaky)),
        ("leaky_failed", Leaf::Nonzero(stats.leaky_failed)),
        ("exec_failed", Leaf::Nonzero(stats.exec_failed)),
        ("skipped", Leaf::Nonzero(stats.skipped)),
        ("cancel_reason", reason_leaf(stats.cancel_reason)),
    ]
}

/// The statistics, each count left out where it is 0.
#[tactic(auto, using(crate::proofs::FieldLemmas::put_all_more))]
pub(crate) fn print_stats(alloc: Global, out: &mut Printer, stats: &RunStats) -> Mem<()>
    ensures { Prints result out.old out.new (data_tokens (stats_data stats.now)) }
{
    let object = Object::of(alloc, &script_counts(stats))?;
    object.with(&test_counts(stats))?.print(alloc, out)
}
