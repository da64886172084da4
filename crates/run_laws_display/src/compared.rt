// Theorems on comparisons: `⟦<X as PartialEq>⟧.eq` is what `==` of X answers, and so with the other traits.
ghost use Rattle.std.specs.Prelude.{◌≡◌};
ghost use Rattle.run_events.specs.Cancel.{rank};
ghost use Rattle.run_events.specs.declared.plan.TestInstanceId.{TestInstanceId};
ghost use Rattle.run_laws_display.specs.Values.{IsSameness, IsOrderBy, TellsApart, kind_number, test_cmp};

use run_commands::{PlatformRunner, PlatformRunnerSource, StressCount, TargetRunner};
use run_dispatch::StressLoopAction;
use run_events::{
    CancelReason, InputHandlerKind, SignalHandlerKind, StressProgress, TestInstanceId,
};
use run_progress::{MaxProgressRunning, ShowProgress, ShowTerminalProgress};
use std::hash::Hash;

/// Two values of these types are equal by `==` exactly where they are the same: of one variant, with the same fields.
pub fn equal_values_are_the_same()
    ensures input_kind { IsSameness ⟦<InputHandlerKind as PartialEq>⟧.eq }
    ensures signal_kind { IsSameness ⟦<SignalHandlerKind as PartialEq>⟧.eq }
    ensures cancel_reason { IsSameness ⟦<CancelReason as PartialEq>⟧.eq }
    ensures test_id { IsSameness ⟦<TestInstanceId as PartialEq>⟧.eq }
    ensures stress_count { IsSameness ⟦<StressCount as PartialEq>⟧.eq }
    ensures stress_progress { IsSameness ⟦<StressProgress as PartialEq>⟧.eq }
    ensures stress_action { IsSameness ⟦<StressLoopAction as PartialEq>⟧.eq }
    ensures runner_source { IsSameness ⟦<PlatformRunnerSource as PartialEq>⟧.eq }
    ensures runner { IsSameness ⟦<PlatformRunner as PartialEq>⟧.eq }
    ensures runners { IsSameness ⟦<TargetRunner as PartialEq>⟧.eq }
    ensures show { IsSameness ⟦<ShowProgress as PartialEq>⟧.eq }
    ensures show_terminal { IsSameness ⟦<ShowTerminalProgress as PartialEq>⟧.eq }
    ensures max_running { IsSameness ⟦<MaxProgressRunning as PartialEq>⟧.eq }
{}

/// Signal handlers and cancel reasons are in the order in which their variants are written, and tests in that of their
/// binaries, those of one binary in that of their names. `cmp` says so; `<` and its like answer as `cmp` does.
pub fn values_are_ordered()
    ensures signal_kinds { IsOrderBy kind_number ⟦<SignalHandlerKind as Ord>⟧.cmp }
    ensures cancel_reasons { IsOrderBy rank ⟦<CancelReason as Ord>⟧.cmp }
    ensures test_ids { (a b : TestInstanceId) → ⟦<TestInstanceId as Ord>⟧.cmp a b ≡ test_cmp a b }
{}

/// Two signal handlers make the same writes to a hasher exactly where they are the same. So equal ones hash alike.
pub fn kinds_are_told_apart_by_hash()
    ensures { TellsApart ⟦<SignalHandlerKind as Hash>⟧.hash_input }
{}
