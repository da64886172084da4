// Why a call has no plan line.
ghost use Rattle.std.specs.Prelude.{◌≡◌};
ghost use Rattle.run_plan.specs.PlanFaults.{asked_fault, profile_fault, plan_status};

use crate::filters::AskError;
use run_capture::{OutOfMemory, Text};
use run_filter::FilterFault;
use run_input::Refusal;
use run_profile::{Fault, ProfileError};

/// Why a call has no plan line.
#[derive(Drop)]
pub enum PlanFault {
    /// The list of tests is none, with what is wrong in it and where.
    List(Refusal),
    /// The project's file is no TOML document, with the line and the column where it isn't.
    NotToml(toml::de::Error),
    /// What stands at this path of the project's file.
    Profile {
        path: Text,
        fault: Fault,
    },
    /// The filter at this path of the project's file, and the byte in it.
    ProfileFilter {
        path: Text,
        place: usize,
        fault: FilterFault,
    },
    /// The default filter asks `default()`.
    AsksItself,
    /// The words' filter of this number, from 0, and the byte in it.
    Filter {
        number: usize,
        place: usize,
        fault: FilterFault,
    },
    /// The project asks for a version of the runner above 0.9.129.
    NeedsNewer,
    /// Tests want setup scripts, and two stand in one line of the project's file, which says no order of them.
    ScriptOrder,
    /// 2^32 or more binaries, groups or tests.
    TooMany,
    /// More than 16,777,216 bytes, which no reader of plan lines takes.
    TooLong,
    /// No test is to be run.
    NoTests,
    OutOfMemory,
}

impl From<OutOfMemory> for PlanFault {
    ghost use Rattle.std.specs.Prelude.{◌≡◌};
    ghost use Rattle.run_plan.specs.declared.plan_fault.PlanFault.TheVariants as faults;

    ghost from_gives = { λ _ e. e ≡ faults.OutOfMemory };

    fn from(_: OutOfMemory) -> Self {
        PlanFault::OutOfMemory
    }
}

impl PlanFault {
    /// The status of a program that ends by it: 104 for the list, 96 for the project's file, 92 for the version that it
    /// asks for, 94 for a filter of the words, 4 where no test is to be run, 12 for what is too large, 11 for want of
    /// memory.
    pub fn status(&self) -> u8
        ensures { result ≡ plan_status self.now }
    {
        match self {
            PlanFault::List(_) => 104,
            PlanFault::NotToml(_) => 96,
            PlanFault::Profile { .. } => 96,
            PlanFault::ProfileFilter { .. } => 96,
            PlanFault::AsksItself => 96,
            PlanFault::Filter { .. } => 94,
            PlanFault::NeedsNewer => 92,
            PlanFault::ScriptOrder => 96,
            PlanFault::TooMany => 12,
            PlanFault::TooLong => 12,
            PlanFault::NoTests => 4,
            PlanFault::OutOfMemory => 11,
        }
    }
}

/// What filters are refused for.
pub(crate) fn asked_fault(error: AskError) -> PlanFault
    ensures { result ≡ asked_fault error }
{
    match error {
        AskError::OfProfile { path, place, fault } => PlanFault::ProfileFilter {
            path,
            place,
            fault,
        },
        AskError::OfWords {
            number,
            place,
            fault,
        } => PlanFault::Filter {
            number,
            place,
            fault,
        },
        AskError::AsksItself => PlanFault::AsksItself,
        AskError::OutOfMemory => PlanFault::OutOfMemory,
    }
}

/// The same of a profile.
pub(crate) fn profile_fault(error: ProfileError) -> PlanFault
    ensures { result ≡ profile_fault error }
{
    match error {
        ProfileError::Refused { path, fault } => PlanFault::Profile { path, fault },
        ProfileError::OutOfMemory => PlanFault::OutOfMemory,
    }
}
