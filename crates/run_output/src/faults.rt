// The lines of faults, and their exit statuses.
ghost use Rattle.std.specs.Prelude.{◌≡◌, IfOk};
ghost use Rattle.run_output.specs.Fields.{put_all, rows};
ghost use Rattle.run_output.specs.Leaf.{leaf_data};
ghost use Rattle.run_output.specs.Object.{members_of};
ghost use Rattle.run_output.specs.Faults.{fault_word, fault_status, plan_fields, place_fields, fault_text};

use crate::leaf::Leaf;
use crate::object::Object;
use crate::{Fault, PlanFault};
use run_capture::{Mem, Text};
use std::alloc::Global;

impl Fault {
    /// The exit status of the program.
    pub fn status(self) -> u8
        ensures { result ≡ fault_status self }
    {
        match self {
            Fault::Words => 2,
            Fault::Line { .. } => 3,
            Fault::Plan(_) => 5,
            Fault::NotEnabled { .. } => 6,
            Fault::ThirdSignal { .. } => 7,
            Fault::Unfinished => 8,
            Fault::Report => 9,
            Fault::Read => 10,
            Fault::Memory => 11,
            Fault::TooLong => 12,
        }
    }
}

#[tactic(auto, unfolding(crate::specs::Faults::fault_word))]
fn fault_name(fault: Fault) -> &'static str
    ensures { result.now ≡ fault_word fault }
{
    match fault {
        Fault::Words => "words",
        Fault::Line { .. } => "line",
        Fault::Plan(_) => "plan",
        Fault::NotEnabled { .. } => "not-enabled",
        Fault::ThirdSignal { .. } => "third-signal",
        Fault::Unfinished => "unfinished",
        Fault::Report => "report",
        Fault::Read => "read",
        Fault::Memory => "memory",
        Fault::TooLong => "too-long",
    }
}

#[tactic(auto, unfolding(crate::specs::Faults::plan_fields))]
fn plan_place(plan: PlanFault) -> [(&'static str, Leaf<'static>); 2]
    ensures { rows leaf_data result ≡ plan_fields plan }
{
    match plan {
        PlanFault::ZeroLimit { group } => [
            ("group", Leaf::count_of(group)),
            ("kind", Leaf::Word("zero-limit")),
        ],
        PlanFault::DuplicateTest { test } => [
            ("kind", Leaf::Word("duplicate-test")),
            ("test", Leaf::Count(test)),
        ],
        PlanFault::UnknownGroup { test } => [
            ("kind", Leaf::Word("unknown-group")),
            ("test", Leaf::Count(test)),
        ],
        PlanFault::ZeroWeight { test } => [
            ("kind", Leaf::Word("zero-weight")),
            ("test", Leaf::Count(test)),
        ],
        PlanFault::TooManyRetries { test } => [
            ("kind", Leaf::Word("too-many-retries")),
            ("test", Leaf::Count(test)),
        ],
    }
}

// Where a fault is.
fn with_place(object: Object<Leaf<'static>>, fault: Fault) -> Mem<Object<Leaf<'static>>>
    ensures { IfOk result (λ o. members_of leaf_data o
        ≡ put_all (place_fields fault) (members_of leaf_data object.entry)) }
{
    match fault {
        Fault::Line { line } => object.with(&[("line", Leaf::Number(line))]),
        Fault::Plan(plan) => object.with(&plan_place(plan)),
        Fault::NotEnabled { turn } | Fault::ThirdSignal { turn } => {
            object.with(&[("turn", Leaf::Number(turn))])
        }
        Fault::Words
        | Fault::Unfinished
        | Fault::Report
        | Fault::Read
        | Fault::Memory
        | Fault::TooLong => Ok(object),
    }
}

/// The line of a fault, without its line feed.
#[tactic(auto, unfolding(crate::specs::Faults::fault_fields))]
pub fn fault_line(alloc: Global, fault: Fault) -> Mem<Text>
    ensures { IfOk result (λ t. t ≡ fault_text fault) }
{
    let head = [
        ("fault", Leaf::Word(fault_name(fault))),
        ("status", Leaf::Count(fault.status() as u32)),
    ];
    let object = Object::of(alloc, &head)?;
    let object = with_place(object, fault)?;
    object.printed(alloc)?.into_text(alloc)
}
