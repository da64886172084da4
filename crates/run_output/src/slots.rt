// Slots as objects.
ghost use Rattle.std.specs.Prelude.{◌≡◌, option_map, IfOk};
ghost use Rattle.serde_json.specs.Data.{string};
ghost use Rattle.run_output.specs.Fields.{count, rows};
ghost use Rattle.run_output.specs.Leaf.{leaf_data};
ghost use Rattle.run_output.specs.Printer.{Prints, data_tokens};
ghost use Rattle.run_output.specs.Slots.{slot_fields, slot_data};

use crate::leaf::Leaf;
use crate::object::Object;
use crate::printer::Printer;
use run_capture::Mem;
use run_events::{GroupSlot, TestSlotAssignment};
use std::alloc::Global;

fn group_number(group: &Option<GroupSlot>) -> Leaf<'static>
    ensures { leaf_data result ≡ option_map (λ g. count g.slot) group.now }
{
    match group {
        Some(group) => Leaf::Count(group.slot),
        None => Leaf::Absent,
    }
}

fn group_name(group: &Option<GroupSlot>) -> Leaf<'_>
    ensures { leaf_data result ≡ option_map (λ g. string g.name) group.now }
{
    match group {
        Some(group) => Leaf::Text(&group.name),
        None => Leaf::Absent,
    }
}

#[tactic(auto, unfolding(crate::specs::Slots::slot_fields))]
fn numbers(slot: &TestSlotAssignment) -> [(&'static str, Leaf<'_>); 3]
    ensures { rows leaf_data result ≡ slot_fields slot.now }
{
    [
        ("global", Leaf::Count(slot.global)),
        ("group", group_number(&slot.group)),
        ("name", group_name(&slot.group)),
    ]
}

/// A slot: its number, and in a group the number there and the group's name.
pub(crate) fn print_slot(alloc: Global, out: &mut Printer, slot: &TestSlotAssignment) -> Mem<()>
    ensures { Prints result out.old out.new (data_tokens (slot_data slot.now)) }
{
    Object::print_of(alloc, out, &numbers(slot))
}
