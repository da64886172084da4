// Objects of JSON in the making.
ghost use Rattle.std.specs.Prelude.{◌≡◌, true, IfOk};
ghost use Rattle.serde_json.specs.Data.{put, no_members, object};
ghost use Rattle.run_output.specs.Rows.{ascend};
ghost use Rattle.json.specs.Print.{print};
ghost use Rattle.serde_json.specs.Written.{compact_text};
ghost use Rattle.run_output.specs.Printer.{Prints, data_tokens, member_tokens, or_null};
ghost use Rattle.run_output.specs.Fields.{put_all, rows, object_of, object_text};

use crate::printer::{Printed, Printer};
use crate::rows::{are_in_order, is_last, place_of};
use run_capture::{Mem, Text};
use std::alloc::Global;

/// Most objects have no more members than these.
const ROOM: usize = 10;

/// The members of an object: each key, in byte order, with what stands there.
#[derive(Drop)]
pub(crate) struct Object<F> {
    rows: Vec<(&'static str, F)>,
    ghost in_order: { ascend rows.items ≡ true },
}

// Prints a member of an object, if there is a value.
#[tactic(auto, using(crate::proofs::InOrderLemmas::no_member, crate::proofs::InOrderLemmas::one_member))]
fn print_member<F: Printed>(alloc: Global, out: &mut Printer, key: &str, field: &F) -> Mem<()>
    ensures { Prints result out.old out.new (member_tokens key.now (F.printed field.now)) }
{
    if field.is_absent() {
        return Ok(());
    }
    out.key(key)?;
    field.print(alloc, out)
}

// Prints the object of fields whose keys stand in byte order.
fn print_in_order<F: Printed>(
    alloc: Global,
    out: &mut Printer,
    fields: &[(&'static str, F)],
) -> Mem<()>
    requires { ascend fields.now ≡ true }
    ensures { Prints result out.old out.new
        (data_tokens (object_of (rows F.printed fields.now))) }
{
    out.begin_object()?;
    for (key, field) in fields {
        print_member(alloc, out, key, field)?;
    }
    out.end_object()
}

impl<F: Printed + Copy> Object<F> {
    ghost use Rattle.run_output.specs.Object.{members_of};

    /// An object with no members, and room for so many.
    pub(crate) fn with_room(alloc: Global, count: usize) -> Mem<Object<F>>
        ensures { IfOk result (λ o. members_of F.printed o ≡ no_members) }
    {
        Ok(Object {
            rows: Vec::with_capacity(alloc, count)?,
        })
    }

    // The object with a value at a key, wherever that stands among its keys.
    #[tactic(auto, using(crate::proofs::RowLemmas::ascend_inserted, crate::proofs::RowLemmas::members_inserted, crate::proofs::RowLemmas::rank_bound, crate::proofs::RowLemmas::found_bound, crate::proofs::RowLemmas::ascend_there, crate::proofs::RowLemmas::members_there))]
    fn put_within(self, key: &'static str, field: F) -> Mem<Object<F>>
        ensures { IfOk result (λ o. members_of F.printed o
            ≡ put key.now (or_null (F.printed field)) (members_of F.printed self)) }
    {
        let Object { mut rows } = self;
        let (place, found) = place_of(&rows, key);
        if found {
            let (own, _) = rows[place];
            rows[place] = (own, field);
            return Ok(Object { rows });
        }
        rows.insert(place, (key, field))?;
        Ok(Object { rows })
    }

    // The object with a value at a key. Fields mostly come in the order of their keys.
    fn put(self, key: &'static str, field: F) -> Mem<Object<F>>
        ensures { IfOk result (λ o. members_of F.printed o
            ≡ put key.now (or_null (F.printed field)) (members_of F.printed self)) }
    {
        if !is_last(&self.rows, key) {
            return self.put_within(key, field);
        }
        let Object { mut rows } = self;
        rows.push((key, field))?;
        Ok(Object { rows })
    }

    /// The object with these fields.
    pub(crate) fn with(self, fields: &[(&'static str, F)]) -> Mem<Object<F>>
        ensures { IfOk result (λ o. members_of F.printed o
            ≡ put_all (rows F.printed fields.now) (members_of F.printed self)) }
    {
        let mut object = self;
        for (key, field) in fields {
            if !field.is_absent() {
                object = object.put(key, *field)?;
            }
        }
        Ok(object)
    }

    /// Prints it.
    pub(crate) fn print(&self, alloc: Global, out: &mut Printer) -> Mem<()>
        ensures { Prints result out.old out.new
            (data_tokens (object (members_of F.printed self.now))) }
    {
        out.begin_object()?;
        for (key, field) in &self.rows {
            out.key(key)?;
            field.print(alloc, out)?;
        }
        out.end_object()
    }

    /// An object with these fields.
    pub(crate) fn of(alloc: Global, fields: &[(&'static str, F)]) -> Mem<Object<F>>
        ensures { IfOk result
            (λ o. members_of F.printed o ≡ put_all (rows F.printed fields.now) no_members) }
    {
        Object::with_room(alloc, fields.len().max(ROOM))?.with(fields)
    }

    /// Prints the object of these fields, which mostly come in the order of their keys.
    pub(crate) fn print_of(
        alloc: Global,
        out: &mut Printer,
        fields: &[(&'static str, F)],
    ) -> Mem<()>
        ensures { Prints result out.old out.new
            (data_tokens (object_of (rows F.printed fields.now))) }
    {
        if are_in_order(fields) {
            return print_in_order(alloc, out, fields);
        }
        Object::of(alloc, fields)?.print(alloc, out)
    }

    /// A line with it.
    #[tactic(auto, using(crate::proofs::PrintLemmas::print_data))]
    pub(crate) fn printed(&self, alloc: Global) -> Mem<Printer>
        ensures { IfOk result
            (λ p. print p ≡ compact_text (object (members_of F.printed self.now))) }
    {
        let mut out = Printer::new(alloc)?;
        self.print(alloc, &mut out)?;
        Ok(out)
    }

    /// A line with the object of these fields.
    #[tactic(auto, using(crate::proofs::PrintLemmas::print_data))]
    pub(crate) fn printed_of(alloc: Global, fields: &[(&'static str, F)]) -> Mem<Printer>
        ensures { IfOk result (λ p. print p ≡ object_text (rows F.printed fields.now)) }
    {
        let mut out = Printer::new(alloc)?;
        Object::print_of(alloc, &mut out, fields)?;
        Ok(out)
    }

    /// The text of the object of these fields.
    pub(crate) fn line(alloc: Global, fields: &[(&'static str, F)]) -> Mem<Text>
        ensures { IfOk result (λ t. t ≡ object_text (rows F.printed fields.now)) }
    {
        Object::printed_of(alloc, fields)?.into_text(alloc)
    }
}
