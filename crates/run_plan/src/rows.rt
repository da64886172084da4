// The tests of a list in one row.
ghost use Rattle.std.specs.Prelude.{◌≡◌, ◌<◌, ◌^◌, ◌++◌, IfOk, OnOk, length, map};
ghost use Rattle.std.specs.List.{zip};
ghost use Rattle.run_plan.specs.Listed.{listed};
ghost use Rattle.run_plan.specs.Rows.{asked_row, listed_row};

use crate::asked::Asked;
use crate::test_list::{ListedTest, TestBinary, TestList};
use run_capture::Mem;
use std::alloc::Global;

/// A test of a list, its binary, and the place of that.
#[derive(Clone, Copy)]
pub(crate) struct ListRow<'a> {
    pub place: u32,
    pub binary: &'a TestBinary,
    pub test: &'a ListedTest,
}

/// A test of a list with what filters say of it.
#[derive(Clone, Copy)]
pub(crate) struct AskedRow<'a> {
    pub row: ListRow<'a>,
    pub asked: &'a Asked,
}

fn push_tests<'a>(rows: &mut Vec<ListRow<'a>>, place: u32, binary: &'a TestBinary) -> Mem<()>
    ensures { OnOk result (map listed_row rows.new.items
        ≡ map listed_row rows.old.items ++ map (λ test. (place, binary.now, test)) binary.now.tests) }
{
    let tests = binary.tests.as_slice();
    for test in tests {
        rows.push(ListRow {
            place,
            binary,
            test,
        })?;
    }
    Ok(())
}

/// The tests of a list, in its order.
pub(crate) fn rows_of(alloc: Global, list: &TestList) -> Mem<Vec<ListRow<'_>>>
    requires { length list.now.binaries < 2 ^ 32 }
    ensures { IfOk result (λ rows. map listed_row rows.items ≡ listed list.now) }
{
    let mut rows = Vec::new(alloc);
    let mut place = 0u32;
    let binaries = list.binaries.as_slice();
    for binary in binaries {
        push_tests(&mut rows, place, binary)?;
        place += 1;
    }
    Ok(rows)
}

/// Tests with what filters say of each.
pub(crate) fn asked_rows<'a>(
    alloc: Global,
    rows: &[ListRow<'a>],
    asked: &'a [Asked],
) -> Mem<Vec<AskedRow<'a>>>
    ensures { IfOk result (λ both. map asked_row both.items ≡ zip (map listed_row rows.now) asked.now) }
{
    let mut both = Vec::with_capacity(alloc, rows.len())?;
    for place in 0..rows.len().min(asked.len()) {
        both.push(AskedRow {
            row: rows[place],
            asked: &asked[place],
        })?;
    }
    Ok(both)
}
