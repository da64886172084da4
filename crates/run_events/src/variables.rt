// The variables that a child gets.
ghost use Rattle.std.specs.Prelude.{◌≡◌, IfOk};
ghost use Rattle.run_events.specs.Variables.{script_variables, test_variables};

use crate::copies::both;
use crate::variable_list::{script_list, test_list};
use crate::{RunMode, StressIndex, TestInstanceId, TestSlotAssignment};
use run_capture::{Duplicate, List, Mem, Shared, Text};
use std::alloc::Global;
use std::fmt;
use std::fmt::{Debug, Write};
use std::marker::Model;
use uuid::Uuid;

/// What the variables of all children of a run tell alike.
#[derive(Drop)]
pub struct RunContext {
    pub run_id: Uuid,
    pub mode: RunMode,
    /// How much may run at a time.
    pub threads: u32,
    pub workspace_root: Text,
    /// The variables that tell the versions, with their values.
    pub versions: List<(Text, Text)>,
}

/// What the variables of a test's child tell.
#[derive(Drop)]
pub struct TestVariables {
    pub run: Shared<RunContext>,
    pub id: TestInstanceId,
    /// Which attempt it is, from 1.
    pub attempt: u32,
    /// How many attempts there are at most.
    pub attempts: u32,
    pub stress_index: Option<StressIndex>,
    pub slot: TestSlotAssignment,
    /// The variables that its setup scripts handed on, with their values.
    pub handed: List<(Text, Text)>,
}

/// What the variables of a setup script's child tell.
#[derive(Drop)]
pub struct ScriptVariables {
    pub run: Shared<RunContext>,
    /// Where it writes the variables that it hands on.
    pub env_path: Text,
}

/// What is kept of variables.
enum Kept {
    Test(TestVariables),
    Script(ScriptVariables),
    Listed(List<(Text, Text)>),
}

// A call of its own, which keeps the proofs of all that hold variables small.
impl Drop for Kept {
    fn drop(self) {
        match self {
            Kept::Test(_) => {}
            Kept::Script(_) => {}
            Kept::Listed(_) => {}
        }
    }
}

/// The variables that a child gets, in order. Contracts see the list of their names and values; it is made only where
/// it is read, since most runs only hand them on.
#[derive(Drop)]
pub struct Variables {
    kept: Kept,
}

impl Model for Variables {
    ghost use Rattle.std.specs.Prelude.{List as Items, ℕ};
    ghost use Rattle.run_events.specs.Variables.{variables_kept};

    ghost Value = { Items (Items ℕ × Items ℕ) };

    ghost view = { λ v. variables_kept v.kept };
}

impl Variables {
    /// Those of a test's child.
    pub fn of_test(test: TestVariables) -> Variables
        ensures { result ≡ test_variables test }
    {
        Variables {
            kept: Kept::Test(test),
        }
    }

    /// Those of a setup script's child.
    pub fn of_script(script: ScriptVariables) -> Variables
        ensures { result ≡ script_variables script }
    {
        Variables {
            kept: Kept::Script(script),
        }
    }

    /// These, each with its value.
    pub fn listed(list: List<(Text, Text)>) -> Variables
        ensures { result ≡ list }
    {
        Variables {
            kept: Kept::Listed(list),
        }
    }

    /// Each with its value, in order.
    pub fn to_list(&self, alloc: Global) -> Mem<List<(Text, Text)>>
        ensures { IfOk result (λ list. list ≡ self.now) }
    {
        match &self.kept {
            Kept::Test(test) => test_list(alloc, test),
            Kept::Script(script) => script_list(alloc, script),
            Kept::Listed(list) => list.copy(alloc),
        }
    }
}

impl Debug for Variables {
    fn fmt<W: Write>(&self, f: &mut fmt::Formatter<W>) -> fmt::Result {
        f.write_str("Variables { .. }")
    }
}

impl Duplicate for TestVariables {
    fn copy(&self, alloc: Global) -> Mem<TestVariables> {
        let named = both(self.run.share(), self.id.copy(alloc));
        let placed = both(self.slot.copy(alloc), self.handed.copy(alloc));
        let ((run, id), (slot, handed)) = both(named, placed)?;
        Ok(TestVariables {
            run,
            id,
            attempt: self.attempt,
            attempts: self.attempts,
            stress_index: self.stress_index,
            slot,
            handed,
        })
    }
}

impl Duplicate for ScriptVariables {
    fn copy(&self, alloc: Global) -> Mem<ScriptVariables> {
        let (run, env_path) = both(self.run.share(), self.env_path.copy(alloc))?;
        Ok(ScriptVariables { run, env_path })
    }
}

impl Duplicate for Variables {
    fn copy(&self, alloc: Global) -> Mem<Variables> {
        match &self.kept {
            Kept::Test(test) => Ok(Variables::of_test(test.copy(alloc)?)),
            Kept::Script(script) => Ok(Variables::of_script(script.copy(alloc)?)),
            Kept::Listed(list) => Ok(Variables::listed(list.copy(alloc)?)),
        }
    }
}
