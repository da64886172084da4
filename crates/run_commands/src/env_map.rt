// The variables that a setup script hands on.
ghost use Rattle.std.specs.Prelude.{◌≡◌, IfOk};
ghost use Rattle.std.specs.BTreeMap.{IsOrdered};
ghost use Rattle.std.specs.String.{string_cmp};
ghost use Rattle.run_commands.specs.EnvMap.{IsByName, pairs_in};

use run_capture::{Duplicate, List, Mem, Text};
use std::alloc::Global;
use std::collections::BTreeMap;
use std::marker::Model;

/// Variables with their values, by name. Contracts see the pairs in that order.
#[derive(Debug, Drop)]
pub struct EnvMap {
    list: List<(Text, Text)>,
}

impl Model for EnvMap {
    ghost use Rattle.std.specs.Prelude.{List};
    ghost use Rattle.run_commands.specs.Pair.{Pair};
    ghost use Rattle.run_commands.specs.EnvMap.{IsByName};

    ghost Value = { List Pair };

    ghost view = { λ m. m.list };

    ghost invariant = { λ m. IsByName m.list };
}

impl EnvMap {
    /// Takes the entries of a map.
    pub(crate) fn from_entries(alloc: Global, entries: BTreeMap<String, Text>) -> Mem<EnvMap>
        requires { IsOrdered string_cmp entries }
        ensures { IfOk result (λ m. m ≡ pairs_in entries.entries) }
    {
        Ok(EnvMap {
            list: pairs_of(alloc, entries)?,
        })
    }

    /// The names with their values, in the order of the names' bytes.
    pub fn pairs(&self) -> &[(Text, Text)]
        ensures pairs { result.now ≡ self.now }
        ensures by_name { IsByName self.now }
    {
        self.list.as_slice()
    }
}

// The entries of a map as a list, in order.
fn pairs_of(alloc: Global, mut entries: BTreeMap<String, Text>) -> Mem<List<(Text, Text)>>
    ensures { IfOk result (λ pairs. pairs ≡ pairs_in entries.entries) }
{
    let mut pairs = List::new();
    while let Some((key, value)) = entries.pop_first() {
        pairs.push(alloc, (Text::from_string(key), value))?;
    }
    Ok(pairs)
}

impl Duplicate for EnvMap {
    fn copy(&self, alloc: Global) -> Mem<EnvMap> {
        Ok(EnvMap {
            list: self.list.copy(alloc)?,
        })
    }
}
