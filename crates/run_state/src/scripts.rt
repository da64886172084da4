// The scripts of a run: which comes next, and what they handed on.
ghost use Rattle.std.specs.Prelude.{◌≡◌, ◌++◌, ◌==◌, [], if◌then◌else◌, IfOk, OnOk};
ghost use Rattle.std.specs.List.{list_any};
ghost use Rattle.run_model.specs.Admission.{handed_by, handed_from, open_script};

use run_capture::{Duplicate, List, Mem, Text};
use run_unit::{Phase, Unit};
use std::alloc::Global;

/// The place of the first of some scripts that wasn't admitted, where each before it is over.
pub fn open_script(scripts: &[Option<Unit>]) -> Option<usize>
    ensures { result ≡ open_script scripts.now }
{
    for (place, script) in scripts.iter().enumerate() {
        match script {
            Some(script) => {
                if !matches!(script.phase(), Phase::Over) {
                    return None;
                }
            }
            None => return Some(place),
        }
    }
    None
}

// Whether a number is one of some.
fn is_listed(numbers: &[u32], number: usize) -> bool
    ensures { result ≡ list_any (λ n. n == number) numbers.now }
{
    numbers.iter().any(|listed| *listed as usize == number)
}

// The variables that a script handed on.
fn handed_by(script: &Option<Unit>) -> &[(Text, Text)]
    ensures { result.now ≡ handed_by script.now }
{
    match script {
        Some(script) => script.variables(),
        None => &[],
    }
}

// These variables come after those that were handed on before.
fn hand_on(alloc: Global, handed: &mut List<(Text, Text)>, variables: &[(Text, Text)]) -> Mem<()>
    ensures { OnOk result (handed.new ≡ handed.old ++ variables.now) }
{
    for variable in variables {
        handed.push(alloc, variable.copy(alloc)?)?;
    }
    Ok(())
}

// What the script of this number handed on, where the number is one of these.
fn handed_if_listed<'a>(
    numbers: &[u32],
    number: usize,
    script: &'a Option<Unit>,
) -> &'a [(Text, Text)]
    ensures { result.now ≡ (if list_any (λ n. n == number) numbers.now then handed_by script.now
        else []) }
{
    if is_listed(numbers, number) {
        handed_by(script)
    } else {
        &[]
    }
}

/// What those scripts handed on whose numbers these are, in the order of the scripts, each once.
pub fn handed_from(
    alloc: Global,
    numbers: &[u32],
    scripts: &[Option<Unit>],
) -> Mem<List<(Text, Text)>>
    ensures { IfOk result (λ handed. handed ≡ handed_from numbers.now 0 scripts.now) }
{
    let mut handed = List::new();
    for (place, script) in scripts.iter().enumerate() {
        hand_on(alloc, &mut handed, handed_if_listed(numbers, place, script))?;
    }
    Ok(handed)
}
