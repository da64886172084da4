// The setup scripts of a plan.
ghost use Rattle.std.specs.Prelude.{◌≡◌, ◌<◌, ◌^◌, ◌∷◌, ◌++◌, [], Bool, IfErr, IfOk, OnOk, Some, true, find, length};
ghost use Rattle.std.specs.Prelude.{codes, map, option_and_then, unwrap_or};
ghost use Rattle.std.specs.List.{cons_option, list_any, zip};
ghost use Rattle.std.specs.Option.{option_copied};
ghost use Rattle.uuid.specs.Text.{hyphenated_text, lower};
ghost use Rattle.run_events.specs.Usual.{usual_leak};
ghost use Rattle.run_input.specs.PlanScripts.{usual_script_slow};
ghost use Rattle.run_profile.specs.ScriptOrder.{script_order};
ghost use Rattle.run_plan.specs.declared.rows.AskedRow.{AskedRow};
ghost use Rattle.run_plan.specs.Planned.{kept_rows};
ghost use Rattle.run_plan.specs.Rows.{asked_row};
ghost use Rattle.run_plan.specs.Scripted.{IsUnordered, all_of, env_path, has_name, in_order, is_run_test};
ghost use Rattle.run_plan.specs.Scripted.{file_ordered, plan_script, script_numbers, script_words, wanted, wants};
ghost use Rattle.run_plan.specs.Scripted.{words_below};
ghost use Rattle.run_plan.specs.Scripted.{based_words};

use crate::choices::Picks;
use crate::kept::kept_tests;
use crate::plan_fault::PlanFault;
use crate::reasons::passes;
use crate::rows::AskedRow;
use crate::suites::with_word;
use crate::test_list::TestList;
use crate::texts::with_text;
use run_capture::{Duplicate, List, Mem, Text, with_copies};
use run_events::{LeakTimeout, PlanScript, SlowTimeout};
use run_profile::{Profile, Project, RelativeTo, ScriptCommand, SetupScript, script_order};
use std::alloc::Global;
use uuid::Uuid;

// Whether a test runs.
fn is_run_test(picks: &Picks, row: &AskedRow<'_>, is_in: bool) -> bool
    ensures { result ≡ is_run_test picks.now (asked_row row.now, is_in) }
{
    passes(picks, row) && is_in
}

// Whether it runs and wants a script.
fn wants(
    profile: &Profile,
    picks: &Picks,
    script: &SetupScript,
    row: &AskedRow<'_>,
    is_in: bool,
) -> bool
    ensures { result ≡ wants profile.now picks.now script.now (asked_row row.now, is_in) }
{
    is_run_test(picks, row, is_in)
        && profile.wants_script(script.name.as_str(), row.asked.rules.as_slice())
}

fn is_wanted(
    profile: &Profile,
    picks: &Picks,
    script: &SetupScript,
    rows: &[AskedRow<'_>],
    kept: &[bool],
) -> bool
    ensures { result ≡ list_any (λ (pair : AskedRow × Bool). wants profile.now picks.now script.now
        (asked_row pair.0, pair.1)) (zip rows.now kept.now) }
{
    rows.iter()
        .zip(kept.iter())
        .any(|(row, is_in)| wants(profile, picks, script, row, *is_in))
}

/// The scripts that some test wants, where so many of the tests stand in the part.
pub(crate) fn wanted<'a>(
    alloc: Global,
    profile: &Profile,
    picks: &Picks,
    rows: &[AskedRow<'_>],
    kept: &[bool],
    scripts: &'a [SetupScript],
) -> Mem<Vec<&'a SetupScript>>
    ensures { IfOk result (λ found. map (λ s. s.now) found.items
        ≡ wanted profile.now picks.now (zip (map asked_row rows.now) kept.now) scripts.entry.now) }
{
    let mut found = Vec::new(alloc);
    for script in scripts {
        if is_wanted(profile, picks, script, rows, kept) {
            found.push(script)?;
        }
    }
    Ok(found)
}

fn script_named<'a>(scripts: &[&'a SetupScript], name: &str) -> Option<&'a SetupScript>
    ensures { option_copied result ≡ find (has_name name.now) (map (λ s. s.now) scripts.now) }
{
    match scripts {
        [] => None,
        [script, others @ ..] => {
            if script.name.as_str() == name {
                Some(*script)
            } else {
                script_named(others, name)
            }
        }
    }
}

// Adds a script that is there.
fn push_found<'a>(found: &mut Vec<&'a SetupScript>, script: Option<&'a SetupScript>) -> Mem<()>
    ensures { OnOk result (map (λ s. s.now) found.new.items
        ≡ map (λ s. s.now) found.old.items ++ cons_option (option_copied script.entry) []) }
{
    if let Some(script) = script {
        found.push(script)?;
    }
    Ok(())
}

// Scripts in an order of names.
fn in_order<'a>(
    alloc: Global,
    names: &[Text],
    scripts: &[&'a SetupScript],
) -> Mem<Vec<&'a SetupScript>>
    ensures { IfOk result (λ found. map (λ s. s.now) found.items
        ≡ in_order names.now (map (λ s. s.now) scripts.now)) }
{
    let mut found = Vec::new(alloc);
    for name in names {
        push_found(&mut found, script_named(scripts, name.as_str()))?;
    }
    Ok(found)
}

// The same, where each of the scripts has a place in the order.
fn all_in_order<'a>(
    alloc: Global,
    names: &[Text],
    scripts: &[&'a SetupScript],
) -> Result<Vec<&'a SetupScript>, PlanFault>
    ensures ok { IfOk result (λ found. all_of (map (λ s. s.now) scripts.now)
        (in_order names.now (map (λ s. s.now) scripts.now)) ≡ Some (map (λ s. s.now) found.items)) }
    ensures err { IfErr result (IsUnordered (all_of (map (λ s. s.now) scripts.now)
        (in_order names.now (map (λ s. s.now) scripts.now)))) }
{
    let found = in_order(alloc, names, scripts)?;
    if found.len() == scripts.len() {
        Ok(found)
    } else {
        Err(PlanFault::ScriptOrder)
    }
}

// Scripts in the order of the project's file.
fn file_ordered<'a>(
    alloc: Global,
    config: Option<&str>,
    scripts: Vec<&'a SetupScript>,
) -> Result<Vec<&'a SetupScript>, PlanFault>
    ensures ok { IfOk result (λ found. file_ordered (option_and_then script_order (option_copied config.entry))
        (map (λ s. s.now) scripts.entry.items) ≡ Some (map (λ s. s.now) found.items)) }
    ensures err { IfErr result (IsUnordered (file_ordered (option_and_then script_order (option_copied config.entry))
        (map (λ s. s.now) scripts.entry.items))) }
{
    if scripts.len() <= 1 {
        return Ok(scripts);
    }
    let Some(text) = config else {
        return Err(PlanFault::ScriptOrder);
    };
    match script_order(alloc, text)? {
        Some(names) => all_in_order(alloc, names.as_slice(), &scripts),
        None => Err(PlanFault::ScriptOrder),
    }
}

/// The scripts that some test wants, in the order of the project's file.
pub(crate) fn used_scripts<'a>(
    alloc: Global,
    config: Option<&str>,
    project: &'a Project,
    picks: &Picks,
    rows: &[AskedRow<'_>],
) -> Result<Vec<&'a SetupScript>, PlanFault>
    ensures ok { IfOk result (λ used. file_ordered (option_and_then script_order (option_copied config.entry))
        (wanted project.entry.now.profile picks.now (kept_rows picks.now (map asked_row rows.now))
        project.entry.now.scripts) ≡ Some (map (λ s. s.now) used.items)) }
    ensures err { IfErr result (IsUnordered (file_ordered (option_and_then script_order (option_copied config.entry))
        (wanted project.entry.now.profile picks.now (kept_rows picks.now (map asked_row rows.now))
        project.entry.now.scripts))) }
{
    let kept = kept_tests(alloc, picks, rows)?;
    let scripts = project.scripts.as_slice();
    let found = wanted(alloc, &project.profile, picks, rows, &kept, scripts)?;
    file_ordered(alloc, config, found)
}

/// The numbers of those scripts that a test wants.
pub(crate) fn numbers_of(
    alloc: Global,
    profile: &Profile,
    picks: &Picks,
    scripts: &[&SetupScript],
    row: &AskedRow<'_>,
    is_in: bool,
) -> Mem<List<u32>>
    requires { length scripts.now < 2 ^ 32 }
    ensures { IfOk result (λ numbers. numbers
        ≡ script_numbers profile.now picks.now (asked_row row.now, is_in) 0 (map (λ s. s.now) scripts.now)) }
{
    let mut numbers = List::new();
    let mut number = 0u32;
    for script in scripts {
        if wants(profile, picks, *script, row, is_in) {
            numbers.push(alloc, number)?;
        }
        number += 1;
    }
    Ok(numbers)
}

// Words whose first is a path below a folder.
fn words_below(alloc: Global, folder: &str, words: &[Text]) -> Mem<List<Text>>
    ensures { IfOk result (λ below. below ≡ words_below folder.now words.now) }
{
    let [program, others @ ..] = words else {
        return Ok(List::new());
    };
    let mut path = Text::from_str(alloc, folder)?;
    path.push_str(alloc, "/")?;
    path.push_str(alloc, program.as_str())?;
    with_words(alloc, path, others)
}

// A word, and those after it.
fn with_words(alloc: Global, first: Text, others: &[Text]) -> Mem<List<Text>>
    ensures { IfOk result (λ words. words ≡ first ∷ others.now) }
{
    let mut words = List::new();
    words.push(alloc, first)?;
    let words = with_copies(alloc, words.into_vec(alloc), others)?;
    Ok(List::from_vec(words))
}

fn based_words(alloc: Global, list: &TestList, command: &ScriptCommand) -> Mem<List<Text>>
    ensures { IfOk result (λ words. words ≡ based_words list.now command.now.relative_to command.now.words) }
{
    match command.relative_to {
        RelativeTo::Nothing => command.words.copy(alloc),
        RelativeTo::WorkspaceRoot => words_below(alloc, root_of(list), command.words.as_slice()),
        RelativeTo::Target => words_below(alloc, list.target.as_str(), command.words.as_slice()),
    }
}

// The workspace's folder.
fn root_of(list: &TestList) -> &str
    ensures { result.now ≡ unwrap_or list.now.root (codes "/") }
{
    match &list.root {
        Some(root) => root.as_str(),
        None => "/",
    }
}

// Words that run others in a folder.
fn in_folder(alloc: Global, folder: &str) -> Mem<List<Text>>
    ensures { IfOk result (λ words. words ≡ codes "env" ∷ codes "-C" ∷ folder.now ∷ []) }
{
    let words = with_word(alloc, List::new(), "env")?;
    let words = with_word(alloc, words, "-C")?;
    with_word(alloc, words, folder)
}

// The words of a script, which runs in the workspace's folder.
fn script_words(alloc: Global, list: &TestList, command: &ScriptCommand) -> Mem<List<Text>>
    ensures { IfOk result (λ words. words ≡ script_words list.now command.now.relative_to command.now.words) }
{
    let based = based_words(alloc, list, command)?;
    let words = in_folder(alloc, root_of(list))?;
    let words = with_copies(alloc, words.into_vec(alloc), based.as_slice())?;
    Ok(List::from_vec(words))
}

fn id_text(alloc: Global, id: Uuid) -> Mem<Text>
    ensures { IfOk result (λ text. text ≡ hyphenated_text lower id) }
{
    let mut buffer = Uuid::encode_buffer();
    let text = id.hyphenated().encode_lower(&mut buffer);
    Text::from_str(alloc, text)
}

// What the paths of a run's files begin with.
fn run_path(alloc: Global, list: &TestList, run_id: Uuid) -> Mem<Text>
    ensures { IfOk result (λ path. path
        ≡ list.now.target ++ codes "/nextest_run-" ++ hyphenated_text lower run_id) }
{
    let id = id_text(alloc, run_id)?;
    let path = list.target.copy(alloc)?;
    let path = with_text(alloc, path, "/nextest_run-")?;
    with_text(alloc, path, id.as_str())
}

fn env_path(alloc: Global, list: &TestList, run_id: Uuid, name: &str) -> Mem<Text>
    ensures { IfOk result (λ path. path ≡ env_path list.now run_id name.now) }
{
    let path = run_path(alloc, list, run_id)?;
    let path = with_text(alloc, path, "-")?;
    let path = with_text(alloc, path, name)?;
    with_text(alloc, path, ".env")
}

fn slow_of(script: &SetupScript) -> SlowTimeout
    ensures { result ≡ unwrap_or script.now.slow usual_script_slow }
{
    match script.slow {
        Some(slow) => slow,
        None => SlowTimeout {
            period: 946_080_000_000_000_000,
            ..SlowTimeout::usual()
        },
    }
}

fn leak_of(script: &SetupScript) -> LeakTimeout
    ensures { result ≡ unwrap_or script.now.leak usual_leak }
{
    match script.leak {
        Some(leak) => leak,
        None => LeakTimeout::usual(),
    }
}

fn or_true(said: Option<bool>) -> bool
    ensures { result ≡ unwrap_or said true }
{
    match said {
        Some(said) => said,
        None => true,
    }
}

fn plan_script(
    alloc: Global,
    list: &TestList,
    run_id: Uuid,
    script: &SetupScript,
) -> Mem<PlanScript>
    ensures { IfOk result (λ s. s ≡ plan_script list.now run_id script.now) }
{
    let id = script.name.copy(alloc)?;
    let env_path = env_path(alloc, list, run_id, script.name.as_str())?;
    let command = script_words(alloc, list, &script.command)?;
    Ok(PlanScript {
        id,
        command,
        env_path,
        slow: slow_of(script),
        leak: leak_of(script),
        capture_stdout: or_true(script.capture_stdout),
        capture_stderr: or_true(script.capture_stderr),
    })
}

/// The scripts of a plan.
pub(crate) fn plan_scripts(
    alloc: Global,
    list: &TestList,
    run_id: Uuid,
    scripts: &[&SetupScript],
) -> Mem<List<PlanScript>>
    ensures { IfOk result (λ plan. plan ≡ map (plan_script list.now run_id) (map (λ s. s.now) scripts.now)) }
{
    let mut plan = List::new();
    for script in scripts {
        plan.push(alloc, plan_script(alloc, list, run_id, *script)?)?;
    }
    Ok(plan)
}
