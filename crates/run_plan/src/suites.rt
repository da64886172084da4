// The binaries of a list.
ghost use Rattle.std.specs.Prelude.{◌≡◌, ◌++◌, ◌∷◌, [], Ok, Err, codes, IfErr, IfOk};
ghost use Rattle.serde_json.specs.Find.{get};
ghost use Rattle.serde_json.specs.View.{members_view, view};
ghost use Rattle.run_commands.specs.declared.target_runner.BuildPlatform.TheVariants as platforms;
ghost use Rattle.run_input.specs.Fields.{or_usual};
ghost use Rattle.run_input.specs.PlanTest.{platform_of};
ghost use Rattle.run_input.specs.ReadsValue.{ReadsValue};
ghost use Rattle.run_plan.specs.TestList.{binaries_from, binaries_of, listed_binary, command_in, binary_command};
ghost use Rattle.run_plan.specs.TestList.{facts_of, folder_command, needed_words};

use crate::test_list::{BinaryFacts, ListedTest, TestBinary};
use crate::testcases::tests_at;
use run_capture::{List, Mem, Text};
use run_commands::BuildPlatform;
use run_input::{Refusal, Wrong, no_text, or_not, str_at, text_at, texts_at, under};
use serde_json::{Map, Value};
use std::alloc::Global;

fn platform_from(value: &Value) -> Option<BuildPlatform>
    ensures { result ≡ platform_of (view value.now) }
{
    match value.as_str()? {
        "target" => Some(BuildPlatform::Target),
        "host" => Some(BuildPlatform::Host),
        _ => None,
    }
}

// The platform of a binary, and the target's where nothing is said.
fn platform_at(alloc: Global, binary: &Value) -> Result<BuildPlatform, Refusal>
    ensures { ReadsValue result
        (or_usual platforms.Target platform_of (get (codes "build-platform") (view binary.now))) }
{
    match binary.get("build-platform") {
        Some(value) => or_not(
            alloc,
            platform_from(value),
            "build-platform",
            "target or host",
        ),
        None => Ok(BuildPlatform::Target),
    }
}

/// Words, with one more.
pub(crate) fn with_word(alloc: Global, words: List<Text>, word: &str) -> Mem<List<Text>>
    ensures { IfOk result (λ more. more ≡ words ++ word.now ∷ []) }
{
    let mut words = words;
    let word = Text::from_str(alloc, word)?;
    words.push(alloc, word)?;
    Ok(words)
}

// The variable that names a folder, as `env` takes it.
fn folder_variable(alloc: Global, folder: &str) -> Mem<Text>
    ensures { IfOk result (λ variable. variable ≡ codes "CARGO_MANIFEST_DIR=" ++ folder.now) }
{
    let mut variable = Text::from_str(alloc, "CARGO_MANIFEST_DIR=")?;
    variable.push_str(alloc, folder)?;
    Ok(variable)
}

// Words, with that variable.
fn with_variable(alloc: Global, words: List<Text>, folder: &str) -> Mem<List<Text>>
    ensures { IfOk result (λ more. more ≡ words ++ (codes "CARGO_MANIFEST_DIR=" ++ folder.now) ∷ []) }
{
    let variable = folder_variable(alloc, folder)?;
    with_word(alloc, words, variable.as_str())
}

// The words that run a binary in a folder.
fn command_in(alloc: Global, folder: &str, binary: &str) -> Mem<List<Text>>
    ensures { IfOk result (λ words. words ≡ command_in folder.now binary.now) }
{
    let words = with_word(alloc, List::new(), "env")?;
    let words = with_word(alloc, words, "-C")?;
    let words = with_word(alloc, words, folder)?;
    let words = with_variable(alloc, words, folder)?;
    with_word(alloc, words, binary)
}

// The words that run a binary in the folder that the list says.
fn folder_command(alloc: Global, binary: &Value) -> Result<List<Text>, Refusal>
    ensures { ReadsValue result (folder_command (view binary.now)) }
{
    let Some(folder) = str_at(binary, "cwd") else {
        return Err(no_text(alloc, binary, "cwd"));
    };
    let Some(path) = str_at(binary, "binary-path") else {
        return Err(no_text(alloc, binary, "binary-path"));
    };
    Ok(command_in(alloc, folder, path)?)
}

// Words, of which there is one.
fn needed_words(alloc: Global, words: List<Text>) -> Result<List<Text>, Refusal>
    ensures { ReadsValue result (needed_words words) }
{
    if words.is_empty() {
        Err(Refusal::at(alloc, "command", Wrong::Not("a program and its arguments")))
    } else {
        Ok(words)
    }
}

// The words that run a binary: those that the list has, else by its folder and its path.
fn command_at(alloc: Global, binary: &Value) -> Result<List<Text>, Refusal>
    ensures { ReadsValue result (binary_command (view binary.now)) }
{
    match binary.get("command") {
        Some(_) => needed_words(alloc, texts_at(alloc, binary, "command")?),
        None => folder_command(alloc, binary),
    }
}

// What a list says of a binary beside its tests.
fn facts_from(alloc: Global, value: &Value) -> Result<BinaryFacts, Refusal>
    ensures { ReadsValue result (facts_of (view value.now)) }
{
    let platform = platform_at(alloc, value)?;
    let package_name = text_at(alloc, value, "package-name")?;
    let name = text_at(alloc, value, "binary-name")?;
    let kind = text_at(alloc, value, "kind")?;
    Ok(BinaryFacts {
        package_name,
        name,
        kind,
        platform,
    })
}

// Both, where the second is there.
fn both<A: Drop, B>(first: A, second: Result<B, Refusal>) -> Result<(A, B), Refusal>
    ensures first { IfOk result (λ pair. (pair.0 ≡ first) × (second ≡ Ok pair.1)) }
    ensures refused { IfErr result (λ e. second ≡ Err e) }
{
    match second {
        Ok(second) => Ok((first, second)),
        Err(e) => Err(e),
    }
}

// A binary of this id, these facts, this command and these tests.
fn binary_with(
    alloc: Global,
    id: &str,
    facts: BinaryFacts,
    run: (List<Text>, List<ListedTest>),
) -> Mem<TestBinary>
    ensures { IfOk result (λ b. b ≡ record { id = id.now; facts = facts; command = run.0; tests = run.1 }) }
{
    let id = Text::from_str(alloc, id)?;
    Ok(TestBinary {
        id,
        facts,
        command: run.0,
        tests: run.1,
    })
}

// The binary of this id.
#[tactic(auto, unfolding(crate::specs::TestList::listed_binary))]
fn binary_from(alloc: Global, id: &str, value: &Value) -> Result<TestBinary, Refusal>
    ensures { ReadsValue result (listed_binary id.now (view value.now)) }
{
    let facts = facts_from(alloc, value)?;
    let (facts, command) = both(facts, command_at(alloc, value))?;
    let (facts, run) = both(facts, both(command, tests_at(alloc, value)))?;
    Ok(binary_with(alloc, id, facts, run)?)
}

// The same, of which a refusal names the binary.
fn named_binary(alloc: Global, id: &str, value: &Value) -> Result<TestBinary, Refusal>
    ensures { ReadsValue result (listed_binary id.now (view value.now)) }
{
    under(alloc, id, binary_from(alloc, id, value))
}

// The binaries that stand at their ids.
fn binaries_in(alloc: Global, members: &Map<String, Value>) -> Result<List<TestBinary>, Refusal>
    ensures { ReadsValue result (binaries_from (members_view members.now.entries)) }
{
    let mut binaries = List::new();
    for (id, value) in members.iter() {
        binaries.push(alloc, named_binary(alloc, id.as_str(), value)?)?;
    }
    Ok(binaries)
}

/// The binaries of an object of them.
pub fn binaries_from(alloc: Global, value: &Value) -> Result<List<TestBinary>, Refusal>
    ensures { ReadsValue result (binaries_of (view value.now)) }
{
    match value.as_object() {
        Some(members) => binaries_in(alloc, members),
        None => Err(Refusal::of(alloc, Wrong::Not("an object"))),
    }
}
