// The setup scripts that a table says.
ghost use Rattle.std.specs.Prelude.{codes, None, true};
ghost use Rattle.toml.specs.View.{view, members_view};
ghost use Rattle.run_commands.specs.CommandWords.{command_words};
ghost use Rattle.run_profile.specs.Refusals.{Agrees, dotted};
ghost use Rattle.run_profile.specs.Fields.{needed, only_keys, optional_key, or_nothing};
ghost use Rattle.run_profile.specs.Scripts.{base_read, base_word, captures_read, command_read, command_form};
ghost use Rattle.run_profile.specs.Scripts.{script_entries, script_entry, script_keys, setup_table, scripts_read};
ghost use Rattle.run_profile.specs.Scripts.{words_read, words_said, words_split};

use crate::both::both;
use crate::errors::{Fault, ProfileError, dotted, refused};
use crate::fields::{only_keys, optional_truth, texts_of};
use crate::said::terms_from;
use crate::scripts::{RelativeTo, ScriptCommand, SetupScript};
use run_capture::{List, Text};
use run_commands::{DebuggerCommand, DebuggerCommandParseError};
use std::alloc::Global;
use toml::{Table, Value};

// The words of a text, split as those of a debugger's command are.
fn split_words(alloc: Global, path: &str, text: &str) -> Result<List<Text>, ProfileError>
    ensures { Agrees result (words_split path.now (command_words text.now)) }
{
    match DebuggerCommand::from_str(alloc, text) {
        Ok(command) => Ok(command.words(alloc)?),
        Err(DebuggerCommandParseError::ShellWordsParse { place: _ }) => refused(
            alloc,
            path,
            Fault::NotCommand,
        ),
        Err(DebuggerCommandParseError::EmptyCommand) => refused(alloc, path, Fault::NotCommand),
        Err(DebuggerCommandParseError::OutOfMemory) => Err(ProfileError::OutOfMemory),
    }
}

// The words of a list.
fn listed_words(alloc: Global, path: &str, value: &Value) -> Result<List<Text>, ProfileError>
    ensures { Agrees result (words_said None path.now (view value.now)) }
{
    let words = texts_of(alloc, path, value)?;
    if words.is_empty() {
        drop(words);
        return refused(alloc, path, Fault::NotCommand);
    }
    Ok(words)
}

fn words_from(alloc: Global, path: &str, value: &Value) -> Result<List<Text>, ProfileError>
    ensures { Agrees result (words_read path.now (view value.now)) }
{
    match value.as_str() {
        Some(text) => split_words(alloc, path, text),
        None => listed_words(alloc, path, value),
    }
}

fn words_at(alloc: Global, path: &str, table: &Value) -> Result<List<Text>, ProfileError>
    ensures { Agrees result (needed words_read path.now (codes "command-line") (view table.now)) }
{
    let path = dotted(alloc, path, "command-line")?;
    match table.get("command-line") {
        Some(value) => words_from(alloc, path.as_str(), value),
        None => refused(alloc, path.as_str(), Fault::MissingKey),
    }
}

fn base_word(alloc: Global, path: &str, word: &str) -> Result<RelativeTo, ProfileError>
    ensures { Agrees result (base_word path.now word.now) }
{
    match word {
        "none" => Ok(RelativeTo::Nothing),
        "workspace-root" => Ok(RelativeTo::WorkspaceRoot),
        "target" => Ok(RelativeTo::Target),
        _ => refused(alloc, path, Fault::NotWord),
    }
}

#[tactic(auto, unfolding(crate::specs::Scripts::base_read))]
fn base_from(alloc: Global, path: &str, value: &Value) -> Result<RelativeTo, ProfileError>
    ensures { Agrees result (base_read path.now (view value.now)) }
{
    match value.as_str() {
        Some(word) => base_word(alloc, path, word),
        None => refused(alloc, path, Fault::NotText),
    }
}

fn base_at(alloc: Global, path: &str, table: &Value) -> Result<Option<RelativeTo>, ProfileError>
    ensures { Agrees result (optional_key base_read path.now (codes "relative-to") (view table.now)) }
{
    match table.get("relative-to") {
        Some(value) => {
            let path = dotted(alloc, path, "relative-to")?;
            Ok(Some(base_from(alloc, path.as_str(), value)?))
        }
        None => Ok(None),
    }
}

fn command_table(alloc: Global, path: &str, table: &Value) -> Result<ScriptCommand, ProfileError>
    ensures { Agrees result (command_form true path.now (view table.now)) }
{
    only_keys(alloc, path, &["command-line", "relative-to"], table)?;
    let words = words_at(alloc, path, table)?;
    let (words, base) = both(words, base_at(alloc, path, table))?;
    Ok(ScriptCommand {
        words,
        relative_to: base.unwrap_or(RelativeTo::Nothing),
    })
}

fn command_from(alloc: Global, path: &str, value: &Value) -> Result<ScriptCommand, ProfileError>
    ensures { Agrees result (command_read path.now (view value.now)) }
{
    if value.is_table() {
        return command_table(alloc, path, value);
    }
    let words = words_from(alloc, path, value)?;
    Ok(ScriptCommand {
        words,
        relative_to: RelativeTo::Nothing,
    })
}

fn command_at(alloc: Global, path: &str, table: &Value) -> Result<ScriptCommand, ProfileError>
    ensures { Agrees result (needed command_read path.now (codes "command") (view table.now)) }
{
    let path = dotted(alloc, path, "command")?;
    match table.get("command") {
        Some(value) => command_from(alloc, path.as_str(), value),
        None => refused(alloc, path.as_str(), Fault::MissingKey),
    }
}

// Whether the streams of a script are captured.
fn captures_from(
    alloc: Global,
    path: &str,
    table: &Value,
) -> Result<(Option<bool>, Option<bool>), ProfileError>
    ensures { Agrees result (captures_read path.now (view table.now)) }
{
    let stdout = optional_truth(alloc, path, table, "capture-stdout")?;
    let stderr = optional_truth(alloc, path, table, "capture-stderr")?;
    Ok((stdout, stderr))
}

fn only_script_keys(alloc: Global, path: &str, table: &Value) -> Result<(), ProfileError>
    ensures { Agrees result (only_keys script_keys path.now (view table.now)) }
{
    let names = [
        "capture-stderr",
        "capture-stdout",
        "command",
        "leak-timeout",
        "slow-timeout",
    ];
    only_keys(alloc, path, &names, table)
}

// The script of this name.
#[tactic(auto, unfolding(crate::specs::Scripts::script_entry))]
fn script_from(
    alloc: Global,
    path: &str,
    name: &str,
    table: &Value,
) -> Result<SetupScript, ProfileError>
    ensures { Agrees result (script_entry path.now name.now (view table.now)) }
{
    only_script_keys(alloc, path, table)?;
    let name = Text::from_str(alloc, name)?;
    let (name, command) = both(name, command_at(alloc, path, table))?;
    let ((name, command), terms) = both((name, command), terms_from(alloc, path, table))?;
    let ((name, command), captures) = both((name, command), captures_from(alloc, path, table))?;
    Ok(SetupScript {
        name,
        command,
        slow: terms.0,
        leak: terms.1,
        capture_stdout: captures.0,
        capture_stderr: captures.1,
    })
}

// The script of this name, of the scripts at a path.
fn script_at(
    alloc: Global,
    path: &str,
    name: &str,
    table: &Value,
) -> Result<SetupScript, ProfileError>
    ensures { Agrees result (script_entry (dotted path.now name.now) name.now (view table.now)) }
{
    let path = dotted(alloc, path, name)?;
    script_from(alloc, path.as_str(), name, table)
}

#[tactic(auto, using(crate::proofs::LevelsLemmas::before_push))]
fn scripts_in(alloc: Global, path: &str, members: &Table) -> Result<List<SetupScript>, ProfileError>
    ensures { Agrees result (script_entries path.now (members_view members.now.entries)) }
{
    let mut scripts = List::new();
    for (name, value) in members.iter() {
        let script = script_at(alloc, path, name.as_str(), value)?;
        scripts.push(alloc, script)?;
    }
    Ok(scripts)
}

fn scripts_listed(
    alloc: Global,
    path: &str,
    value: &Value,
) -> Result<List<SetupScript>, ProfileError>
    ensures { Agrees result (setup_table path.now (view value.now)) }
{
    match value.as_table() {
        Some(members) => scripts_in(alloc, path, members),
        None => refused(alloc, path, Fault::NotTable),
    }
}

fn scripts_at(alloc: Global, path: &str, table: &Value) -> Result<List<SetupScript>, ProfileError>
    ensures { Agrees result (or_nothing setup_table path.now (codes "setup") (view table.now)) }
{
    match table.get("setup") {
        Some(value) => {
            let path = dotted(alloc, path, "setup")?;
            scripts_listed(alloc, path.as_str(), value)
        }
        None => Ok(List::new()),
    }
}

/// The setup scripts that the table of a project's scripts says, in the order of their names.
pub fn scripts_from(
    alloc: Global,
    path: &str,
    value: &Value,
) -> Result<List<SetupScript>, ProfileError>
    ensures { Agrees result (scripts_read path.now (view value.now)) }
{
    only_keys(alloc, path, &["setup"], value)?;
    scripts_at(alloc, path, value)
}
