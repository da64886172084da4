// The case of a finished setup script.
ghost use Rattle.std.specs.Prelude.{◌≡◌, ◌++◌, ◌∷◌, [], string_bytes, IfOk, OnOk};
ghost use Rattle.std.specs.List.{flat_map};
ghost use Rattle.run_junit.specs.Cases.{env_tokens, script_tokens, script_why, variable_tokens, variables_tokens};
ghost use Rattle.run_junit.specs.Cases.{why_tokens};
ghost use Rattle.run_junit.specs.Tokens.{tokens_bytes};

use crate::case::{push_case_end, push_output, push_reason};
use crate::elements::{bare_start, case_start, end_line, variable_line};
use crate::page::Page;
use crate::tag::Tag;
use run_capture::{Mem, Text};
use run_events::{ChildExecutionOutput, ExecutionResult, ScriptEnv, ScriptFinish};
use std::alloc::Global;

// Adds a variable.
fn push_variable(alloc: Global, page: &mut Page, variable: &(Text, Text)) -> Mem<()>
    ensures { OnOk result (page.new ≡ page.old ++ tokens_bytes (variable_tokens variable.now)) }
{
    let line = variable_line(alloc, variable)?;
    page.push(line)
}

// Adds variables.
fn push_variables(alloc: Global, page: &mut Page, variables: &[(Text, Text)]) -> Mem<()>
    ensures { OnOk result (page.new ≡ page.old ++ tokens_bytes (flat_map variable_tokens variables.now)) }
{
    for variable in variables {
        push_variable(alloc, page, variable)?;
    }
    Ok(())
}

// Adds the variables that a script handed on, where there are some.
#[tactic(auto, using(crate::proofs::TokenLemmas::tokens_three, crate::proofs::TokenLemmas::no_tokens))]
fn push_handed_on(alloc: Global, page: &mut Page, variables: &[(Text, Text)]) -> Mem<()>
    ensures { OnOk result (page.new ≡ page.old ++ tokens_bytes (variables_tokens variables.now)) }
{
    if variables.is_empty() {
        return Ok(());
    }
    let start = bare_start(alloc, 3, Tag::Properties)?;
    page.push(start)?;
    push_variables(alloc, page, variables)?;
    let end = end_line(alloc, 3, Tag::Properties)?;
    page.push(end)
}

// Adds what came of its environment file.
#[tactic(auto, using(crate::proofs::TokenLemmas::no_tokens))]
fn push_env(alloc: Global, page: &mut Page, env: &ScriptEnv) -> Mem<()>
    ensures { OnOk result (page.new ≡ page.old ++ tokens_bytes (env_tokens env.now)) }
{
    match env {
        ScriptEnv::Variables(map) => push_handed_on(alloc, page, map.pairs()),
        ScriptEnv::Unread | ScriptEnv::Fault(_) => Ok(()),
    }
}

// Adds why an attempt with this result is no success, and what it wrote.
#[tactic(auto, using(crate::proofs::TokenLemmas::tokens_two))]
fn push_why(
    alloc: Global,
    page: &mut Page,
    ended: ExecutionResult,
    child: &ChildExecutionOutput,
) -> Mem<()>
    ensures { OnOk result (page.new ≡ page.old ++ tokens_bytes (why_tokens ended child.now)) }
{
    push_reason(alloc, page, ended, child)?;
    push_output(alloc, page, 3, child)
}

// Adds why a script is none of a success, and what it wrote then.
#[tactic(auto, using(crate::proofs::TokenLemmas::no_tokens))]
fn push_script_why(alloc: Global, page: &mut Page, finish: &ScriptFinish) -> Mem<()>
    ensures { OnOk result (page.new ≡ page.old ++ tokens_bytes (script_why finish.now)) }
{
    if finish.status.result.is_success() {
        return Ok(());
    }
    push_why(alloc, page, finish.status.result, &finish.status.output)
}

/// The case of a finished script.
#[tactic(auto, using(crate::proofs::TokenLemmas::tokens_four), unfolding(crate::specs::Cases::script_tokens))]
pub(crate) fn script_page(alloc: Global, started: Option<u64>, finish: &ScriptFinish) -> Mem<Page>
    ensures { IfOk result (λ page. page ≡ tokens_bytes (script_tokens started finish.now)) }
{
    let id = finish.script.id.as_str();
    let status = &finish.status;
    let start = case_start(alloc, started, id, id, status.start, status.time)?;
    let mut page = Page::new(alloc);
    page.push(start)?;
    push_env(alloc, &mut page, &status.env)?;
    push_script_why(alloc, &mut page, finish)?;
    push_case_end(alloc, &mut page)?;
    Ok(page)
}
