// From the files and the words of a call to its plan line.
ghost use Rattle.std.specs.Prelude.{◌≡◌, ◌<◌, ◌^◌, ℕ, Err, IfErr, IfOk, List, Ok, OnOk, Option, Some, false, length};
ghost use Rattle.std.specs.Prelude.{map};
ghost use Rattle.std.specs.List.{zip};
ghost use Rattle.std.specs.Option.{option_copied};
ghost use Rattle.toml.specs.View.{table_view};
ghost use Rattle.run_plan.specs.Calls.{AnswersCall, AnswersFiles, AnswersProject, LacksPlan, IsNoDocument, IsNoProject};
ghost use Rattle.run_plan.specs.Calls.{IsPlan, IsPlanWhere};
ghost use Rattle.run_plan.specs.Calls.{document_in, document_of, notes_in, project_in};
ghost use Rattle.run_plan.specs.Rows.{asked_row, listed_row};
ghost use Rattle.run_plan.specs.Versions.{needs_newer};
ghost use Rattle.run_plan.specs.declared.asked.Call.{Call};
ghost use Rattle.run_plan.specs.declared.choices.Choices.{Choices};

use crate::asked::{Asked, Call};
use crate::asking::ask;
use crate::choices::{Choices, Ways};
use crate::list::read_list;
use crate::plan::planned;
use crate::plan_fault::{PlanFault, asked_fault, profile_fault};
use crate::plan_line::{MOST, line_of};
use crate::platform::platform_given;
use crate::rows::{AskedRow, ListRow, asked_rows, rows_of};
use crate::scripted::used_scripts;
use crate::test_list::TestList;
use crate::versions::needs_newer;
use run_capture::{List, Text};
use run_plan_line::SaidPlan;
use run_profile::{Project, notes_of, read_profile};
use std::alloc::Global;
use toml::Table;

/// What the files of a call say. Where the words name no file, nothing stands.
#[derive(Clone, Copy)]
pub struct Texts<'a> {
    /// The list of tests.
    pub list: &'a [u8],
    /// What `rustc --print cfg` says.
    pub cfg: Option<&'a str>,
    /// The project's `nextest.toml`.
    pub config: Option<&'a str>,
}

/// A plan line, and what is to be told of the project's file.
#[derive(Drop)]
pub struct NotedLine {
    pub line: Text,
    /// The paths of keys that change no plan.
    pub notes: List<Text>,
}

// The document of the project's file; of no file, an empty one.
fn document_of(alloc: Global, config: Option<&str>) -> Result<Table, PlanFault>
    ensures ok { IfOk result (λ table. document_of (option_copied config.entry) ≡ Some (table_view table)) }
    ensures err { IfErr result (IsNoDocument (option_copied config.entry)) }
{
    let Some(text) = config else {
        return Ok(Table::new(alloc));
    };
    match toml::table_from_str(alloc, text) {
        Ok(table) => Ok(table),
        Err(error) => {
            if error.is_memory() {
                return Err(PlanFault::OutOfMemory);
            }
            Err(PlanFault::NotToml(error))
        }
    }
}

// The chosen profile of the document.
fn project_in(
    alloc: Global,
    texts: &Texts<'_>,
    ways: &Ways,
    document: &Table,
) -> Result<Project, PlanFault>
    ensures ok { IfOk result (λ project. project_in texts.now ways.now (table_view document.now) ≡ Ok project) }
    ensures err { IfErr result (IsNoProject (project_in texts.now ways.now (table_view document.now))) }
{
    let platform = platform_given(alloc, texts.cfg)?;
    let name = match &ways.profile {
        Some(name) => name.as_str(),
        None => "default",
    };
    match read_profile(alloc, document, name, &platform) {
        Ok(project) => Ok(project),
        Err(error) => Err(profile_fault(error)),
    }
}

// The plan of a list and a project, where filters say so much of each test.
fn plan_where(
    alloc: Global,
    config: Option<&str>,
    list: &TestList,
    project: &Project,
    given: (&Choices, &Call),
    rows: &[AskedRow<'_>],
) -> Result<SaidPlan, PlanFault>
    ensures ok { IfOk result (IsPlanWhere (option_copied config.entry) list.now project.now given.entry.0.now
        given.entry.1.now (map asked_row rows.now)) }
    ensures err { IfErr result (LacksPlan (option_copied config.entry) list.now project.now given.entry.0.now
        given.entry.1.now (map asked_row rows.now)) }
{
    let used = used_scripts(alloc, config, project, &given.0.picks, rows)?;
    if used.len() > MOST {
        return Err(PlanFault::TooMany);
    }
    Ok(planned(alloc, list, project, given, rows, &used)?)
}

// The same of tests, and of what filters say of each.
fn plan_asked(
    alloc: Global,
    config: Option<&str>,
    list: &TestList,
    project: &Project,
    given: (&Choices, &Call),
    tests: (&[ListRow<'_>], &[Asked]),
) -> Result<SaidPlan, PlanFault>
    ensures ok { IfOk result (IsPlanWhere (option_copied config.entry) list.now project.now given.entry.0.now
        given.entry.1.now (zip (map listed_row tests.entry.0.now) tests.entry.1.now)) }
    ensures err { IfErr result (LacksPlan (option_copied config.entry) list.now project.now given.entry.0.now
        given.entry.1.now (zip (map listed_row tests.entry.0.now) tests.entry.1.now)) }
{
    let rows = asked_rows(alloc, tests.0, tests.1)?;
    plan_where(alloc, config, list, project, given, &rows)
}

// Refuses a list of too many binaries, and a project that wants a newer version.
fn check_project(alloc: Global, list: &TestList, project: &Project) -> Result<(), PlanFault>
    ensures few { OnOk result (length list.now.binaries < 2 ^ 32) }
    ensures old { OnOk result (needs_newer project.now.versions ≡ false) }
    ensures err { IfErr result (λ e. (config : Option (List ℕ)) (choices : Choices) (call : Call)
        → AnswersProject (Err e) config list.now project.now choices call) }
{
    if list.binaries.len() > MOST {
        return Err(PlanFault::TooMany);
    }
    if needs_newer(alloc, &project.versions)? {
        return Err(PlanFault::NeedsNewer);
    }
    Ok(())
}

// The plan of a list and a project.
fn plan_by(
    alloc: Global,
    config: Option<&str>,
    list: &TestList,
    project: &Project,
    given: (&Choices, &Call),
) -> Result<SaidPlan, PlanFault>
    ensures ok { IfOk result (IsPlan (option_copied config.entry) list.now project.now given.entry.0.now
        given.entry.1.now) }
    ensures err { IfErr result (λ e. AnswersProject (Err e) (option_copied config.entry) list.now project.now
        given.entry.0.now given.entry.1.now) }
{
    check_project(alloc, list, project)?;
    let rows = rows_of(alloc, list)?;
    match ask(alloc, &project.profile, &given.0.picks, &rows) {
        Ok(asked) => plan_asked(
            alloc,
            config,
            list,
            project,
            given,
            (&rows, asked.as_slice()),
        ),
        Err(error) => Err(asked_fault(error)),
    }
}

// Its line.
fn line_by(
    alloc: Global,
    config: Option<&str>,
    list: &TestList,
    project: &Project,
    given: (&Choices, &Call),
) -> Result<Text, PlanFault>
    ensures { AnswersProject result (option_copied config.entry) list.now project.now given.entry.0.now
        given.entry.1.now }
{
    match plan_by(alloc, config, list, project, given) {
        Ok(plan) => line_of(alloc, &plan),
        Err(fault) => Err(fault),
    }
}

// The same with the notes of the document.
fn noted_line(
    alloc: Global,
    config: Option<&str>,
    list: &TestList,
    project: &Project,
    document: &Table,
    given: (&Choices, &Call),
) -> Result<NotedLine, PlanFault>
    ensures ok { IfOk result (λ noted.
        AnswersProject (Ok noted.line) (option_copied config.entry) list.now project.now given.entry.0.now
        given.entry.1.now × (noted.notes ≡ notes_in (table_view document.now) project.now)) }
    ensures err { IfErr result (λ e. AnswersProject (Err e) (option_copied config.entry) list.now project.now
        given.entry.0.now given.entry.1.now) }
{
    let notes = notes_of(alloc, document, project.names.as_slice())?;
    match line_by(alloc, config, list, project, given) {
        Ok(line) => Ok(NotedLine { line, notes }),
        Err(fault) => Err(fault),
    }
}

// The line of a list, of what the document says of its project.
fn line_with(
    alloc: Global,
    texts: &Texts<'_>,
    list: &TestList,
    document: &Table,
    choices: &Choices,
    call: &Call,
) -> Result<NotedLine, PlanFault>
    ensures { document_in texts.now ≡ Some (table_view document.now)
        → AnswersFiles result texts.now list.now choices.now call.now }
{
    match project_in(alloc, texts, &choices.ways, document) {
        Ok(project) => noted_line(
            alloc,
            texts.config,
            list,
            &project,
            document,
            (choices, call),
        ),
        Err(fault) => Err(fault),
    }
}

// The same of what the files say.
fn line_in(
    alloc: Global,
    texts: &Texts<'_>,
    list: &TestList,
    choices: &Choices,
    call: &Call,
) -> Result<NotedLine, PlanFault>
    ensures { AnswersFiles result texts.now list.now choices.now call.now }
{
    let document = document_of(alloc, texts.config)?;
    line_with(alloc, texts, list, &document, choices, call)
}

/// The plan line that the files and the words of a call make, which a reader of plan lines reads as that plan: each
/// test of the list stands in it once, in the list's order, with the settings that the profile gives it, and with the
/// reason for which it is skipped, if it is. At least one test runs.
pub fn plan_of(
    alloc: Global,
    texts: &Texts<'_>,
    choices: &Choices,
    call: &Call,
) -> Result<NotedLine, PlanFault>
    ensures { AnswersCall result texts.now choices.now call.now }
{
    match read_list(alloc, texts.list) {
        Ok(list) => line_in(alloc, texts, &list, choices, call),
        Err(refusal) => Err(PlanFault::List(refusal)),
    }
}
