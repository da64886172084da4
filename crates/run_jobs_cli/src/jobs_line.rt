// The first line of an input of jobs.
ghost use Rattle.std.specs.Prelude.{◌≡◌, ◌<◌, ◌^◌, [], codes, length, option_and_then, IfOk};
ghost use Rattle.std.specs.Result.{result_map_both};
ghost use Rattle.serde_json.specs.Find.{get};
ghost use Rattle.serde_json.specs.View.{items_view, view};
ghost use Rattle.run_input.specs.Fields.{numbers_from, numbers_of, or_usual, u32_of};
ghost use Rattle.run_input.specs.PlanHead.{run_id_of, uuid_of};
ghost use Rattle.run_input.specs.ReadsValue.{ReadsValue};
ghost use Rattle.uuid.specs.Text.{parsed};
ghost use Rattle.run_jobs_cli.specs.JobsLine.{batch_from, job_of, jobs_from, jobs_line_of, jobs_listed, jobs_of};
ghost use Rattle.run_jobs_cli.specs.Lines.{batch_said};

use run_capture::List;
use run_input::{
    LineError, Refusal, Wrong, in_item, missing, only_keys, or_not, read_value, text_at, texts_at,
    u32_or,
};
use run_jobs::Job;
use serde_json::Value;
use std::alloc::Global;
use uuid::Uuid;

const NUMBERS: &str = "a list of whole numbers from 0 to 4294967295";

const OBJECTS: &str = "a list of objects";

const MOST: usize = 4_294_967_295;

const FEW: &str = "a list of fewer than 4294967296 jobs";

/// What the first line says.
#[derive(Drop)]
pub struct JobsLine {
    pub run_id: Uuid,
    pub threads: u32,
    pub jobs: List<Job>,
}

// The number that a value is.
fn number_from(value: &Value) -> Option<u32>
    ensures { result ≡ u32_of (view value.now) }
{
    u32::try_from(value.as_u64()?).ok()
}

// The numbers of a list.
fn numbers_in(alloc: Global, items: &[Value], key: &str) -> Result<List<u32>, Refusal>
    ensures { ReadsValue result (numbers_from (items_view items.now)) }
{
    let mut numbers = List::with_capacity(alloc, items.len())?;
    for item in items {
        let number = or_not(alloc, number_from(item), key, NUMBERS)?;
        numbers.push(alloc, number)?;
    }
    Ok(numbers)
}

// A list of numbers, and none where it is missing.
fn numbers_or_none(alloc: Global, object: &Value, key: &str) -> Result<List<u32>, Refusal>
    ensures { ReadsValue result (or_usual [] numbers_of (get key.now (view object.now))) }
{
    match object.get(key) {
        Some(list) => match list.as_array() {
            Some(items) => numbers_in(alloc, items.as_slice(), key),
            None => Err(Refusal::at(alloc, key, Wrong::Not(NUMBERS))),
        },
        None => Ok(List::new()),
    }
}

// The UUID that a text writes in any form that `Uuid` reads.
fn parse_uuid(text: &str) -> Option<Uuid>
    ensures { result ≡ parsed text.now }
{
    match Uuid::parse_str(text) {
        Ok(run_id) => Some(run_id),
        Err(_) => None,
    }
}

// The UUID that a text writes. `Uuid` reads the prefix of the urn form in either case, and a line in lower case alone.
fn parse_run_id(text: &str) -> Option<Uuid>
    ensures { result ≡ uuid_of text.now }
{
    if text.len() == 45 && !text.as_bytes().starts_with("urn:uuid:".as_bytes()) {
        None
    } else {
        parse_uuid(text)
    }
}

fn run_id_from(value: &Value) -> Option<Uuid>
    ensures { result ≡ run_id_of (view value.now) }
{
    parse_run_id(value.as_str()?)
}

fn run_id_at(alloc: Global, object: &Value) -> Result<Uuid, Refusal>
    ensures { ReadsValue result (option_and_then run_id_of (get (codes "run_id") (view object.now))) }
{
    match object.get("run_id") {
        Some(value) => or_not(alloc, run_id_from(value), "run_id", "a UUID"),
        None => missing(alloc, "run_id"),
    }
}

// A job, by its keys.
#[tactic(auto, unfolding(crate::specs::JobsLine::job_of))]
fn job_from(alloc: Global, value: &Value) -> Result<Job, Refusal>
    ensures { ReadsValue result (job_of (view value.now)) }
{
    only_keys(alloc, value, &["after", "command", "name"], "an object")?;
    let name = text_at(alloc, value, "name")?;
    let command = texts_at(alloc, value, "command")?;
    let after = numbers_or_none(alloc, value, "after")?;
    Ok(Job {
        name,
        command,
        after,
    })
}

// The jobs of a list.
fn jobs_in(alloc: Global, items: &[Value]) -> Result<List<Job>, Refusal>
    ensures { ReadsValue result (jobs_from (items_view items.now)) }
{
    let mut jobs = List::new();
    for item in items {
        let number = jobs.len();
        let job = in_item(alloc, "jobs", number, job_from(alloc, item))?;
        jobs.push(alloc, job)?;
    }
    Ok(jobs)
}

// The list of jobs that stands at its key.
fn jobs_there(alloc: Global, object: &Value) -> Result<List<Job>, Refusal>
    ensures { ReadsValue result (option_and_then jobs_of (get (codes "jobs") (view object.now))) }
{
    match object.get("jobs") {
        Some(list) => match list.as_array() {
            Some(items) => jobs_in(alloc, items.as_slice()),
            None => Err(Refusal::at(alloc, "jobs", Wrong::Not(OBJECTS))),
        },
        None => missing(alloc, "jobs"),
    }
}

// The jobs of a line, which are fewer than 2^32.
fn jobs_at(alloc: Global, object: &Value) -> Result<List<Job>, Refusal>
    ensures says { ReadsValue result (jobs_listed (get (codes "jobs") (view object.now))) }
    ensures few { IfOk result (λ jobs. length jobs < 2 ^ 32) }
{
    let jobs = jobs_there(alloc, object)?;
    if jobs.len() > MOST {
        Err(Refusal::at(alloc, "jobs", Wrong::Not(FEW)))
    } else {
        Ok(jobs)
    }
}

// The jobs that a value says.
#[tactic(auto, unfolding(crate::specs::JobsLine::batch_from))]
fn line_from(alloc: Global, value: &Value) -> Result<JobsLine, Refusal>
    ensures says { ReadsValue (result_map_both batch_said (λ e. e) result) (batch_from (view value.now)) }
    ensures few { IfOk result (λ line. length line.jobs < 2 ^ 32) }
{
    only_keys(alloc, value, &["jobs", "run_id", "threads"], "an object")?;
    let run_id = run_id_at(alloc, value)?;
    let threads = u32_or(alloc, 1, value, "threads")?;
    let jobs = jobs_at(alloc, value)?;
    Ok(JobsLine {
        run_id,
        threads,
        jobs,
    })
}

/// Reads the first line of an input of jobs. It is refused exactly where it is none, or for want of memory.
pub fn read_jobs_line(alloc: Global, line: &[u8]) -> Result<JobsLine, LineError>
    ensures says { ReadsValue (result_map_both batch_said (λ e. e) result) (jobs_line_of line.now) }
    ensures few { IfOk result (λ said. length said.jobs < 2 ^ 32) }
{
    match read_value(alloc, line) {
        Ok(value) => match line_from(alloc, &value) {
            Ok(said) => Ok(said),
            Err(refusal) => Err(refusal.error()),
        },
        Err(refusal) => Err(refusal.error()),
    }
}
