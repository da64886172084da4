// What a run is to its children, by the keys of a plan line, and the runners of its tests.
ghost use Rattle.std.specs.Prelude.{◌≡◌, codes, option_map, option_and_then};
ghost use Rattle.std.specs.Result.{result_map_both};
ghost use Rattle.serde_json.specs.Find.{get};
ghost use Rattle.serde_json.specs.View.{view};
ghost use Rattle.semver.specs.Identifiers.{parts_of};
ghost use Rattle.uuid.specs.Text.{parsed};
ghost use Rattle.run_events.specs.declared.retry_policy.RunMode.TheVariants as modes;
ghost use Rattle.run_commands.specs.TargetRunner.{no_runners};
ghost use Rattle.run_events.specs.Usual.{usual_versions};
ghost use Rattle.run_input.specs.Fields.{or_usual, optional};
ghost use Rattle.run_input.specs.PlanHead.{uuid_of, run_id_of, mode_from, moment_named, moment_of, run_of, words_of};
ghost use Rattle.run_input.specs.PlanHead.{version_named, version_of, versions_of, head_from, frame_of};
ghost use Rattle.run_input.specs.ReadsValue.{ReadsValue};

use crate::both::both;
use crate::fields::{text_or, texts_or_none};
use crate::misfit::Wrong;
use crate::plan_runners::runners_at;
use crate::refusal::{Refusal, missing, or_not};
use jiff_core::Timestamp;
use run_capture::{List, Text};
use run_commands::{TargetRunner, VersionEnvVars};
use run_events::{RunHead, RunMode};
use semver::Version;
use serde_json::Value;
use std::alloc::{AllocError, Global};
use uuid::Uuid;

const MOMENT: &str = "a moment as 2026-11-27T22:00:00Z";

const VERSION: &str = "a version as 1.2.3";

/// What a run is to its children, and the runners of its tests.
pub fn frame_from(alloc: Global, value: &Value) -> Result<(RunHead, TargetRunner), Refusal>
    ensures { ReadsValue result (frame_of (view value.now)) }
{
    let head = head_from(alloc, value)?;
    both(head, runners_at(alloc, value))
}

fn head_from(alloc: Global, value: &Value) -> Result<RunHead, Refusal>
    ensures { ReadsValue result (head_from (view value.now)) }
{
    let run = run_from(alloc, value)?;
    let words = words_from(alloc, value)?;
    let versions = versions_from(alloc, value)?;
    Ok(RunHead {
        run_id: run.0,
        started_at: run.1,
        profile: words.0,
        workspace_root: words.1,
        args: words.2,
        mode: run.2,
        versions,
    })
}

// Which run it is, when its clock is 0, and what it is of.
fn run_from(alloc: Global, value: &Value) -> Result<(Uuid, Option<Timestamp>, RunMode), Refusal>
    ensures { ReadsValue result (run_of (view value.now)) }
{
    let run_id = run_id_at(alloc, value)?;
    let started_at = optional_moment_at(alloc, value)?;
    let mode = mode_at(alloc, value)?;
    Ok((run_id, started_at, mode))
}

// Its profile, its folder, and the words with which the runner was called.
fn words_from(alloc: Global, value: &Value) -> Result<(Text, Text, List<Text>), Refusal>
    ensures { ReadsValue result (words_of (view value.now)) }
{
    let profile = text_or(alloc, "default", value, "profile")?;
    let root = text_or(alloc, "/", value, "workspace_root")?;
    let args = texts_or_none(alloc, value, "args")?;
    Ok((profile, root, args))
}

// The UUID that a text writes in any form that `Uuid` reads.
fn parse_uuid(text: &str) -> Option<Uuid>
    ensures { result ≡ parsed text.now }
{
    match Uuid::parse_str(text) {
        Ok(run_id) => Some(run_id),
        Err(_) => None,
    }
}

// The UUID that a text writes. `Uuid` reads the prefix of the urn form in either case, and a plan line in lower case
// alone.
fn parse_run_id(text: &str) -> Option<Uuid>
    ensures { result ≡ uuid_of text.now }
{
    if text.len() == 45 && !text.as_bytes().starts_with("urn:uuid:".as_bytes()) {
        None
    } else {
        parse_uuid(text)
    }
}

fn run_id_from(value: &Value) -> Option<Uuid>
    ensures { result ≡ run_id_of (view value.now) }
{
    parse_run_id(value.as_str()?)
}

fn run_id_at(alloc: Global, plan: &Value) -> Result<Uuid, Refusal>
    ensures { ReadsValue result (option_and_then run_id_of (get (codes "run_id") (view plan.now))) }
{
    match plan.get("run_id") {
        Some(value) => or_not(alloc, run_id_from(value), "run_id", "a UUID"),
        None => missing(alloc, "run_id"),
    }
}

// A moment as plans have it: what stands on a plan need not know all of jiff.
fn plain(moment: jiff::Timestamp) -> Option<Timestamp>
    ensures { result ≡ Some moment }
{
    match Timestamp::from_nanosecond(moment.as_nanosecond()) {
        Ok(plain) => Some(plain),
        Err(_) => None,
    }
}

// The moment that a text writes in the Temporal format.
fn parse_moment(text: &str) -> Option<Timestamp>
    ensures { result ≡ moment_named text.now }
{
    match text.parse::<jiff::Timestamp>() {
        Ok(moment) => plain(moment),
        Err(_) => None,
    }
}

fn moment_from(value: &Value) -> Option<Timestamp>
    ensures { result ≡ moment_of (view value.now) }
{
    parse_moment(value.as_str()?)
}

// A moment that may be missing.
fn optional_moment_at(alloc: Global, plan: &Value) -> Result<Option<Timestamp>, Refusal>
    ensures { ReadsValue result (optional moment_of (get (codes "started_at") (view plan.now))) }
{
    match plan.get("started_at") {
        Some(value) => Ok(Some(or_not(alloc, moment_from(value), "started_at", MOMENT)?)),
        None => Ok(None),
    }
}

// What a run is of, and tests where nothing is said.
fn mode_at(alloc: Global, plan: &Value) -> Result<RunMode, Refusal>
    ensures { ReadsValue result (or_usual modes.Test mode_from (get (codes "mode") (view plan.now))) }
{
    match plan.get("mode") {
        Some(value) => or_not(alloc, mode_from(value), "mode", "test or benchmark"),
        None => Ok(RunMode::Test),
    }
}

fn mode_from(value: &Value) -> Option<RunMode>
    ensures { result ≡ mode_from (view value.now) }
{
    match value.as_str()? {
        "test" => Some(RunMode::Test),
        "benchmark" => Some(RunMode::Benchmark),
        _ => None,
    }
}

// The versions that a child is told.
fn versions_from(alloc: Global, value: &Value) -> Result<VersionEnvVars, Refusal>
    ensures { ReadsValue result (versions_of (view value.now)) }
{
    let current_version = current_version_at(alloc, value)?;
    let required = optional_version_at(alloc, value, "required_version");
    let (current_version, required_version) = both(current_version, required)?;
    let recommended = optional_version_at(alloc, value, "recommended_version");
    let ((current_version, required_version), recommended_version) = both(
        (current_version, required_version),
        recommended,
    )?;
    Ok(VersionEnvVars {
        current_version,
        required_version,
        recommended_version,
    })
}

// The version that a text at a key writes.
fn parse_version(alloc: Global, text: &str, key: &str) -> Result<Version, Refusal>
    ensures { ReadsValue (result_map_both parts_of (λ e. e) result) (version_named text.now) }
{
    match Version::parse(alloc, text) {
        Ok(version) => Ok(version),
        Err(e) if e == semver::Error::from(AllocError) => Err(Refusal::from(AllocError)),
        Err(_) => Err(Refusal::at(alloc, key, Wrong::Not(VERSION))),
    }
}

fn version_from(alloc: Global, value: &Value, key: &str) -> Result<Version, Refusal>
    ensures { ReadsValue (result_map_both parts_of (λ e. e) result) (version_of (view value.now)) }
{
    match value.as_str() {
        Some(text) => parse_version(alloc, text, key),
        None => Err(Refusal::at(alloc, key, Wrong::Not(VERSION))),
    }
}

// A version, and 0.0.0 where it is missing.
fn current_version_at(alloc: Global, plan: &Value) -> Result<Version, Refusal>
    ensures { ReadsValue (result_map_both parts_of (λ e. e) result)
        (or_usual usual_versions.current version_of (get (codes "nextest_version") (view plan.now))) }
{
    match plan.get("nextest_version") {
        Some(value) => version_from(alloc, value, "nextest_version"),
        None => Ok(Version::new(0, 0, 0)),
    }
}

// A version that may be missing.
fn optional_version_at(alloc: Global, plan: &Value, key: &str) -> Result<Option<Version>, Refusal>
    ensures { ReadsValue (result_map_both (λ v. option_map parts_of v) (λ e. e) result)
        (optional version_of (get key.now (view plan.now))) }
{
    match plan.get(key) {
        Some(value) => Ok(Some(version_from(alloc, value, key)?)),
        None => Ok(None),
    }
}
