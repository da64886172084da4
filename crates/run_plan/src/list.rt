// A list of tests.
ghost use Rattle.std.specs.Prelude.{◌≡◌, codes, option_and_then};
ghost use Rattle.serde_json.specs.Find.{as_str, get};
ghost use Rattle.serde_json.specs.View.{view};
ghost use Rattle.run_input.specs.ReadsValue.{ReadsValue};
ghost use Rattle.run_input.specs.ValueOf.{json_value};
ghost use Rattle.run_plan.specs.TestList.{binaries_of, list_of, target_of};

use crate::suites::binaries_from;
use crate::test_list::{TestBinary, TestList};
use run_capture::{List, Text};
use run_input::{Refusal, missing, optional_text_at, read_value, text_at, under};
use serde_json::Value;
use std::alloc::Global;

// The folder that cargo builds in.
fn target_at(alloc: Global, list: &Value) -> Result<Text, Refusal>
    ensures { ReadsValue result (option_and_then target_of (get (codes "rust-build-meta") (view list.now))) }
{
    match list.get("rust-build-meta") {
        Some(meta) => under(
            alloc,
            "rust-build-meta",
            text_at(alloc, meta, "target-directory"),
        ),
        None => missing(alloc, "rust-build-meta"),
    }
}

fn binaries_at(alloc: Global, list: &Value) -> Result<List<TestBinary>, Refusal>
    ensures { ReadsValue result (option_and_then binaries_of (get (codes "rust-suites") (view list.now))) }
{
    match list.get("rust-suites") {
        Some(suites) => under(alloc, "rust-suites", binaries_from(alloc, suites)),
        None => missing(alloc, "rust-suites"),
    }
}

#[tactic(auto, unfolding(crate::specs::TestList::list_of))]
fn list_from(alloc: Global, value: &Value) -> Result<TestList, Refusal>
    ensures { ReadsValue result (list_of (view value.now)) }
{
    let target = target_at(alloc, value)?;
    let root = optional_text_at(alloc, value, "workspace-root")?;
    let binaries = binaries_at(alloc, value)?;
    Ok(TestList {
        target,
        root,
        binaries,
    })
}

/// Reads a list of tests, as `cargo nextest list --message-format json` writes it; keys that it has beside those that
/// are wanted are passed over. A binary may say by `command` which words run it; else it is run by `env` in its folder.
pub fn read_list(alloc: Global, json: &[u8]) -> Result<TestList, Refusal>
    ensures { ReadsValue result (option_and_then list_of (json_value json.now)) }
{
    let value = read_value(alloc, json)?;
    list_from(alloc, &value)
}
