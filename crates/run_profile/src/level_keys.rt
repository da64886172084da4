// The keys that the table of a profile may have.
ghost use Rattle.std.specs.Prelude.{◌≡◌, true, false};
ghost use Rattle.toml.specs.View.{view};
ghost use Rattle.run_profile.specs.Refusals.{Agrees};
ghost use Rattle.run_profile.specs.Fields.{only_keys};
ghost use Rattle.run_profile.specs.Levels.{is_default, keys_for, profile_keys};

use crate::errors::ProfileError;
use crate::fields::only_keys;
use std::alloc::Global;
use toml::Value;

/// Whether it is the name of the profile that all others inherit.
pub fn is_default(name: &str) -> bool
    ensures { result ≡ is_default name.now }
{
    name == "default"
}

#[tactic(auto, unfolding(crate::specs::Levels::default_keys))]
fn only_default_keys(alloc: Global, path: &str, table: &Value) -> Result<(), ProfileError>
    ensures { Agrees result (only_keys (keys_for true) path.now (view table.now)) }
{
    let names = [
        "archive",
        "bench",
        "default-filter",
        "fail-fast",
        "failure-output",
        "final-status-level",
        "flaky-result",
        "global-timeout",
        "junit",
        "leak-timeout",
        "overrides",
        "retries",
        "run-extra-args",
        "scripts",
        "slow-timeout",
        "status-level",
        "success-output",
        "test-threads",
        "threads-required",
    ];
    only_keys(alloc, path, &names, table)
}

#[tactic(auto, unfolding(crate::specs::Levels::default_keys))]
fn only_further_keys(alloc: Global, path: &str, table: &Value) -> Result<(), ProfileError>
    ensures { Agrees result (only_keys (keys_for false) path.now (view table.now)) }
{
    let names = [
        "inherits",
        "archive",
        "bench",
        "default-filter",
        "fail-fast",
        "failure-output",
        "final-status-level",
        "flaky-result",
        "global-timeout",
        "junit",
        "leak-timeout",
        "overrides",
        "retries",
        "run-extra-args",
        "scripts",
        "slow-timeout",
        "status-level",
        "success-output",
        "test-threads",
        "threads-required",
    ];
    only_keys(alloc, path, &names, table)
}

fn only_keys_for(
    alloc: Global,
    default: bool,
    path: &str,
    table: &Value,
) -> Result<(), ProfileError>
    ensures { Agrees result (only_keys (keys_for default) path.now (view table.now)) }
{
    if default {
        only_default_keys(alloc, path, table)
    } else {
        only_further_keys(alloc, path, table)
    }
}

/// Refuses the first key of the table of a profile of this name that may not stand there.
pub fn only_profile_keys(
    alloc: Global,
    name: &str,
    path: &str,
    table: &Value,
) -> Result<(), ProfileError>
    ensures { Agrees result (only_keys (profile_keys name.now) path.now (view table.now)) }
{
    only_keys_for(alloc, is_default(name), path, table)
}
