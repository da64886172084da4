// The versions of the runner that a project asks for.
ghost use Rattle.std.specs.Prelude.{◌≡◌, option_map, IfOk, None};
ghost use Rattle.toml.specs.View.{view};
ghost use Rattle.run_profile.specs.Refusals.{Agrees};
ghost use Rattle.run_profile.specs.Fields.{optional_key};
ghost use Rattle.run_profile.specs.Version.{is_version, version_read, version_text, versions_at, versions_read};
ghost use Rattle.run_profile.specs.Version.{versions_said};

use crate::both::both;
use crate::errors::{Fault, ProfileError, dotted, refused};
use crate::fields::only_keys;
use run_capture::{Mem, OutOfMemory, Text};
use semver::Version;
use std::alloc::{AllocError, Global};
use toml::Value;

/// The versions of the runner that a project asks for, each a version as `1.2.3`.
pub struct VersionsAsked {
    /// The least that may run.
    pub required: Option<Text>,
    /// One that is recommended.
    pub recommended: Option<Text>,
}

// A call of its own, which keeps the proofs of all that hold versions small.
impl Drop for VersionsAsked {
    fn drop(self) {
        let VersionsAsked {
            required: _,
            recommended: _,
        } = self;
    }
}

// Whether a text is a version.
fn is_version(alloc: Global, text: &str) -> Mem<bool>
    ensures { IfOk result (λ b. b ≡ is_version text.now) }
{
    match Version::parse(alloc, text) {
        Ok(_) => Ok(true),
        Err(e) if e == semver::Error::from(AllocError) => Err(OutOfMemory),
        Err(_) => Ok(false),
    }
}

// A text that is a version.
fn version_text(alloc: Global, path: &str, text: &str) -> Result<Text, ProfileError>
    ensures { Agrees result (version_text path.now text.now) }
{
    if is_version(alloc, text)? {
        return Ok(Text::from_str(alloc, text)?);
    }
    refused(alloc, path, Fault::NotVersion)
}

fn version_from(alloc: Global, path: &str, value: &Value) -> Result<Text, ProfileError>
    ensures { Agrees result (version_read path.now (view value.now)) }
{
    match value.as_str() {
        Some(text) => version_text(alloc, path, text),
        None => refused(alloc, path, Fault::NotText),
    }
}

fn version_at(
    alloc: Global,
    path: &str,
    table: &Value,
    key: &str,
) -> Result<Option<Text>, ProfileError>
    ensures { Agrees result (optional_key version_read path.now key.now (view table.now)) }
{
    match table.get(key) {
        Some(value) => {
            let path = dotted(alloc, path, key)?;
            Ok(Some(version_from(alloc, path.as_str(), value)?))
        }
        None => Ok(None),
    }
}

// A table of versions.
fn version_table(alloc: Global, path: &str, table: &Value) -> Result<VersionsAsked, ProfileError>
    ensures { Agrees result (versions_said None path.now (view table.now)) }
{
    only_keys(alloc, path, &["recommended", "required"], table)?;
    let required = version_at(alloc, path, table, "required")?;
    let (required, recommended) = both(required, version_at(alloc, path, table, "recommended"))?;
    Ok(VersionsAsked {
        required,
        recommended,
    })
}

fn versions_from(alloc: Global, path: &str, value: &Value) -> Result<VersionsAsked, ProfileError>
    ensures { Agrees result (versions_read path.now (view value.now)) }
{
    match value.as_str() {
        Some(text) => Ok(VersionsAsked {
            required: Some(version_text(alloc, path, text)?),
            recommended: None,
        }),
        None => version_table(alloc, path, value),
    }
}

/// The versions that a value asks for: a text for the least, or a table. None where there is no value.
pub fn versions_at(
    alloc: Global,
    path: &str,
    value: Option<&Value>,
) -> Result<VersionsAsked, ProfileError>
    ensures { Agrees result (versions_at path.now (option_map (λ v. view v.now) value.entry)) }
{
    match value {
        Some(value) => versions_from(alloc, path, value),
        None => Ok(VersionsAsked {
            required: None,
            recommended: None,
        }),
    }
}
