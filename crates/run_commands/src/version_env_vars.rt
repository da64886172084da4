// The variables that tell a child the versions.
ghost use Rattle.std.specs.Prelude.{◌≡◌, ◌++◌, [], ◌∷◌, IfOk};
ghost use Rattle.std.specs.Option.{option_map, option_copied};
ghost use Rattle.semver.specs.Identifiers.{parts_of};
ghost use Rattle.run_commands.specs.VersionEnvVars.{version_pairs, version_or_none};

use run_capture::{Duplicate, List, Mem, Text};
use semver::Version;
use std::alloc::Global;
use std::marker::Model;

/// The version that runs, and those that the project asks for. Contracts see the parts of each.
#[derive(Debug, Drop)]
pub struct VersionEnvVars {
    /// The version that runs.
    pub current_version: Version,
    /// The least version that may run, where the project names one.
    pub required_version: Option<Version>,
    /// The version that the project recommends, where it names one.
    pub recommended_version: Option<Version>,
}

impl Model for VersionEnvVars {
    ghost use Rattle.std.specs.Prelude.{option_map};
    ghost use Rattle.semver.specs.Identifiers.{parts_of};
    ghost use Rattle.run_commands.specs.Versions.{Versions};

    ghost Value = { Versions };

    ghost view = { λ v. record {
      current = parts_of v.current_version;
      required = option_map parts_of v.required_version;
      recommended = option_map parts_of v.recommended_version;
    } };
}

impl VersionEnvVars {
    /// The variables with their values; an absent version is `none`.
    pub fn pairs(&self, alloc: Global) -> Mem<List<(Text, Text)>>
        ensures { IfOk result (λ pairs. pairs ≡ version_pairs self.now) }
    {
        let current = Some(&self.current_version);
        let pairs = with_pair(alloc, List::new(), "NEXTEST_VERSION", current)?;
        let required = self.required_version.as_ref();
        let pairs = with_pair(alloc, pairs, "NEXTEST_REQUIRED_VERSION", required)?;
        let recommended = self.recommended_version.as_ref();
        with_pair(alloc, pairs, "NEXTEST_RECOMMENDED_VERSION", recommended)
    }
}

// A version's text, or `none`.
fn version_text(alloc: Global, version: Option<&Version>) -> Mem<Text>
    ensures { IfOk result (λ text. text ≡ version_or_none (option_map parts_of (option_copied version.entry))) }
{
    match version {
        Some(version) => Ok(Text::from_string(format!(in alloc; "{version}")?)),
        None => Text::from_str(alloc, "none"),
    }
}

// One variable: its name, and a version's text or `none`.
fn pair(alloc: Global, name: &str, version: Option<&Version>) -> Mem<(Text, Text)>
    ensures { IfOk result (λ p. p ≡
        (name.now, version_or_none (option_map parts_of (option_copied version.entry)))) }
{
    let name = Text::from_str(alloc, name)?;
    let value = version_text(alloc, version)?;
    Ok((name, value))
}

// One variable more.
fn with_pair(
    alloc: Global,
    mut pairs: List<(Text, Text)>,
    name: &str,
    version: Option<&Version>,
) -> Mem<List<(Text, Text)>>
    ensures { IfOk result (λ new. new ≡
        pairs ++ (name.now, version_or_none (option_map parts_of (option_copied version.entry))) ∷ []) }
{
    let pair = pair(alloc, name, version)?;
    pairs.push(alloc, pair)?;
    Ok(pairs)
}

// A copy of a version, where there is one.
fn copy_version(version: Option<&Version>) -> Mem<Option<Version>>
    ensures { IfOk result (λ copied. option_map parts_of copied
        ≡ option_map parts_of (option_copied version.entry)) }
{
    match version {
        Some(version) => Ok(Some(version.clone()?)),
        None => Ok(None),
    }
}

// Copies of two versions, where they are there.
fn copy_versions(
    first: Option<&Version>,
    second: Option<&Version>,
) -> Mem<(Option<Version>, Option<Version>)>
    ensures first { IfOk result (λ copied. option_map parts_of copied.0
        ≡ option_map parts_of (option_copied first.entry)) }
    ensures second { IfOk result (λ copied. option_map parts_of copied.1
        ≡ option_map parts_of (option_copied second.entry)) }
{
    let first = copy_version(first)?;
    let second = copy_version(second)?;
    Ok((first, second))
}

impl Duplicate for VersionEnvVars {
    fn copy(&self, _alloc: Global) -> Mem<VersionEnvVars> {
        let current_version = self.current_version.clone()?;
        let (required_version, recommended_version) = copy_versions(
            self.required_version.as_ref(),
            self.recommended_version.as_ref(),
        )?;
        Ok(VersionEnvVars {
            current_version,
            required_version,
            recommended_version,
        })
    }
}
