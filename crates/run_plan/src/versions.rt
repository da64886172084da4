// The version of the runner that a project asks for.
ghost use Rattle.std.specs.Prelude.{◌≡◌, ◌≢◌, IfOk, false};
ghost use Rattle.semver.specs.Parse.{memory_error};
ghost use Rattle.run_plan.specs.Versions.{is_version_above, is_newer, needs_newer};

use run_capture::{Mem, OutOfMemory};
use run_profile::VersionsAsked;
use semver::{Error, Version};
use std::alloc::{AllocError, Global};

// Whether a version is above 0.9.129.
fn is_version_above(major: u64, minor: u64, patch: u64) -> bool
    ensures { result ≡ is_version_above major minor patch }
{
    0 < major || (9 < minor || (minor == 9 && 129 < patch))
}

// A text that is no version is above none.
fn is_none_above(error: Error) -> Mem<bool>
    ensures { IfOk result (λ above. (above ≡ false) × (error ≢ memory_error)) }
{
    if error == Error::from(AllocError) {
        Err(OutOfMemory)
    } else {
        Ok(false)
    }
}

fn is_newer(alloc: Global, text: &str) -> Mem<bool>
    ensures { IfOk result (λ newer. newer ≡ is_newer text.now) }
{
    match Version::parse(alloc, text) {
        Ok(version) => Ok(is_version_above(version.major, version.minor, version.patch)),
        Err(error) => is_none_above(error),
    }
}

/// Whether the least version that a project asks for is above 0.9.129.
pub(crate) fn needs_newer(alloc: Global, versions: &VersionsAsked) -> Mem<bool>
    ensures { IfOk result (λ newer. newer ≡ needs_newer versions.now) }
{
    match &versions.required {
        Some(text) => is_newer(alloc, text.as_str()),
        None => Ok(false),
    }
}
