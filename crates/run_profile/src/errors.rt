// Why a table is no profile.
ghost use Rattle.std.specs.Prelude.{◌≡◌, Err, IfOk};
ghost use Rattle.run_profile.specs.Refusals.{Agrees, dotted, item_path};
ghost use Rattle.run_profile.specs.declared.errors.ProfileError.TheVariants.{Refused};

use crate::cfg::PlatformFault;
use crate::time::TimeFault;
use itoa::Buffer;
use run_capture::{Mem, OutOfMemory, Text};
use std::alloc::Global;
use std::fmt;
use std::fmt::{Display, Write};

/// What is wrong at a place of a profile.
#[derive(Clone, Copy, Drop)]
pub enum Fault {
    /// No key of this name may stand here.
    UnknownKey,
    /// A key is missing that must stand here.
    MissingKey,
    NotTable,
    NotList,
    NotText,
    NotTruth,
    /// It is no whole number.
    NotNumber,
    /// A number or a time is greater or less than may stand here.
    OutOfRange,
    /// A text is none of the words that may stand here.
    NotWord,
    /// A text is no time.
    Time(TimeFault),
    /// A text is no platform.
    Platform(PlatformFault),
    /// Nothing has this name: no profile, no group or no script.
    UnknownName,
    /// A text or a list has no words of a command, or a quote in it isn't closed.
    NotCommand,
    /// A text is no version as `1.2.3`.
    NotVersion,
    /// Profiles inherit from each other in a circle.
    Circle,
    /// It has neither a filter nor a platform.
    NoCondition,
    /// It stands beside a filter.
    WithFilter,
    /// A jitter without a delay.
    WithoutDelay,
}

impl Fault {
    fn message(self) -> &'static str {
        match self {
            Fault::UnknownKey => "no such key may stand here",
            Fault::MissingKey => "a key is missing",
            Fault::NotTable => "not a table",
            Fault::NotList => "not a list",
            Fault::NotText => "not a text",
            Fault::NotTruth => "neither true nor false",
            Fault::NotNumber => "not a whole number",
            Fault::OutOfRange => "out of range",
            Fault::NotWord => "not a word that may stand here",
            Fault::UnknownName => "nothing has this name",
            Fault::NotCommand => "not a command: it has no word, or a quote in it isn't closed",
            Fault::NotVersion => "not a version as 1.2.3",
            Fault::Circle => "profiles inherit from each other in a circle",
            Fault::NoCondition => "neither a filter nor a platform",
            Fault::WithFilter => "it may not stand beside a filter",
            Fault::WithoutDelay => "a jitter without a delay",
            Fault::Time(_) => "not a time",
            Fault::Platform(_) => "not a platform",
        }
    }
}

impl Display for Fault {
    fn fmt<W: Write>(&self, f: &mut fmt::Formatter<W>) -> fmt::Result {
        f.write_str(self.message())?;
        match self {
            Fault::Time(fault) => write!(f, ": {fault}"),
            Fault::Platform(fault) => write!(f, ": {fault}"),
            _ => Ok(()),
        }
    }
}

/// Writes what is wrong before a byte of a text.
pub fn write_at<W: Write>(f: &mut fmt::Formatter<W>, wrong: &str, place: usize) -> fmt::Result {
    write!(f, "{wrong} byte {place}")
}

/// Why a table is no profile: what is wrong, and the path of where, as `profile.ci.overrides[2].slow-timeout.period`.
#[derive(Drop)]
pub enum ProfileError {
    Refused { path: Text, fault: Fault },
    OutOfMemory,
}

impl From<OutOfMemory> for ProfileError {
    ghost use Rattle.std.specs.Prelude.{◌≡◌};
    ghost use Rattle.run_profile.specs.declared.errors.ProfileError.TheVariants as errors;

    ghost from_gives = { λ _ e. e ≡ errors.OutOfMemory };

    fn from(_: OutOfMemory) -> Self {
        ProfileError::OutOfMemory
    }
}

/// The path of a key of the table at a path; that of the file is empty.
#[tactic(auto, using(crate::proofs::PathLemmas::dotted_empty, crate::proofs::PathLemmas::dotted_some))]
pub fn dotted(alloc: Global, path: &str, key: &str) -> Mem<Text>
    ensures { IfOk result (λ t. t ≡ dotted path.now key.now) }
{
    if path.is_empty() {
        return Text::from_str(alloc, key);
    }
    let mut text = Text::from_str(alloc, path)?;
    text.push_str(alloc, ".")?;
    text.push_str(alloc, key)?;
    Ok(text)
}

/// The path of an item of the list at a path.
pub fn numbered(alloc: Global, path: &str, number: usize) -> Mem<Text>
    ensures { IfOk result (λ t. t ≡ item_path path.now number) }
{
    let mut digits = Buffer::new();
    let mut text = Text::from_str(alloc, path)?;
    text.push_str(alloc, "[")?;
    text.push_str(alloc, digits.format(number))?;
    text.push_str(alloc, "]")?;
    Ok(text)
}

/// Refuses what stands at a path.
#[cold]
pub fn refused<T>(alloc: Global, path: &str, fault: Fault) -> Result<T, ProfileError>
    ensures { Agrees result (Err (Refused path.now fault)) }
{
    let path = Text::from_str(alloc, path)?;
    Err(ProfileError::Refused { path, fault })
}

/// Refuses what stands at a key of the table at a path.
#[cold]
pub fn refused_at<T>(alloc: Global, path: &str, key: &str, fault: Fault) -> Result<T, ProfileError>
    ensures { Agrees result (Err (Refused (dotted path.now key.now) fault)) }
{
    let path = dotted(alloc, path, key)?;
    Err(ProfileError::Refused { path, fault })
}
