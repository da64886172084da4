// The answer of a reader that has no value.
ghost use Rattle.std.specs.Prelude.{◌≡◌, Err};
ghost use Rattle.run_input.specs.declared.errors.LineError.TheVariants as errors;
ghost use Rattle.run_input.specs.ReadsValue.{ReadsValue};

use crate::LineError;
use crate::misfit::{Misfit, Wrong};
use run_capture::{Mem, OutOfMemory};
use std::alloc::{AllocError, AllocFailed, Global};
use std::marker::Model;

/// Why there is no value: it is not in its table, with what is wrong and where, or memory was refused.
///
/// Clauses see it as a `LineError`. What is wrong is made where it is found, and only then.
#[derive(Drop)]
pub struct Refusal {
    // None where memory was refused.
    misfit: Option<Misfit>,
}

impl Model for Refusal {
    ghost use Rattle.run_input.specs.declared.errors.LineError.{LineError};
    ghost use Rattle.run_input.specs.Misfits.{error_of};

    ghost Value = { LineError };

    ghost view = { λ r. error_of r.misfit };
}

impl From<OutOfMemory> for Refusal {
    ghost use Rattle.std.specs.Prelude.{◌≡◌};
    ghost use Rattle.run_input.specs.declared.errors.LineError.TheVariants as errors;

    ghost from_gives = { λ _ e. e ≡ errors.OutOfMemory };

    fn from(_: OutOfMemory) -> Self {
        Refusal { misfit: None }
    }
}

impl From<AllocError> for Refusal {
    ghost use Rattle.std.specs.Prelude.{◌≡◌};
    ghost use Rattle.run_input.specs.declared.errors.LineError.TheVariants as errors;

    ghost from_gives = { λ _ e. e ≡ errors.OutOfMemory };

    fn from(_: AllocError) -> Self {
        Refusal { misfit: None }
    }
}

impl<T: Drop> From<AllocFailed<T>> for Refusal {
    ghost use Rattle.std.specs.Prelude.{◌≡◌};
    ghost use Rattle.run_input.specs.declared.errors.LineError.TheVariants as errors;

    ghost from_gives = { λ _ e. e ≡ errors.OutOfMemory };

    fn from(_: AllocFailed<T>) -> Self {
        Refusal { misfit: None }
    }
}

impl Refusal {
    ghost use Rattle.std.specs.Prelude.{◌≡◌, IfOk, IsSome};
    ghost use Rattle.run_input.specs.declared.errors.LineError.TheVariants as errors;

    /// Of what is wrong with the line, or the value, itself.
    #[cold]
    pub fn of(alloc: Global, wrong: Wrong) -> Refusal
        ensures { result ≡ errors.NotInTable }
    {
        let place = Some(String::new(alloc));
        Refusal {
            misfit: Some(Misfit { place, wrong }),
        }
    }

    /// Of what is wrong at a key of the value.
    #[cold]
    pub fn at(alloc: Global, key: &str, wrong: Wrong) -> Refusal
        ensures { result ≡ errors.NotInTable }
    {
        let place = String::from_str(alloc, key).ok();
        Refusal {
            misfit: Some(Misfit { place, wrong }),
        }
    }

    /// The same, of a value that stands at a key of another one.
    #[cold]
    pub fn under(self, alloc: Global, key: &str) -> Refusal
        ensures { result ≡ self }
    {
        let mut refusal = self;
        if let Some(misfit) = &mut refusal.misfit {
            misfit.put_under(String::from_str(alloc, key).ok());
        }
        refusal
    }

    /// The same, of an item of the list that stands at a key of another value.
    #[cold]
    pub fn in_item(self, alloc: Global, key: &str, number: usize) -> Refusal
        ensures { result ≡ self }
    {
        let mut refusal = self;
        if let Some(misfit) = &mut refusal.misfit {
            misfit.put_under(format!(in alloc; "{key}[{number}]").ok());
        }
        refusal
    }

    /// The same, with something else to say of this key where it is unknown.
    #[cold]
    pub fn knowing(self, key: &str, wrong: Wrong) -> Refusal
        ensures { result ≡ self }
    {
        let mut refusal = self;
        if let Some(misfit) = &mut refusal.misfit {
            misfit.know(key, wrong);
        }
        refusal
    }

    /// Without what is wrong.
    pub fn error(&self) -> LineError
        ensures { result ≡ self.now }
    {
        match &self.misfit {
            Some(_) => LineError::NotInTable,
            None => LineError::OutOfMemory,
        }
    }

    /// What is wrong, and where.
    pub fn into_misfit(self) -> Mem<Option<Misfit>>
        ensures ok { IfOk result (λ misfit. IsSome misfit × (self ≡ errors.NotInTable)) }
    {
        match self.misfit {
            Some(misfit) => Ok(Some(misfit)),
            None => Err(OutOfMemory),
        }
    }
}

/// The value at a key that was read, or that it is not what was wanted.
pub fn or_not<T>(
    alloc: Global,
    read: Option<T>,
    key: &str,
    wanted: &'static str,
) -> Result<T, Refusal>
    ensures { ReadsValue result read }
{
    match read {
        Some(value) => Ok(value),
        None => Err(Refusal::at(alloc, key, Wrong::Not(wanted))),
    }
}

/// That a key is missing.
pub fn missing<T>(alloc: Global, key: &str) -> Result<T, Refusal>
    ensures { result ≡ Err errors.NotInTable }
{
    Err(Refusal::at(alloc, key, Wrong::MissingKey))
}

/// What was read of the value that stands at a key.
pub fn under<T>(alloc: Global, key: &str, read: Result<T, Refusal>) -> Result<T, Refusal>
    ensures { result ≡ read }
{
    match read {
        Ok(value) => Ok(value),
        Err(refusal) => Err(refusal.under(alloc, key)),
    }
}

/// What was read of an item of the list that stands at a key.
pub fn in_item<T>(
    alloc: Global,
    key: &str,
    number: usize,
    read: Result<T, Refusal>,
) -> Result<T, Refusal>
    ensures { result ≡ read }
{
    match read {
        Ok(value) => Ok(value),
        Err(refusal) => Err(refusal.in_item(alloc, key, number)),
    }
}
