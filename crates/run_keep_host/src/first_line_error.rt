// Why there is no first line.
use run_capture::OutOfMemory;
use std::alloc::AllocError;

/// Why there is no first line.
#[derive(Clone, Copy, Drop)]
pub enum FirstLineError {
    /// The input could not be read.
    Read,
    /// It has more than `LINE_LIMIT` bytes.
    TooLong,
    /// Memory was refused.
    OutOfMemory,
}

impl From<OutOfMemory> for FirstLineError {
    ghost use Rattle.std.specs.Prelude.{◌≡◌};
    ghost use Rattle.run_keep_host.specs.declared.first_line_error.FirstLineError.TheVariants as errors;

    ghost from_gives = { λ _ e. e ≡ errors.OutOfMemory };

    fn from(_: OutOfMemory) -> Self {
        FirstLineError::OutOfMemory
    }
}

impl From<AllocError> for FirstLineError {
    ghost use Rattle.std.specs.Prelude.{◌≡◌};
    ghost use Rattle.run_keep_host.specs.declared.first_line_error.FirstLineError.TheVariants as errors;

    ghost from_gives = { λ _ e. e ≡ errors.OutOfMemory };

    fn from(_: AllocError) -> Self {
        FirstLineError::OutOfMemory
    }
}
