// Why a command has no words.
use run_capture::OutOfMemory;

/// Why a command has no words.
#[derive(Clone, Copy, Drop)]
pub enum WordsError {
    /// The quote at this byte isn't closed.
    OpenQuote {
        /// The quote's place in the command, in bytes from 0.
        place: usize,
    },
    /// There is none.
    NoWords,
    /// Memory was refused.
    OutOfMemory,
}

impl From<OutOfMemory> for WordsError {
    ghost use Rattle.std.specs.Prelude.{◌≡◌};
    ghost use Rattle.run_commands.specs.declared.words.words_error.WordsError.TheVariants as errors;

    ghost from_gives = { λ _ e. e ≡ errors.OutOfMemory };

    fn from(_: OutOfMemory) -> Self {
        WordsError::OutOfMemory
    }
}
