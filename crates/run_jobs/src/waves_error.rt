// Why jobs have no states.
use run_engine::TestRunnerExecuteErrors;
use thiserror::Error;

/// Why jobs have no states. A wave is named by its level.
#[derive(Debug, Drop, PartialEq, Eq, Error)]
pub enum WavesError<E> {
    /// The turns of this wave are answered so. No later wave was run.
    #[error("the turns of wave {wave} end no run")]
    Wave {
        wave: u32,
        error: TestRunnerExecuteErrors<E>,
    },
    /// This wave is due, and there is no list of turns for it.
    #[error("there are no turns for wave {wave}")]
    Missing {
        wave: u32,
    },
    /// All waves that were due ran, and more lists were given.
    #[error("{given} lists of turns were given for {due} waves")]
    Extra {
        given: u64,
        due: u64,
    },
    #[error("out of memory")]
    OutOfMemory,
}
