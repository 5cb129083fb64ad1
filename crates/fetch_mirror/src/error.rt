//! Why a server isn't mirrored.

ghost use Rattle.std.specs.Prelude.{◌≡◌, IfOk};

use fetch_conversation::ref_map;
use fetch_serve::ServeError;
use fetch_shared::SharedError;
use fetch_store::NoMemory;
use std::alloc::AllocError;
use thiserror::Error;

/// Why a server isn't mirrored.
#[derive(Debug, Drop, Error)]
pub enum MirrorError {
    /// There are fewer workers than one, or more than eight.
    #[error("a mirror has one to eight workers, not {count}")]
    Workers {
        /// How many were asked for.
        count: u32,
    },
    /// The repository isn't served.
    #[error(transparent)]
    Server(ServeError),
    /// The references weren't listed.
    #[error(transparent)]
    List(ref_map::Error),
    /// A worker was refused.
    #[error("worker {index} was refused: {error}")]
    Worker {
        /// The least one that was.
        index: u32,
        /// Why.
        error: SharedError,
    },
    /// Memory ran out.
    #[error("out of memory")]
    NoMemory,
}

impl MirrorError {
    /// A copy of the error.
    pub fn try_clone(&self) -> Result<MirrorError, NoMemory>
        ensures { IfOk result (λ copy. copy ≡ self.now) }
    {
        match self {
            MirrorError::Workers { count } => Ok(MirrorError::Workers { count: *count }),
            MirrorError::Server(cause) => Ok(MirrorError::Server(cause.try_clone()?)),
            MirrorError::List(cause) => Ok(MirrorError::List(cause.try_clone()?)),
            MirrorError::Worker { index, error } => Ok(MirrorError::Worker {
                index: *index,
                error: error.try_clone()?,
            }),
            MirrorError::NoMemory => Ok(MirrorError::NoMemory),
        }
    }
}

impl From<NoMemory> for MirrorError {
    ghost use Rattle.std.specs.Prelude.{◌≡◌};
    ghost use Rattle.fetch_mirror.specs.declared.error.MirrorError.TheVariants as errors;

    ghost from_gives = { λ _ e. e ≡ errors.NoMemory };

    fn from(_e: NoMemory) -> MirrorError {
        MirrorError::NoMemory
    }
}

impl From<AllocError> for MirrorError {
    ghost use Rattle.std.specs.Prelude.{◌≡◌};
    ghost use Rattle.fetch_mirror.specs.declared.error.MirrorError.TheVariants as errors;

    ghost from_gives = { λ _ e. e ≡ errors.NoMemory };

    fn from(_e: AllocError) -> MirrorError {
        MirrorError::NoMemory
    }
}
