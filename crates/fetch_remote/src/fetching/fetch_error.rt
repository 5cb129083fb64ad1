//! Why a fetch was refused.

ghost use Rattle.std.specs.Prelude.{◌≡◌, IfOk};
ghost use Rattle.fetch_remote.specs.Errors.{is_of_peer};

use crate::{fetch, prepare};
use fetch_store::NoMemory;
use thiserror::Error;

/// Why a fetch was refused. References and reflogs are as found, unless a keep file couldn't be removed once they had moved.
#[derive(Debug, Drop, Error)]
pub enum FetchError {
    /// Before a pack was asked for: the objects are as they were found.
    #[error(transparent)]
    Prepare(prepare::Error),
    /// From the fetch request on.
    #[error(transparent)]
    Receive(fetch::Error),
    /// Memory ran out, in whichever step.
    #[error("out of memory")]
    NoMemory,
}

impl FetchError {
    /// Whether it is the peer's fault.
    pub fn is_spurious(&self) -> bool
        ensures { result ≡ is_of_peer self.now }
    {
        match self {
            FetchError::Prepare(e) => e.is_spurious(),
            FetchError::Receive(e) => e.is_spurious(),
            FetchError::NoMemory => false,
        }
    }

    /// An equal error.
    pub fn try_clone(&self) -> Result<FetchError, NoMemory>
        ensures { IfOk result (λ copy. copy ≡ self.now) }
    {
        match self {
            FetchError::Prepare(e) => Ok(FetchError::Prepare(e.try_clone()?)),
            FetchError::Receive(e) => Ok(FetchError::Receive(e.try_clone()?)),
            FetchError::NoMemory => Ok(FetchError::NoMemory),
        }
    }
}

/// Out of memory stays out of memory.
impl From<prepare::Error> for FetchError {
    ghost use Rattle.std.specs.Prelude.{◌≡◌};
    ghost use Rattle.fetch_remote.specs.Errors.{preparing};

    ghost from_gives = { λ e f. f ≡ preparing e };

    fn from(e: prepare::Error) -> FetchError {
        match e {
            prepare::Error::NoMemory => FetchError::NoMemory,
            e => FetchError::Prepare(e),
        }
    }
}

/// Out of memory stays out of memory.
impl From<fetch::Error> for FetchError {
    ghost use Rattle.std.specs.Prelude.{◌≡◌};
    ghost use Rattle.fetch_remote.specs.Errors.{receiving};

    ghost from_gives = { λ e f. f ≡ receiving e };

    fn from(e: fetch::Error) -> FetchError {
        match e {
            fetch::Error::NoMemory => FetchError::NoMemory,
            e => FetchError::Receive(e),
        }
    }
}

impl From<NoMemory> for FetchError {
    ghost use Rattle.std.specs.Prelude.{◌≡◌};
    ghost use Rattle.fetch_remote.specs.declared.fetching.fetch_error.FetchError.TheVariants as errors;

    ghost from_gives = { λ _ f. f ≡ errors.NoMemory };

    fn from(_e: NoMemory) -> FetchError {
        FetchError::NoMemory
    }
}
