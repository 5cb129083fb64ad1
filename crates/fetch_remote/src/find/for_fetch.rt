//! Why there is no remote to fetch from.

use crate::find::existing;
use crate::remote::init;
use thiserror::Error as ThisError;

/// Why there is no remote to fetch from.
#[derive(Debug, Drop, PartialEq, Eq, ThisError)]
pub enum Error {
    /// The remote that is meant isn't found, or is refused.
    #[error(transparent)]
    FindExisting(existing::Error),
    /// The text names no remote, and is no address.
    #[error(transparent)]
    Init(init::Error),
    /// No remote is named, and none is meant.
    #[error("no remote to fetch from")]
    ExactlyOneRemoteNotAvailable,
    /// Memory ran out.
    #[error("out of memory")]
    NoMemory,
}

/// Out of memory stays out of memory.
impl From<existing::Error> for Error {
    ghost use Rattle.std.specs.Prelude.{◌≡◌};
    ghost use Rattle.fetch_remote.specs.Finding.{fetch_refusal};

    ghost from_gives = { λ e f. f ≡ fetch_refusal e };

    fn from(e: existing::Error) -> Error {
        match e {
            existing::Error::NoMemory => Error::NoMemory,
            e => Error::FindExisting(e),
        }
    }
}

/// Out of memory stays out of memory.
impl From<init::Error> for Error {
    ghost use Rattle.std.specs.Prelude.{◌≡◌};
    ghost use Rattle.fetch_remote.specs.Finding.{init_refusal};

    ghost from_gives = { λ e f. f ≡ init_refusal e };

    fn from(e: init::Error) -> Error {
        match e {
            init::Error::NoMemory => Error::NoMemory,
            e => Error::Init(e),
        }
    }
}
