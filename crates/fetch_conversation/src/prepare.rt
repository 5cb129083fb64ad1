//! Why a fetch wasn't prepared.

use crate::drive::DriveError;
use crate::ref_map;
use fetch_store::NoMemory;
use fetch_wire::WireError;
use thiserror::Error;

/// Why a fetch wasn't prepared. Nothing was changed.
#[derive(Debug, Drop, Error)]
pub enum Error {
    /// Neither the remote nor the options name a refspec.
    #[error("there is no refspec to fetch by")]
    MissingRefSpecs,
    /// The references weren't listed and mapped.
    #[error(transparent)]
    RefMap(ref_map::Error),
    /// Memory ran out.
    #[error("out of memory")]
    NoMemory,
}

impl Error {
    ghost use Rattle.std.specs.Prelude.{◌≡◌, IfOk};
    ghost use Rattle.fetch_conversation.specs.Errors.{is_transport};

    /// Whether it is the peer's fault.
    pub fn is_spurious(&self) -> bool
        ensures { result ≡ is_transport self.now }
    {
        match self {
            Error::RefMap(e) => e.is_spurious(),
            Error::MissingRefSpecs | Error::NoMemory => false,
        }
    }

    /// An equal error.
    pub fn try_clone(&self) -> Result<Error, NoMemory>
        ensures { IfOk result (λ copy. copy ≡ self.now) }
    {
        match self {
            Error::MissingRefSpecs => Ok(Error::MissingRefSpecs),
            Error::RefMap(e) => Ok(Error::RefMap(e.try_clone()?)),
            Error::NoMemory => Ok(Error::NoMemory),
        }
    }
}

/// Out of memory stays out of memory.
impl From<ref_map::Error> for Error {
    ghost use Rattle.std.specs.Prelude.{◌≡◌};
    ghost use Rattle.fetch_conversation.specs.Errors.{prepare_of};

    ghost from_gives = { λ e p. p ≡ prepare_of e };

    fn from(e: ref_map::Error) -> Error {
        match e {
            ref_map::Error::NoMemory => Error::NoMemory,
            e => Error::RefMap(e),
        }
    }
}

impl From<NoMemory> for Error {
    ghost use Rattle.std.specs.Prelude.{◌≡◌};
    ghost use Rattle.fetch_conversation.specs.declared.prepare.Error.TheVariants as errors;

    ghost from_gives = { λ _ p. p ≡ errors.NoMemory };

    fn from(_e: NoMemory) -> Error {
        Error::NoMemory
    }
}

/// Out of memory stays out of memory.
impl From<WireError> for Error {
    ghost use Rattle.std.specs.Prelude.{◌≡◌};
    ghost use Rattle.fetch_conversation.specs.Errors.{prepare_of_wire};

    ghost from_gives = { λ e p. p ≡ prepare_of_wire e };

    fn from(e: WireError) -> Error {
        match e {
            WireError::NoMemory => Error::NoMemory,
            e => Error::RefMap(ref_map::Error::Handshake(e)),
        }
    }
}

impl From<DriveError> for Error {
    ghost use Rattle.std.specs.Prelude.{◌≡◌};
    ghost use Rattle.fetch_conversation.specs.Errors.{prepare_of_stop};

    ghost from_gives = { λ e p. p ≡ prepare_of_stop e };

    fn from(e: DriveError) -> Error {
        match e {
            DriveError::Refused(e) => Error::from(e),
            DriveError::Failed => Error::RefMap(ref_map::Error::Transport),
            DriveError::Interrupted => Error::RefMap(ref_map::Error::Interrupted),
        }
    }
}
