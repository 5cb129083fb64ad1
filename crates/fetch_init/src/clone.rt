//! Why a clone isn't prepared, and why a repository isn't fetched into.

pub mod fetch;

use crate::init;
use fetch_store::NoMemory;
use thiserror::Error as ThisError;

/// Why a clone wasn't prepared.
#[derive(Debug, Drop, ThisError)]
pub enum Error {
    /// The address is empty, or has a NUL or a line feed.
    #[error("no address of a remote")]
    Url,
    /// No repository was created or opened.
    #[error(transparent)]
    Init(init::Error),
    /// Memory ran out.
    #[error("out of memory")]
    NoMemory,
}

impl Error {
    ghost use Rattle.std.specs.Prelude.{◌≡◌, IfOk};

    /// An equal error.
    pub fn try_clone(&self) -> Result<Error, NoMemory>
        ensures { IfOk result (λ copy. copy ≡ self.now) }
    {
        match self {
            Error::Url => Ok(Error::Url),
            Error::Init(e) => Ok(Error::Init(e.try_clone()?)),
            Error::NoMemory => Ok(Error::NoMemory),
        }
    }
}

impl From<init::Error> for Error {
    ghost use Rattle.std.specs.Prelude.{◌≡◌};
    ghost use Rattle.fetch_init.specs.Refusals.{init_refusal};

    ghost from_gives = { λ e f. f ≡ init_refusal e };

    fn from(e: init::Error) -> Error {
        match e {
            init::Error::NoMemory => Error::NoMemory,
            e => Error::Init(e),
        }
    }
}

impl From<NoMemory> for Error {
    ghost use Rattle.std.specs.Prelude.{◌≡◌};
    ghost use Rattle.fetch_init.specs.declared.clone.Error.TheVariants as errors;

    ghost from_gives = { λ _ e. e ≡ errors.NoMemory };

    fn from(_e: NoMemory) -> Error {
        Error::NoMemory
    }
}
