//! Why a remote isn't saved.

ghost use Rattle.std.specs.Prelude.{◌≡◌, IfOk};

use crate::name::Error as NameError;
use fetch_base::{NoMemory, Text};
use thiserror::Error as ThisError;

/// Why a remote isn't saved.
#[derive(Debug, Drop, PartialEq, Eq, ThisError)]
pub enum Error {
    /// The remote has no name.
    #[error("a remote without a name")]
    NameMissing {
        /// Its first address to fetch from, or the empty text.
        url: Text,
    },
    /// A text can't be kept in a configuration.
    #[error("a byte that no configuration can have at {place}")]
    Value {
        /// The place of the first NUL, in a name also of the first line feed, from 0, in the first text that has one:
        /// the name, the addresses to fetch from and to push to, the refspecs to fetch and to push by.
        place: usize,
    },
    /// Memory ran out.
    #[error("out of memory")]
    NoMemory,
}

impl Error {
    /// An equal error.
    pub fn try_clone(&self) -> Result<Error, NoMemory>
        ensures { IfOk result (λ copy. copy ≡ self.now) }
    {
        match self {
            Error::NameMissing { url } => Ok(Error::NameMissing {
                url: url.try_clone()?,
            }),
            Error::Value { place } => Ok(Error::Value { place: *place }),
            Error::NoMemory => Ok(Error::NoMemory),
        }
    }
}

impl From<NoMemory> for Error {
    ghost use Rattle.std.specs.Prelude.{◌≡◌};
    ghost use Rattle.fetch_lookup.specs.declared.save.Error.TheVariants as errors;

    ghost from_gives = { λ _ e. e ≡ errors.NoMemory };

    fn from(_e: NoMemory) -> Error {
        Error::NoMemory
    }
}

/// Why a remote isn't saved under another name.
#[derive(Debug, Drop, PartialEq, Eq, ThisError)]
pub enum AsError {
    /// It isn't saved.
    #[error("a remote that can't be saved")]
    Save(Error),
    /// The name isn't valid.
    #[error("no valid name of a remote")]
    Name(NameError),
    /// Memory ran out.
    #[error("out of memory")]
    NoMemory,
}

impl AsError {
    /// An equal error.
    pub fn try_clone(&self) -> Result<AsError, NoMemory>
        ensures { IfOk result (λ copy. copy ≡ self.now) }
    {
        match self {
            AsError::Save(source) => Ok(AsError::Save(source.try_clone()?)),
            AsError::Name(source) => Ok(AsError::Name(source.try_clone()?)),
            AsError::NoMemory => Ok(AsError::NoMemory),
        }
    }
}
