//! Why the name that a branch has on a remote isn't told.

ghost use Rattle.std.specs.Prelude.{◌≡◌, IfOk};

use fetch_base::{NoMemory, Text};
use thiserror::Error as ThisError;

/// Why it isn't told what a branch is called on its remote.
#[derive(Debug, Drop, PartialEq, Eq, ThisError)]
pub enum Error {
    /// It is no full name.
    #[error("no full name of a branch at {place}")]
    Name {
        /// The place of the refusal in the text that would be the name.
        place: usize,
    },
    /// `push.default` is none of the five.
    #[error("an unknown value of push.default")]
    PushDefault {
        /// Its value.
        value: Text,
    },
    /// Memory ran out.
    #[error("out of memory")]
    NoMemory,
}

impl Error {
    /// An equal error.
    pub fn try_clone(&self) -> Result<Error, NoMemory>
        ensures { IfOk result (λ copy. copy ≡ self.now) }
    {
        match self {
            Error::Name { place } => Ok(Error::Name { place: *place }),
            Error::PushDefault { value } => Ok(Error::PushDefault {
                value: value.try_clone()?,
            }),
            Error::NoMemory => Ok(Error::NoMemory),
        }
    }
}

impl From<NoMemory> for Error {
    ghost use Rattle.std.specs.Prelude.{◌≡◌};
    ghost use Rattle.fetch_lookup.specs.declared.branch.Error.TheVariants as errors;

    ghost from_gives = { λ _ e. e ≡ errors.NoMemory };

    fn from(_e: NoMemory) -> Error {
        Error::NoMemory
    }
}
