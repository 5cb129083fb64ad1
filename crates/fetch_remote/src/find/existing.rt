//! Why there is no remote that has to be there.

use crate::find;
use fetch_store::{NoMemory, Text};
use thiserror::Error as ThisError;

/// Why there is no such remote.
#[derive(Debug, Drop, PartialEq, Eq, ThisError)]
pub enum Error {
    /// What the configuration says of it is refused.
    #[error(transparent)]
    Find(find::Error),
    /// No trusted section is of a remote with this name.
    #[error("no such remote")]
    NotFound {
        /// The name.
        name: Text,
    },
    /// A branch has a place as its remote that is no address.
    #[error("no address of a remote")]
    UrlParse,
    /// Memory ran out.
    #[error("out of memory")]
    NoMemory,
}

/// Out of memory stays out of memory.
impl From<find::Error> for Error {
    ghost use Rattle.std.specs.Prelude.{◌≡◌};
    ghost use Rattle.fetch_remote.specs.Finding.{existing_refusal};

    ghost from_gives = { λ e f. f ≡ existing_refusal e };

    fn from(e: find::Error) -> Error {
        match e {
            find::Error::NoMemory => Error::NoMemory,
            e => Error::Find(e),
        }
    }
}

impl From<NoMemory> for Error {
    ghost use Rattle.std.specs.Prelude.{◌≡◌};
    ghost use Rattle.fetch_remote.specs.declared.find.existing.Error.TheVariants as errors;

    ghost from_gives = { λ _ f. f ≡ errors.NoMemory };

    fn from(_e: NoMemory) -> Error {
        Error::NoMemory
    }
}
