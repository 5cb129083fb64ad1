//! Why the name that a branch has on its remote isn't told.

use crate::find::existing;
use fetch_store::Text;
use thiserror::Error as ThisError;

/// Why it isn't told what a branch is called on its remote.
#[derive(Debug, Drop, PartialEq, Eq, ThisError)]
pub enum Error {
    /// It is no full name.
    #[error("no full name of a branch at {place}")]
    Name {
        /// The place of the refusal in the text that would be the name.
        place: usize,
    },
    /// The branch's remote is refused.
    #[error(transparent)]
    Remote(existing::Error),
    /// `push.default` is none of the five.
    #[error("an unknown value of push.default")]
    PushDefault {
        /// Its value.
        value: Text,
    },
    /// Memory ran out.
    #[error("out of memory")]
    NoMemory,
}

impl From<fetch_lookup::branch::Error> for Error {
    ghost use Rattle.std.specs.Prelude.{◌≡◌};
    ghost use Rattle.fetch_remote.specs.Upstream.{name_refusal};

    ghost from_gives = { λ e f. f ≡ name_refusal e };

    fn from(e: fetch_lookup::branch::Error) -> Error {
        match e {
            fetch_lookup::branch::Error::Name { place } => Error::Name { place },
            fetch_lookup::branch::Error::PushDefault { value } => Error::PushDefault { value },
            fetch_lookup::branch::Error::NoMemory => Error::NoMemory,
        }
    }
}

/// Out of memory stays out of memory.
impl From<existing::Error> for Error {
    ghost use Rattle.std.specs.Prelude.{◌≡◌};
    ghost use Rattle.fetch_remote.specs.Upstream.{remote_refusal};

    ghost from_gives = { λ e f. f ≡ remote_refusal e };

    fn from(e: existing::Error) -> Error {
        match e {
            existing::Error::NoMemory => Error::NoMemory,
            e => Error::Remote(e),
        }
    }
}
