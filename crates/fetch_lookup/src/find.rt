//! Why a remote is refused that is looked for.

ghost use Rattle.std.specs.Prelude.{◌≡◌, IfOk};

use crate::direction::Direction;
use fetch_base::{NoMemory, Text};
use fetch_specs::SpecError;
use thiserror::Error as ThisError;

/// Why what a configuration says of a remote can't be read.
#[derive(Debug, Drop, PartialEq, Eq, ThisError)]
pub enum Error {
    /// `tagOpt` is neither `--tags` nor `--no-tags`.
    #[error("an unknown choice of tags")]
    TagOpt {
        /// Its value.
        value: Text,
    },
    /// An address has a line feed.
    #[error("an address that can't be read")]
    Url {
        /// What the address is for.
        kind: Direction,
        /// The remote.
        remote_name: Text,
    },
    /// A refspec doesn't parse.
    #[error("a refspec that can't be read")]
    RefSpec {
        /// What the refspec is for.
        kind: Direction,
        /// The remote.
        remote_name: Text,
        /// Why the first such refspec is refused.
        source: SpecError,
    },
    /// Memory ran out.
    #[error("out of memory")]
    NoMemory,
}

impl Error {
    /// An equal error.
    pub fn try_clone(&self) -> Result<Error, NoMemory>
        ensures { IfOk result (λ copy. copy ≡ self.now) }
    {
        match self {
            Error::TagOpt { value } => Ok(Error::TagOpt {
                value: value.try_clone()?,
            }),
            Error::Url { kind, remote_name } => Ok(Error::Url {
                kind: *kind,
                remote_name: remote_name.try_clone()?,
            }),
            Error::RefSpec {
                kind,
                remote_name,
                source,
            } => Ok(Error::RefSpec {
                kind: *kind,
                remote_name: remote_name.try_clone()?,
                source: *source,
            }),
            Error::NoMemory => Ok(Error::NoMemory),
        }
    }
}

impl From<NoMemory> for Error {
    ghost use Rattle.std.specs.Prelude.{◌≡◌};
    ghost use Rattle.fetch_lookup.specs.declared.find.Error.TheVariants as errors;

    ghost from_gives = { λ _ e. e ≡ errors.NoMemory };

    fn from(_e: NoMemory) -> Error {
        Error::NoMemory
    }
}
