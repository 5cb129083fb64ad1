//! Why the branch isn't told that a tracking branch follows.

ghost use Rattle.std.specs.Prelude.{◌≡◌, IfOk};

use crate::find;
use fetch_base::{List, NoMemory, Text};
use fetch_specs::FullName;
use thiserror::Error as ThisError;

/// Why it isn't told which branch a tracking branch follows.
#[derive(Debug, Drop, PartialEq, Eq, ThisError)]
pub enum Error {
    /// The name isn't below `refs/remotes/`.
    #[error("no tracking branch")]
    BranchCategory {
        /// The name.
        full_name: FullName,
    },
    /// A remote is refused.
    #[error("a remote that can't be read")]
    FindRemote(find::Error),
    /// Refspecs lead to the tracking branch from two branches or more.
    #[error("more than one branch")]
    AmbiguousRemotes {
        /// The remotes that two branches or more lead from, and then those that one leads from, both ascending.
        remotes: List<Text>,
    },
    /// The branch that leads there is no full name.
    #[error("no full name of a branch at {place}")]
    ValidateUpstreamBranch {
        /// The place of the refusal.
        place: usize,
    },
    /// Memory ran out.
    #[error("out of memory")]
    NoMemory,
}

impl Error {
    /// An equal error.
    pub fn try_clone(&self) -> Result<Error, NoMemory>
        ensures { IfOk result (λ copy. copy ≡ self.now) }
    {
        match self {
            Error::BranchCategory { full_name } => Ok(Error::BranchCategory {
                full_name: full_name.try_clone()?,
            }),
            Error::FindRemote(source) => Ok(Error::FindRemote(source.try_clone()?)),
            Error::AmbiguousRemotes { remotes } => Ok(Error::AmbiguousRemotes {
                remotes: remotes.try_clone_with(Text::try_clone)?,
            }),
            Error::ValidateUpstreamBranch { place } => {
                Ok(Error::ValidateUpstreamBranch { place: *place })
            }
            Error::NoMemory => Ok(Error::NoMemory),
        }
    }
}

impl From<NoMemory> for Error {
    ghost use Rattle.std.specs.Prelude.{◌≡◌};
    ghost use Rattle.fetch_lookup.specs.declared.upstream.Error.TheVariants as errors;

    ghost from_gives = { λ _ e. e ≡ errors.NoMemory };

    fn from(_e: NoMemory) -> Error {
        Error::NoMemory
    }
}
