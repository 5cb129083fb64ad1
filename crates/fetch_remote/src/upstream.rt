//! Why the branch isn't told that a tracking branch follows.

use crate::find::existing;
use fetch_specs::FullName;
use fetch_store::{List, Text};
use thiserror::Error as ThisError;

/// Why it isn't told which branch a tracking branch follows.
#[derive(Debug, Drop, PartialEq, Eq, ThisError)]
pub enum Error {
    /// The name isn't below `refs/remotes/`.
    #[error("no tracking branch")]
    BranchCategory {
        /// The name.
        full_name: FullName,
    },
    /// A remote is refused.
    #[error(transparent)]
    FindRemote(existing::Error),
    /// Refspecs lead to the tracking branch from two branches or more.
    #[error("more than one branch")]
    AmbiguousRemotes {
        /// The remotes that two branches or more lead from, and then those that one leads from, both ascending.
        remotes: List<Text>,
    },
    /// The branch that leads there is no full name.
    #[error("no full name of a branch at {place}")]
    ValidateUpstreamBranch {
        /// The place of the refusal.
        place: usize,
    },
    /// Memory ran out.
    #[error("out of memory")]
    NoMemory,
}

impl From<fetch_lookup::upstream::Error> for Error {
    ghost use Rattle.std.specs.Prelude.{◌≡◌};
    ghost use Rattle.fetch_remote.specs.Upstream.{upstream_refusal};

    ghost from_gives = { λ e f. f ≡ upstream_refusal e };

    fn from(e: fetch_lookup::upstream::Error) -> Error {
        match e {
            fetch_lookup::upstream::Error::BranchCategory { full_name } => {
                Error::BranchCategory { full_name }
            }
            fetch_lookup::upstream::Error::FindRemote(e) => {
                Error::FindRemote(existing::Error::from(e))
            }
            fetch_lookup::upstream::Error::AmbiguousRemotes { remotes } => {
                Error::AmbiguousRemotes { remotes }
            }
            fetch_lookup::upstream::Error::ValidateUpstreamBranch { place } => {
                Error::ValidateUpstreamBranch { place }
            }
            fetch_lookup::upstream::Error::NoMemory => Error::NoMemory,
        }
    }
}
