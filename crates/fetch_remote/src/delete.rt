//! Why branches weren't deleted, or what is left to clean up after them.

ghost use Rattle.std.specs.Prelude.{◌≡◌, IfOk};

use crate::repository::open_error::OpenError;
use fetch_specs::FullName;
use fetch_store::{List, NoMemory, Text};
use thiserror::Error as ThisError;

/// What failed of the configuration file, once the branches were gone.
#[derive(Clone, Copy, Debug, PartialEq, Eq, ThisError)]
pub enum CleanupError {
    /// The new text couldn't be written to `config.lock`: the tree that the files tell is as before.
    #[error("the configuration couldn't be written")]
    Write,
    /// `config.lock` couldn't be put in the place of `config`: it stands beside that, with the new text.
    #[error("the configuration couldn't be replaced")]
    Commit,
}

/// Why branches weren't deleted. After `Cleanup` they are gone, and after `NoMemory` they may be; else all is as before, and so
/// are the files.
#[derive(Debug, Drop, ThisError)]
pub enum Error {
    /// The first name that isn't below `refs/heads/`.
    #[error("no local branch")]
    NotLocal {
        /// The name.
        name: FullName,
    },
    /// The work trees couldn't be listed.
    #[error("the worktrees couldn't be listed")]
    WorktreeListing,
    /// The repository of a work tree couldn't be opened.
    #[error("the repository of a worktree couldn't be opened")]
    OpenWorktreeRepo,
    /// The head of a work tree couldn't be followed.
    #[error("the head of a worktree couldn't be followed")]
    FollowSymref,
    /// The first branch that is checked out.
    #[error("a branch that is checked out")]
    CheckedOut {
        /// The branch.
        name: FullName,
        /// Where, in ascending order, each directory once.
        worktree_dirs: List<Text>,
    },
    /// The configuration file couldn't be read, or its text breaks the grammar.
    #[error("{cause}")]
    ConfigRead {
        /// Why not.
        cause: OpenError,
    },
    /// The branches are gone, and the configuration still has their sections.
    #[error("{source}")]
    Cleanup {
        /// The branches, in ascending order, each once.
        references: List<FullName>,
        /// What failed.
        source: CleanupError,
    },
    /// Memory ran out.
    #[error("out of memory")]
    NoMemory,
}

impl Error {
    /// An equal error.
    pub fn try_clone(&self) -> Result<Error, NoMemory>
        ensures { IfOk result (λ copy. copy ≡ self.now) }
    {
        match self {
            Error::NotLocal { name } => Ok(Error::NotLocal {
                name: name.try_clone()?,
            }),
            Error::WorktreeListing => Ok(Error::WorktreeListing),
            Error::OpenWorktreeRepo => Ok(Error::OpenWorktreeRepo),
            Error::FollowSymref => Ok(Error::FollowSymref),
            Error::CheckedOut {
                name,
                worktree_dirs,
            } => Ok(Error::CheckedOut {
                name: name.try_clone()?,
                worktree_dirs: worktree_dirs.try_clone_with(Text::try_clone)?,
            }),
            Error::ConfigRead { cause } => Ok(Error::ConfigRead {
                cause: cause.try_clone()?,
            }),
            Error::Cleanup { references, source } => Ok(Error::Cleanup {
                references: references.try_clone_with(FullName::try_clone)?,
                source: *source,
            }),
            Error::NoMemory => Ok(Error::NoMemory),
        }
    }
}

impl From<NoMemory> for Error {
    ghost use Rattle.std.specs.Prelude.{◌≡◌};
    ghost use Rattle.fetch_remote.specs.declared.delete.Error.TheVariants as errors;

    ghost from_gives = { λ _ f. f ≡ errors.NoMemory };

    fn from(_e: NoMemory) -> Error {
        Error::NoMemory
    }
}

/// Out of memory stays out of memory.
impl From<OpenError> for Error {
    ghost use Rattle.std.specs.Prelude.{◌≡◌};
    ghost use Rattle.fetch_remote.specs.Deleting.{config_refusal};

    ghost from_gives = { λ e f. f ≡ config_refusal e };

    fn from(e: OpenError) -> Error {
        match e {
            OpenError::NoMemory => Error::NoMemory,
            cause => Error::ConfigRead { cause },
        }
    }
}
