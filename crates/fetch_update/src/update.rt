//! Updates of references, and what refuses them.

ghost use Rattle.std.specs.Prelude.{◌≡◌, None, IfOk};

use crate::mode::{Mode, TypeChange};
use fetch_refs::{RefEdit, RefError};
use fetch_specs::FullName;
use fetch_store::{List, NoMemory, ObjectId, Text};
use thiserror::Error as ErrorMacro;

/// What becomes of one mapping.
#[derive(Debug, Drop, PartialEq, Eq)]
pub struct Update {
    /// What it does to its reference, or why it does nothing.
    pub mode: Mode,
    /// How the kind of its reference changes, if it does.
    pub type_change: Option<TypeChange>,
    /// Which of the edits carries it out.
    pub edit_index: Option<usize>,
    /// Which of the mappings it is of.
    pub mapping_index: usize,
}

impl Update {
    /// An update that changes nothing.
    pub fn from_mode(mode: Mode, mapping_index: usize) -> Update
        ensures { result ≡ record { mode = mode; type_change = None; edit_index = None; mapping_index = mapping_index } }
    {
        Update {
            mode,
            type_change: None,
            edit_index: None,
            mapping_index,
        }
    }
}

/// The edits of all mappings, and what each mapping is told.
#[derive(Debug, Drop)]
pub struct Outcome {
    /// The edits that carry the updates out.
    pub edits: List<RefEdit>,
    /// What each mapping is told, in their order.
    pub updates: List<Update>,
}

/// Why updates can't be judged.
#[derive(Debug, Drop, ErrorMacro)]
pub enum Error {
    /// A destination is no name of a reference.
    #[error("a destination is no name of a reference")]
    FindReference { name: Text },
    /// An unborn reference of the remote leads to what is no name.
    #[error("the target of an unborn remote reference is no name")]
    InvalidRefName { name: Text },
    /// A local reference names an object that isn't stored.
    #[error("the object of a local reference isn't stored")]
    FindCommit { id: ObjectId },
    /// A local reference leads to no object.
    #[error("a local reference leads to no object")]
    PeelToId { name: FullName, cause: RefError },
    /// The work trees couldn't be listed.
    #[error("the worktrees couldn't be listed")]
    WorktreeListing,
    /// The repository of a work tree couldn't be opened.
    #[error("the repository of a worktree couldn't be opened")]
    OpenWorktreeRepo,
    /// The head of a work tree couldn't be followed.
    #[error("the head of a worktree couldn't be followed")]
    FollowSymref,
    /// Memory ran out.
    #[error("out of memory")]
    NoMemory,
}

impl Error {
    /// An equal error.
    pub fn try_clone(&self) -> Result<Error, NoMemory>
        ensures { IfOk result (λ copy. copy ≡ self.now) }
    {
        match self {
            Error::FindReference { name } => Ok(Error::FindReference {
                name: name.try_clone()?,
            }),
            Error::InvalidRefName { name } => Ok(Error::InvalidRefName {
                name: name.try_clone()?,
            }),
            Error::FindCommit { id } => Ok(Error::FindCommit { id: *id }),
            Error::PeelToId { name, cause } => Ok(Error::PeelToId {
                name: name.try_clone()?,
                cause: cause.try_clone()?,
            }),
            Error::WorktreeListing => Ok(Error::WorktreeListing),
            Error::OpenWorktreeRepo => Ok(Error::OpenWorktreeRepo),
            Error::FollowSymref => Ok(Error::FollowSymref),
            Error::NoMemory => Ok(Error::NoMemory),
        }
    }
}

impl From<NoMemory> for Error {
    ghost use Rattle.std.specs.Prelude.{◌≡◌};
    ghost use Rattle.fetch_update.specs.declared.update.Error.TheVariants as errors;

    ghost from_gives = { λ _ e. e ≡ errors.NoMemory };

    fn from(_e: NoMemory) -> Error {
        Error::NoMemory
    }
}

impl Update {
    /// An equal update.
    pub fn try_clone(&self) -> Result<Update, NoMemory>
        ensures { IfOk result (λ copy. copy ≡ self.now) }
    {
        Ok(Update {
            mode: self.mode.try_clone()?,
            type_change: self.type_change,
            edit_index: self.edit_index,
            mapping_index: self.mapping_index,
        })
    }
}

impl Outcome {
    /// An equal outcome.
    pub fn try_clone(&self) -> Result<Outcome, NoMemory>
        ensures { IfOk result (λ copy. copy ≡ self.now) }
    {
        Ok(Outcome {
            edits: self.edits.try_clone_with(RefEdit::try_clone)?,
            updates: self.updates.try_clone_with(Update::try_clone)?,
        })
    }
}
