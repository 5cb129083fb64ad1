//! Why a repository isn't served, and why a request isn't.

ghost use Rattle.std.specs.Prelude.{◌≡◌, IfOk};

use fetch_specs::FullName;
use fetch_store::{Missing, NoMemory, ObjectId};
use std::alloc::AllocError;
use thiserror::Error;

/// Why a server isn't made, or why it refuses what it was fed.
#[derive(Debug, Drop, PartialEq, Eq, Error)]
pub enum ServeError {
    /// The repository has a border: the parents of some of its commits are left out.
    #[error("a repository with a shallow border isn't served")]
    ShallowServer,
    /// An object is stored at an id that isn't its hash. It is the least such id.
    #[error("the stored id {id:?} isn't its object's hash")]
    WrongId { id: ObjectId },
    /// A link leads to what isn't stored. It is the one that `first_missing` tells.
    #[error("the stored object {:?} links to {:?}, which isn't stored", link.from, link.to)]
    NotClosed { link: Missing },
    /// The reference of this name can't be served: it leads to nothing that is stored, into a cycle, or over more than five
    /// names, or it is longer than 30,000 bytes, or names one that is. It is the least such name.
    #[error("the reference {name:?} can't be served")]
    NotServable { name: FullName },
    /// The line that begins at byte `place` of its request, counted from 0, isn't one that may stand there.
    #[error("malformed line at byte {place} of the request")]
    Malformed { place: usize },
    /// The digits of a line announce that its request has more than `bound` bytes.
    #[error("the request is longer than {bound} bytes")]
    RequestTooLong { bound: u32 },
    /// There was not enough memory.
    #[error("out of memory")]
    NoMemory,
}

impl ServeError {
    /// An equal error.
    pub fn try_clone(&self) -> Result<ServeError, NoMemory>
        ensures { IfOk result (λ copy. copy ≡ self.now) }
    {
        match self {
            ServeError::ShallowServer => Ok(ServeError::ShallowServer),
            ServeError::WrongId { id } => Ok(ServeError::WrongId { id: *id }),
            ServeError::NotClosed { link } => Ok(ServeError::NotClosed { link: *link }),
            ServeError::NotServable { name } => Ok(ServeError::NotServable {
                name: name.try_clone()?,
            }),
            ServeError::Malformed { place } => Ok(ServeError::Malformed { place: *place }),
            ServeError::RequestTooLong { bound } => {
                Ok(ServeError::RequestTooLong { bound: *bound })
            }
            ServeError::NoMemory => Ok(ServeError::NoMemory),
        }
    }
}

impl From<NoMemory> for ServeError {
    ghost use Rattle.std.specs.Prelude.{◌≡◌};
    ghost use Rattle.fetch_asked.specs.declared.error.ServeError.TheVariants as errors;

    ghost from_gives = { λ _ e. e ≡ errors.NoMemory };

    fn from(_e: NoMemory) -> ServeError {
        ServeError::NoMemory
    }
}

impl From<AllocError> for ServeError {
    ghost use Rattle.std.specs.Prelude.{◌≡◌};
    ghost use Rattle.fetch_asked.specs.declared.error.ServeError.TheVariants as errors;

    ghost from_gives = { λ _ e. e ≡ errors.NoMemory };

    fn from(_e: AllocError) -> ServeError {
        ServeError::NoMemory
    }
}
