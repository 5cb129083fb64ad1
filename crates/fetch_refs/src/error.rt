//! Why references are refused.

ghost use Rattle.std.specs.Prelude.{◌≡◌, IfOk};

use crate::copies::copy_value;
use crate::target::Target;
use fetch_specs::FullName;
use fetch_store::{NoMemory, ObjectId};
use std::alloc::{AllocError, AllocFailed};
use thiserror::Error;

/// Why references aren't read or changed.
#[derive(Debug, Drop, PartialEq, Eq, Error)]
pub enum RefError {
    /// An edit expected another value than the one that stands at its name.
    #[error("edit {index} expected another value")]
    Expectation {
        /// The place of the first such edit in the list, from 0.
        index: usize,
        /// What stands at the edit's name, if anything does.
        found: Option<Target>,
    },
    /// A symbolic reference leads to a name that was met before.
    #[error("a symbolic reference leads back to itself")]
    Cycle {
        /// The name that is met a second time.
        name: FullName,
    },
    /// Five symbolic references stand on one way, and the fifth names a further one.
    #[error("too many symbolic references on one way")]
    Depth {
        /// The name that the fifth symbolic reference leads to.
        name: FullName,
    },
    /// Nothing stands at the name, or at the end of the way of symbolic references.
    #[error("a reference that doesn't exist")]
    Unborn {
        /// The first name on the way at which nothing stands.
        name: FullName,
    },
    /// The way through tags leads to an object that isn't stored.
    #[error("an object isn't stored")]
    MissingObject {
        /// The first id on the way that isn't stored.
        id: ObjectId,
    },
    /// A tag leads to a tag that was met before.
    #[error("a tag leads back to itself")]
    TagCycle {
        /// The tag that is met a second time.
        id: ObjectId,
    },
    /// Memory ran out. Nothing was changed.
    #[error("out of memory")]
    NoMemory,
}

impl RefError {
    /// A copy of the error.
    pub fn try_clone(&self) -> Result<RefError, NoMemory>
        ensures { IfOk result (λ copy. copy ≡ self.now) }
    {
        match self {
            RefError::Expectation { index, found } => Ok(RefError::Expectation {
                index: *index,
                found: copy_value(found)?,
            }),
            RefError::Cycle { name } => Ok(RefError::Cycle {
                name: name.try_clone()?,
            }),
            RefError::Depth { name } => Ok(RefError::Depth {
                name: name.try_clone()?,
            }),
            RefError::Unborn { name } => Ok(RefError::Unborn {
                name: name.try_clone()?,
            }),
            RefError::MissingObject { id } => Ok(RefError::MissingObject { id: *id }),
            RefError::TagCycle { id } => Ok(RefError::TagCycle { id: *id }),
            RefError::NoMemory => Ok(RefError::NoMemory),
        }
    }
}

impl From<NoMemory> for RefError {
    ghost use Rattle.std.specs.Prelude.{◌≡◌};
    ghost use Rattle.fetch_refs.specs.declared.error.RefError.TheVariants as errors;

    ghost from_gives = { λ _ e. e ≡ errors.NoMemory };

    fn from(_e: NoMemory) -> RefError {
        RefError::NoMemory
    }
}

impl From<AllocError> for RefError {
    ghost use Rattle.std.specs.Prelude.{◌≡◌};
    ghost use Rattle.fetch_refs.specs.declared.error.RefError.TheVariants as errors;

    ghost from_gives = { λ _ e. e ≡ errors.NoMemory };

    fn from(_e: AllocError) -> RefError {
        RefError::NoMemory
    }
}

impl<T: Drop> From<AllocFailed<T>> for RefError {
    ghost use Rattle.std.specs.Prelude.{◌≡◌};
    ghost use Rattle.fetch_refs.specs.declared.error.RefError.TheVariants as errors;

    ghost from_gives = { λ _ e. e ≡ errors.NoMemory };

    fn from(_e: AllocFailed<T>) -> RefError {
        RefError::NoMemory
    }
}

/// Why a packed text isn't read.
#[derive(Clone, Copy, Debug, PartialEq, Eq, Error)]
pub enum PackedError {
    /// A line isn't an id in lower-case hex, a space, a full name and a line feed.
    #[error("no entry of a packed list at byte {place}")]
    Line {
        /// The start of the first such line, from 0.
        place: usize,
    },
    /// A line's name isn't above the name before it.
    #[error("a name that doesn't ascend at byte {place}")]
    Order {
        /// The start of the first such line, from 0.
        place: usize,
    },
    /// Memory ran out.
    #[error("out of memory")]
    NoMemory,
}

impl From<NoMemory> for PackedError {
    ghost use Rattle.std.specs.Prelude.{◌≡◌};
    ghost use Rattle.fetch_refs.specs.declared.error.PackedError.TheVariants as errors;

    ghost from_gives = { λ _ e. e ≡ errors.NoMemory };

    fn from(_e: NoMemory) -> PackedError {
        PackedError::NoMemory
    }
}
