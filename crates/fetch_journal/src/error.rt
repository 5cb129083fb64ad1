//! Why a shared repository refuses.

ghost use Rattle.std.specs.Prelude.{◌≡◌, IfOk};
ghost use Rattle.fetch_journal.specs.Errors.{is_of_peer};

use fetch_refs::Target;
use fetch_remote::{FetchError, delete};
use fetch_specs::FullName;
use fetch_store::{Missing, NoMemory, ObjectId};
use std::alloc::AllocError;
use thiserror::Error;

/// Why an event of a shared repository isn't allowed, why a fetch or a deletion that makes such events is refused, or why a
/// repository can't be shared.
#[derive(Debug, Drop, Error)]
pub enum SharedError {
    /// The repository isn't closed: this is its first missing link.
    #[error("the repository has a link to an object that is not stored")]
    NotClosed {
        /// The first missing link.
        link: Missing,
    },
    /// The pack would leave a link missing: this is the first.
    #[error("the pack has a link to an object that is not stored")]
    Disconnected {
        /// The first missing link.
        link: Missing,
    },
    /// Another object has this id.
    #[error("another object has this id")]
    Collision {
        /// The first such id, in the order of the pack.
        id: ObjectId,
    },
    /// An edit expects something else than what stands at its name.
    #[error("a reference is not as expected")]
    EditReferences {
        /// The name of the first such edit.
        name: FullName,
        /// What stands there.
        found: Option<Target>,
    },
    /// A fetch was refused.
    #[error(transparent)]
    Fetch(FetchError),
    /// Branches weren't deleted.
    #[error(transparent)]
    Delete(delete::Error),
    /// Memory ran out.
    #[error("out of memory")]
    NoMemory,
}

impl SharedError {
    /// Whether it is the peer's fault.
    pub fn is_spurious(&self) -> bool
        ensures { result ≡ is_of_peer self.now }
    {
        match self {
            SharedError::Fetch(cause) => cause.is_spurious(),
            _ => false,
        }
    }

    /// A copy of the error.
    pub fn try_clone(&self) -> Result<SharedError, NoMemory>
        ensures { IfOk result (λ copy. copy ≡ self.now) }
    {
        match self {
            SharedError::NotClosed { link } => Ok(SharedError::NotClosed { link: *link }),
            SharedError::Disconnected { link } => Ok(SharedError::Disconnected { link: *link }),
            SharedError::Collision { id } => Ok(SharedError::Collision { id: *id }),
            SharedError::EditReferences { name, found } => Ok(SharedError::EditReferences {
                name: name.try_clone()?,
                found: copy_of(found)?,
            }),
            SharedError::Fetch(cause) => Ok(SharedError::Fetch(cause.try_clone()?)),
            SharedError::Delete(cause) => Ok(SharedError::Delete(cause.try_clone()?)),
            SharedError::NoMemory => Ok(SharedError::NoMemory),
        }
    }
}

fn copy_of(found: &Option<Target>) -> Result<Option<Target>, NoMemory>
    ensures { IfOk result (λ copy. copy ≡ found.now) }
{
    match found {
        Some(target) => Ok(Some(target.try_clone()?)),
        None => Ok(None),
    }
}

/// Out of memory stays out of memory.
impl From<FetchError> for SharedError {
    ghost use Rattle.std.specs.Prelude.{◌≡◌};
    ghost use Rattle.fetch_journal.specs.Errors.{fetching};

    ghost from_gives = { λ e f. f ≡ fetching e };

    fn from(e: FetchError) -> SharedError {
        match e {
            FetchError::NoMemory => SharedError::NoMemory,
            e => SharedError::Fetch(e),
        }
    }
}

/// Out of memory stays out of memory.
impl From<delete::Error> for SharedError {
    ghost use Rattle.std.specs.Prelude.{◌≡◌};
    ghost use Rattle.fetch_journal.specs.Errors.{deleting};

    ghost from_gives = { λ e f. f ≡ deleting e };

    fn from(e: delete::Error) -> SharedError {
        match e {
            delete::Error::NoMemory => SharedError::NoMemory,
            e => SharedError::Delete(e),
        }
    }
}

impl From<NoMemory> for SharedError {
    ghost use Rattle.std.specs.Prelude.{◌≡◌};
    ghost use Rattle.fetch_journal.specs.declared.error.SharedError.TheVariants as errors;

    ghost from_gives = { λ _ e. e ≡ errors.NoMemory };

    fn from(_e: NoMemory) -> SharedError {
        SharedError::NoMemory
    }
}

impl From<AllocError> for SharedError {
    ghost use Rattle.std.specs.Prelude.{◌≡◌};
    ghost use Rattle.fetch_journal.specs.declared.error.SharedError.TheVariants as errors;

    ghost from_gives = { λ _ e. e ≡ errors.NoMemory };

    fn from(_e: AllocError) -> SharedError {
        SharedError::NoMemory
    }
}
