//! Why a bundle isn't written or read.

ghost use Rattle.std.specs.Prelude.{◌≡◌, IfOk};
ghost use Rattle.fetch_check.specs.declared.error.BundleError.TheVariants as errors;

use crate::findings::Broken;
use fetch_pack::PackError;
use fetch_specs::FullName;
use fetch_store::{Missing, NoMemory, TryClone};
use std::alloc::{AllocError, AllocFailed};
use thiserror::Error;

/// Why a bundle isn't written or read.
#[derive(Debug, Drop, Error)]
pub enum BundleError {
    /// The repository that is to be written lacks an object, or a border id is no stored commit.
    #[error("the repository isn't closed")]
    Missing {
        /// The first such link.
        link: Missing,
    },
    /// Nothing is missing, and a reference of the repository that is to be written is broken.
    #[error("a reference is broken")]
    Broken {
        /// The first such reference.
        broken: Broken,
    },
    /// Nothing is missing or broken, and a reference's line would have more than 65,516 bytes.
    #[error("a reference's line is too long")]
    NameTooLong {
        /// The least such name.
        name: FullName,
    },
    /// A line breaks the grammar or may not stand there, or what the lines say isn't a whole repository.
    #[error("malformed bundle at byte {place}")]
    Malformed {
        /// The start of the first line that breaks the grammar or may not stand there; the length where a line is
        /// missing. The start of the pack's first line where all lines and the pack hold, and its ids don't ascend,
        /// aren't those reached from the direct references, or aren't closed under the border, or a reference is broken.
        place: usize,
    },
    /// The lines hold, and the pack isn't read, or isn't of version 2.
    #[error("a bundle's pack isn't read")]
    Pack(PackError),
    /// Memory ran out.
    #[error("out of memory")]
    NoMemory,
}

impl BundleError {
    /// An equal error.
    pub fn try_clone(&self) -> Result<BundleError, NoMemory>
        ensures { IfOk result (λ copy. copy ≡ self.now) }
    {
        match self {
            BundleError::Missing { link } => Ok(BundleError::Missing { link: *link }),
            BundleError::Broken { broken } => Ok(BundleError::Broken {
                broken: broken.try_clone()?,
            }),
            BundleError::NameTooLong { name } => Ok(BundleError::NameTooLong {
                name: name.try_clone()?,
            }),
            BundleError::Malformed { place } => Ok(BundleError::Malformed { place: *place }),
            BundleError::Pack(e) => Ok(BundleError::Pack(*e)),
            BundleError::NoMemory => Ok(BundleError::NoMemory),
        }
    }
}

impl From<NoMemory> for BundleError {
    ghost from_gives = { λ _ e. e ≡ errors.NoMemory };

    fn from(_e: NoMemory) -> BundleError {
        BundleError::NoMemory
    }
}

impl From<AllocError> for BundleError {
    ghost from_gives = { λ _ e. e ≡ errors.NoMemory };

    fn from(_e: AllocError) -> BundleError {
        BundleError::NoMemory
    }
}

impl<T: Drop> From<AllocFailed<T>> for BundleError {
    ghost from_gives = { λ _ e. e ≡ errors.NoMemory };

    fn from(_e: AllocFailed<T>) -> BundleError {
        BundleError::NoMemory
    }
}
