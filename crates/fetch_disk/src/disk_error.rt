//! Why a call of a disk fails.

ghost use Rattle.std.specs.Prelude.{◌≡◌};
ghost use Rattle.fetch_disk.specs.declared.disk_error.DiskError.TheVariants as errors;

use fetch_base::NoMemory;
use std::alloc::{AllocError, AllocFailed};
use thiserror::Error;

/// Why a call of a disk isn't done, or not known to be.
#[derive(Clone, Copy, Debug, PartialEq, Eq, Error)]
pub enum DiskError {
    /// The call failed, and was counted as a fault.
    #[error("a disk call failed")]
    Failed,
    /// The disk has no room, which was counted as a fault.
    #[error("the disk is full")]
    Full,
    /// Memory ran out.
    #[error("out of memory")]
    NoMemory,
}

impl From<NoMemory> for DiskError {
    ghost from_gives = { λ _ e. e ≡ errors.NoMemory };

    fn from(_e: NoMemory) -> DiskError {
        DiskError::NoMemory
    }
}

impl From<AllocError> for DiskError {
    ghost from_gives = { λ _ e. e ≡ errors.NoMemory };

    fn from(_e: AllocError) -> DiskError {
        DiskError::NoMemory
    }
}

impl<T: Drop> From<AllocFailed<T>> for DiskError {
    ghost from_gives = { λ _ e. e ≡ errors.NoMemory };

    fn from(_e: AllocFailed<T>) -> DiskError {
        DiskError::NoMemory
    }
}
