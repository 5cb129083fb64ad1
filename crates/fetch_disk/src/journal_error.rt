//! Why a journal isn't opened, or not written.

ghost use Rattle.std.specs.Prelude.{◌≡◌};
ghost use Rattle.fetch_disk.specs.Errors.{journal_error};
ghost use Rattle.fetch_disk.specs.declared.journal_error.JournalError.TheVariants as errors;

use crate::disk_error::DiskError;
use fetch_base::NoMemory;
use std::alloc::{AllocError, AllocFailed};
use thiserror::Error;

/// Why a journal isn't opened, or a record not added.
#[derive(Clone, Copy, Debug, PartialEq, Eq, Error)]
pub enum JournalError {
    /// The file doesn't begin with the mark and a version.
    #[error("not a repository")]
    NotARepository,
    /// The version isn't 1.
    #[error("version {found} isn't known")]
    Version { found: u8 },
    /// Where a record stands that isn't whole, or whose digest is another: the place of its gate, where the file's first
    /// byte has 0.
    #[error("damaged at byte {place}")]
    Damaged { place: u64 },
    /// An earlier call failed in its midst: open the journal again.
    #[error("a call failed before: open it again")]
    Failed,
    /// The disk has no room, or the record or the journal is longer than 2^60 bytes.
    #[error("full")]
    Full,
    /// The disk failed, and counted it.
    #[error("the disk failed")]
    Disk,
    /// Memory ran out.
    #[error("out of memory")]
    NoMemory,
}

impl From<DiskError> for JournalError {
    ghost from_gives = { λ e r. r ≡ journal_error e };

    fn from(e: DiskError) -> JournalError {
        match e {
            DiskError::Failed => JournalError::Disk,
            DiskError::Full => JournalError::Full,
            DiskError::NoMemory => JournalError::NoMemory,
        }
    }
}

impl From<NoMemory> for JournalError {
    ghost from_gives = { λ _ e. e ≡ errors.NoMemory };

    fn from(_e: NoMemory) -> JournalError {
        JournalError::NoMemory
    }
}

impl From<AllocError> for JournalError {
    ghost from_gives = { λ _ e. e ≡ errors.NoMemory };

    fn from(_e: AllocError) -> JournalError {
        JournalError::NoMemory
    }
}

impl<T: Drop> From<AllocFailed<T>> for JournalError {
    ghost from_gives = { λ _ e. e ≡ errors.NoMemory };

    fn from(_e: AllocFailed<T>) -> JournalError {
        JournalError::NoMemory
    }
}
