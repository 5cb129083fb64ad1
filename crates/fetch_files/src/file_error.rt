//! Why calls on files fail.

use fetch_base::NoMemory;
use thiserror::Error;

/// Why a call on files gave no answer.
#[derive(Clone, Copy, Debug, PartialEq, Eq, Error)]
pub enum FileError {
    /// The call failed, and was counted as a fault.
    #[error("a file call failed")]
    Failed,
    /// Memory ran out.
    #[error("out of memory")]
    NoMemory,
}

impl From<NoMemory> for FileError {
    ghost use Rattle.std.specs.Prelude.{◌≡◌};
    ghost use Rattle.fetch_files.specs.declared.file_error.FileError.TheVariants as errors;

    ghost from_gives = { λ _ e. e ≡ errors.NoMemory };

    fn from(_e: NoMemory) -> FileError {
        FileError::NoMemory
    }
}
