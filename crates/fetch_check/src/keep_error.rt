//! Why a bundle isn't saved or loaded.

ghost use Rattle.std.specs.Prelude.{◌≡◌, IfOk};

use crate::error::BundleError;
use fetch_store::NoMemory;
use thiserror::Error;

/// Why a bundle isn't saved or loaded.
#[derive(Debug, Drop, Error)]
pub enum KeepError {
    /// The repository can't be written as a bundle, or the bytes of the file aren't one. It is never out of memory.
    #[error("a bundle isn't written or read")]
    Bundle(BundleError),
    /// A call of the files failed, and was counted as a fault.
    #[error("a call of the files failed")]
    Failed,
    /// Memory ran out.
    #[error("out of memory")]
    NoMemory,
}

impl KeepError {
    /// An equal error.
    pub fn try_clone(&self) -> Result<KeepError, NoMemory>
        ensures { IfOk result (λ copy. copy ≡ self.now) }
    {
        match self {
            KeepError::Bundle(e) => Ok(KeepError::Bundle(e.try_clone()?)),
            KeepError::Failed => Ok(KeepError::Failed),
            KeepError::NoMemory => Ok(KeepError::NoMemory),
        }
    }
}

impl From<BundleError> for KeepError {
    ghost use Rattle.fetch_check.specs.KeepErrors.{kept_error};

    ghost from_gives = { λ from e. e ≡ kept_error from };

    fn from(e: BundleError) -> KeepError {
        match e {
            BundleError::NoMemory => KeepError::NoMemory,
            other => KeepError::Bundle(other),
        }
    }
}
