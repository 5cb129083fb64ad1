//! Why a repository wasn't opened, or wasn't opened again.

ghost use Rattle.std.specs.Prelude.{◌≡◌, IfOk};

use fetch_store::{NoMemory, Text};
use thiserror::Error;

/// Why a repository wasn't opened, or wasn't opened again.
#[derive(Debug, Drop, Error)]
pub enum OpenError {
    /// The files failed.
    #[error("a file couldn't be read")]
    Io,
    /// There is no such file.
    #[error("the configuration file is missing")]
    Missing { path: Text },
    /// The first line of the file that breaks the grammar, from 1.
    #[error("line {line} of the configuration file is malformed")]
    Config { line: usize },
    /// The first override that isn't one.
    #[error("an override isn't `section.key=value`, or can't be kept")]
    Override { text: Text },
    /// Memory ran out.
    #[error("out of memory")]
    NoMemory,
}

impl OpenError {
    /// An equal error.
    pub fn try_clone(&self) -> Result<OpenError, NoMemory>
        ensures { IfOk result (λ copy. copy ≡ self.now) }
    {
        match self {
            OpenError::Io => Ok(OpenError::Io),
            OpenError::Missing { path } => Ok(OpenError::Missing {
                path: path.try_clone()?,
            }),
            OpenError::Config { line } => Ok(OpenError::Config { line: *line }),
            OpenError::Override { text } => Ok(OpenError::Override {
                text: text.try_clone()?,
            }),
            OpenError::NoMemory => Ok(OpenError::NoMemory),
        }
    }
}

impl From<NoMemory> for OpenError {
    ghost use Rattle.std.specs.Prelude.{◌≡◌};
    ghost use Rattle.fetch_remote.specs.declared.repository.open_error.OpenError.TheVariants as errors;

    ghost from_gives = { λ _ f. f ≡ errors.NoMemory };

    fn from(_e: NoMemory) -> OpenError {
        OpenError::NoMemory
    }
}
