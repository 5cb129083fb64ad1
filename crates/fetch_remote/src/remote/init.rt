//! Why there is no remote at a text.

use fetch_store::NoMemory;
use thiserror::Error as ThisError;

/// Why there is no remote at a text.
#[derive(Clone, Copy, Debug, PartialEq, Eq, ThisError)]
pub enum Error {
    /// It is no address: it is empty, or has a NUL or a line feed.
    #[error("no address of a remote")]
    Url,
    /// Memory ran out.
    #[error("out of memory")]
    NoMemory,
}

impl From<NoMemory> for Error {
    ghost use Rattle.std.specs.Prelude.{◌≡◌};
    ghost use Rattle.fetch_remote.specs.declared.remote.init.Error.TheVariants as errors;

    ghost from_gives = { λ _ f. f ≡ errors.NoMemory };

    fn from(_e: NoMemory) -> Error {
        Error::NoMemory
    }
}
