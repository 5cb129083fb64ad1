//! Why a name or a refspec is refused.

use fetch_base::NoMemory;
use std::alloc::{AllocError, AllocFailed};
use thiserror::Error;

/// Why a text is no name.
#[derive(Clone, Copy, Debug, PartialEq, Eq, Error)]
pub enum NameError {
    /// The text isn't in the grammar. The place is the length of its longest prefix that begins
    /// some name.
    #[error("no valid name from byte {place} on")]
    Invalid { place: usize },
    /// Memory ran out.
    #[error("out of memory")]
    NoMemory,
}

/// Why a text is no refspec.
#[derive(Clone, Copy, Debug, PartialEq, Eq, Error)]
pub enum SpecError {
    /// An exclusion of nothing; to push also an empty text, or a plus alone.
    #[error("an empty refspec")]
    Empty,
    /// An exclusion has a colon, and so a destination.
    #[error("an exclusion with a destination")]
    NegativeWithDestination,
    /// An exclusion names an object by its id.
    #[error("an exclusion of an object id")]
    NegativeObjectHash,
    /// One side has a star and the other has none.
    #[error("one side has a star and the other has none")]
    PatternUnbalanced,
    /// A side has two stars or more.
    #[error("a side with two stars")]
    PatternUnsupported,
    /// A side isn't in the grammar of names. The place is in the whole text.
    #[error("no valid name from byte {place} on")]
    InvalidName { place: usize },
    /// Memory ran out.
    #[error("out of memory")]
    NoMemory,
}

impl From<NoMemory> for NameError {
    ghost use Rattle.std.specs.Prelude.{◌≡◌};
    ghost use Rattle.fetch_specs.specs.declared.error.NameError.TheVariants as errors;

    ghost from_gives = { λ _ e. e ≡ errors.NoMemory };

    fn from(_e: NoMemory) -> NameError {
        NameError::NoMemory
    }
}

impl From<AllocError> for NameError {
    ghost use Rattle.std.specs.Prelude.{◌≡◌};
    ghost use Rattle.fetch_specs.specs.declared.error.NameError.TheVariants as errors;

    ghost from_gives = { λ _ e. e ≡ errors.NoMemory };

    fn from(_e: AllocError) -> NameError {
        NameError::NoMemory
    }
}

impl From<NoMemory> for SpecError {
    ghost use Rattle.std.specs.Prelude.{◌≡◌};
    ghost use Rattle.fetch_specs.specs.declared.error.SpecError.TheVariants as errors;

    ghost from_gives = { λ _ e. e ≡ errors.NoMemory };

    fn from(_e: NoMemory) -> SpecError {
        SpecError::NoMemory
    }
}

impl From<AllocError> for SpecError {
    ghost use Rattle.std.specs.Prelude.{◌≡◌};
    ghost use Rattle.fetch_specs.specs.declared.error.SpecError.TheVariants as errors;

    ghost from_gives = { λ _ e. e ≡ errors.NoMemory };

    fn from(_e: AllocError) -> SpecError {
        SpecError::NoMemory
    }
}

impl<T: Drop> From<AllocFailed<T>> for SpecError {
    ghost use Rattle.std.specs.Prelude.{◌≡◌};
    ghost use Rattle.fetch_specs.specs.declared.error.SpecError.TheVariants as errors;

    ghost from_gives = { λ _ e. e ≡ errors.NoMemory };

    fn from(_e: AllocFailed<T>) -> SpecError {
        SpecError::NoMemory
    }
}
