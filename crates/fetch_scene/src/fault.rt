//! Why bytes give no scene.

use fetch_store::NoMemory;
use std::alloc::{AllocError, AllocFailed};
use thiserror::Error;

/// Why bytes give no scene.
#[derive(Clone, Copy, Debug, PartialEq, Eq, Error)]
pub enum SceneFault {
    /// The bytes are no scene. The place is the start of the line that breaks the grammar, or that
    /// stands where another is wanted, or that isn't whole.
    #[error("malformed {place}")]
    Malformed { place: usize },
    /// Memory ran out.
    #[error("out of memory")]
    NoMemory,
}

impl From<NoMemory> for SceneFault {
    ghost use Rattle.std.specs.Prelude.{◌≡◌};
    ghost use Rattle.fetch_scene.specs.declared.fault.SceneFault.TheVariants as faults;

    ghost from_gives = { λ _ e. e ≡ faults.NoMemory };

    fn from(_e: NoMemory) -> SceneFault {
        SceneFault::NoMemory
    }
}

impl From<AllocError> for SceneFault {
    ghost use Rattle.std.specs.Prelude.{◌≡◌};
    ghost use Rattle.fetch_scene.specs.declared.fault.SceneFault.TheVariants as faults;

    ghost from_gives = { λ _ e. e ≡ faults.NoMemory };

    fn from(_e: AllocError) -> SceneFault {
        SceneFault::NoMemory
    }
}

impl<T: Drop> From<AllocFailed<T>> for SceneFault {
    ghost use Rattle.std.specs.Prelude.{◌≡◌};
    ghost use Rattle.fetch_scene.specs.declared.fault.SceneFault.TheVariants as faults;

    ghost from_gives = { λ _ e. e ≡ faults.NoMemory };

    fn from(_e: AllocFailed<T>) -> SceneFault {
        SceneFault::NoMemory
    }
}
