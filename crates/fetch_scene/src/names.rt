//! Names, read where they may be none.

ghost use Rattle.std.specs.Prelude.{◌≡◌, IfOk};
ghost use Rattle.fetch_scene.specs.LineKinds.{full_name_in, partial_name_in};

use fetch_specs::{FullName, NameError, PartialName};
use fetch_store::NoMemory;
use std::alloc::Global;

/// The full name that a text is, or None where it is none.
pub fn full_name(alloc: Global, text: &[u8]) -> Result<Option<FullName>, NoMemory>
    ensures { IfOk result (λ found. found ≡ full_name_in text.now) }
{
    match FullName::new(alloc, text) {
        Ok(name) => Ok(Some(name)),
        Err(NameError::Invalid { .. }) => Ok(None),
        Err(NameError::NoMemory) => Err(NoMemory),
    }
}

/// The name, full or short, that a text is.
pub(crate) fn partial_name(alloc: Global, text: &[u8]) -> Result<Option<PartialName>, NoMemory>
    ensures { IfOk result (λ found. found ≡ partial_name_in text.now) }
{
    match PartialName::new(alloc, text) {
        Ok(name) => Ok(Some(name)),
        Err(NameError::Invalid { .. }) => Ok(None),
        Err(NameError::NoMemory) => Err(NoMemory),
    }
}
