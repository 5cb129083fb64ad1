//! Committers.

use fetch_refs::Signature;
use fetch_store::{NoMemory, Text};
use std::alloc::Global;

/// A committer without a name, at second 0.
pub fn nobody(alloc: Global) -> Signature {
    Signature {
        name: Text::from(Vec::new(alloc)),
        email: Text::from(Vec::new(alloc)),
        seconds: 0,
        offset_minutes: 0,
    }
}

/// `A <a@x>`, at second 1.
pub fn somebody(alloc: Global) -> Result<Signature, NoMemory> {
    Ok(Signature {
        name: Text::new(alloc, b"A")?,
        email: Text::new(alloc, b"a@x")?,
        seconds: 1,
        offset_minutes: 0,
    })
}
