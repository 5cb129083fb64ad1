//! Checking a repository.

ghost use Rattle.std.specs.Prelude.{IfOk};
ghost use Rattle.fetch_store.specs.Closed.{holding};
ghost use Rattle.fetch_check.specs.Finding.{AreFindings};

use crate::breaking::all_broken;
use crate::findings::Findings;
use crate::leaving::unreached;
use crate::missing::all_missing;
use fetch_refs::Refs;
use fetch_store::{Border, NoMemory, Store};
use std::alloc::Global;

/// All that is found in a repository: each link to what isn't stored, each broken reference, and each stored object
/// that the direct references don't reach. It takes the time of reading each object's links twice, and of a look-up
/// for each of them.
pub fn check(
    alloc: Global,
    store: &Store,
    refs: &Refs,
    border: &Border,
) -> Result<Findings, NoMemory>
    ensures { IfOk result (λ findings. AreFindings refs.now.names (holding store.now.objects border.now) findings) }
{
    let missing = all_missing(alloc, store, border)?;
    let broken = all_broken(alloc, store, refs)?;
    let unreached = unreached(alloc, store, refs, border)?;
    Ok(Findings {
        missing,
        broken,
        unreached,
    })
}
