//! Lists without doubles.

ghost use Rattle.std.specs.Prelude.{◌≡◌, IfOk};
ghost use Rattle.fetch_negotiate.specs.Lists.{firsts};

use fetch_store::{Distinct, NoMemory, ObjectId};
use std::alloc::Global;

/// Each id once, where it comes first.
pub(crate) fn each_once(alloc: Global, ids: &[ObjectId]) -> Result<Vec<ObjectId>, NoMemory>
    ensures { IfOk result (λ once. once.items ≡ firsts ids.now) }
{
    let mut once: Distinct<ObjectId, ObjectId> = Distinct::new(alloc);
    for id in ids {
        once.add(*id)?;
    }
    Ok(once.into_vec())
}
