//! Copies of ids.

ghost use Rattle.std.specs.Prelude.{◌≡◌, IfOk};

use fetch_store::{List, NoMemory, ObjectId};

/// An equal list of ids.
pub(crate) fn copied_ids(ids: &List<ObjectId>) -> Result<List<ObjectId>, NoMemory>
    ensures { IfOk result (λ copy. copy ≡ ids.now) }
{
    Ok(List::from(Vec::from_slice(ids.allocator(), ids.as_slice())?))
}
