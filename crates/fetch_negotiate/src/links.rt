//! The parents of commits that were read.

ghost use Rattle.std.specs.Prelude.{◌≡◌};
ghost use Rattle.fetch_negotiate.specs.Reading.{links_at, read_in};

use crate::commits::Table;
use fetch_store::{Border, ObjectId};

/// The parents that were read of a commit, lent, and none of a border commit.
pub(crate) fn links<'a>(table: &'a Table, border: &Border, id: &ObjectId) -> &'a [ObjectId]
    ensures { result.now ≡ links_at (read_in table.now) border.now id.now }
{
    if border.contains(id) {
        return &[];
    }
    match table.get(id) {
        Some(Some(commit)) => commit.parents.as_slice(),
        Some(None) => &[],
        None => &[],
    }
}
