//! What objects say of an update.

ghost use Rattle.std.specs.Prelude.{◌≡◌, ◌&&◌, IfOk};
ghost use Rattle.fetch_update.specs.Ahead as ahead;
ghost use Rattle.fetch_update.specs.Dated.{IsCommit};
ghost use Rattle.fetch_update.specs.Policy as spec;

use crate::dated::has_dated_path;
use fetch_store::{NoMemory, ObjectId, Objects};
use std::alloc::Global;

pub(crate) fn is_stored<O: Objects>(objects: &O, id: &ObjectId) -> bool
    ensures { result ≡ spec.is_stored (O.graph objects.now) id.now }
{
    objects.kind_of(id).is_some()
}

#[tactic(auto, using(crate::proofs::CommitTests::commit_test))]
pub(crate) fn are_commits<O: Objects>(objects: &O, id: &ObjectId, other: &ObjectId) -> bool
    ensures { result ≡ (spec.is_commit (O.graph objects.now) id.now && spec.is_commit (O.graph objects.now) other.now) }
{
    if !objects.is_commit(id) {
        return false;
    }
    objects.is_commit(other)
}

/// Whether a dated path leads from the remote's commit to the local one.
pub(crate) fn is_ahead<O: Objects>(
    alloc: Global,
    objects: &O,
    remote: &ObjectId,
    local: &ObjectId,
) -> Result<bool, NoMemory>
    requires remote { IsCommit (O.graph objects.now) remote.now }
    requires local { IsCommit (O.graph objects.now) local.now }
    ensures { IfOk result (λ found. found ≡ ahead.is_ahead (O.graph objects.now) remote.now local.now) }
{
    Ok(has_dated_path(alloc, objects, remote, local)?)
}
