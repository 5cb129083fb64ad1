//! Judging the mapped references.

ghost use Rattle.std.specs.Prelude.{◌≡◌, true, IfOk, IfErr};
ghost use Rattle.fetch_update.specs.Policy.{policy_over};
ghost use Rattle.fetch_remote.specs.Judging.{Judges, IsTold, is_free_judging};
ghost use Rattle.fetch_remote.specs.Blame.{BlamesWorktrees, fault_in, told_by, lent_trees};

use crate::fetch;
use fetch_refs::Refs;
use fetch_specs::Tags;
use fetch_store::Objects;
use fetch_update::{RefLogMessage, Worktree, WorktreeFault, Worktrees, laws, update};
use fetch_wire::RefMap;
use std::alloc::Global;

/// What becomes of each mapped reference, and the edits that carry it out. The work trees are asked once, and nothing is
/// changed.
// Many arguments: the public signature of this stage.
pub fn judge<O: Objects, W: Worktrees>(
    alloc: Global,
    refs: &Refs,
    objects: &O,
    ref_map: &RefMap,
    tags: Tags,
    message: &RefLogMessage,
    dry_run: bool,
    worktrees: &mut W,
) -> Result<update::Outcome, fetch::Error>
    ensures judged { Judges (W.told worktrees.old)
        (λ trees. policy_over refs.now.names (O.graph objects.now) message.now tags dry_run trees) ref_map.now result }
    ensures worktrees { BlamesWorktrees (lent_trees W.told W.asked W.listing W.open_repo W.follow_symref worktrees.old)
        (lent_trees W.told W.asked W.listing W.open_repo W.follow_symref worktrees.new) (told_by fault_in result) }
{
    let trees = listed(worktrees)?;
    let outcome = laws::update(
        alloc,
        refs,
        objects,
        message,
        ref_map.mappings.as_slice(),
        ref_map.refspecs.as_slice(),
        ref_map.extra_refspecs.as_slice(),
        tags,
        dry_run,
        trees.as_slice(),
    )?;
    Ok(outcome)
}

/// The work trees.
fn listed<W: Worktrees>(worktrees: &mut W) -> Result<Vec<Worktree>, fetch::Error>
    ensures list { IfOk result (λ trees. IsTold (W.told worktrees.old) trees.items) }
    ensures refused { IfErr result (λ e. is_free_judging e ≡ true) }
    ensures worktrees { BlamesWorktrees (lent_trees W.told W.asked W.listing W.open_repo W.follow_symref worktrees.old)
        (lent_trees W.told W.asked W.listing W.open_repo W.follow_symref worktrees.new) (told_by fault_in result) }
{
    match worktrees.list() {
        Ok(trees) => Ok(trees),
        Err(WorktreeFault::Listing) => {
            Err(fetch::Error::UpdateRefs(update::Error::WorktreeListing))
        }
        Err(WorktreeFault::OpenRepo) => {
            Err(fetch::Error::UpdateRefs(update::Error::OpenWorktreeRepo))
        }
        Err(WorktreeFault::FollowSymref) => {
            Err(fetch::Error::UpdateRefs(update::Error::FollowSymref))
        }
        Err(WorktreeFault::NoMemory) => Err(fetch::Error::NoMemory),
    }
}
