//! Which branches may be deleted.

ghost use Rattle.std.specs.Prelude.{◌≡◌, IfOk, IfErr, OnOk};
ghost use Rattle.std.specs.Bool.{OnTrue};
ghost use Rattle.fetch_remote.specs.Deleting.{AreFree, in_order, is_unlocal};
ghost use Rattle.fetch_remote.specs.Undeletable.{IsUndeletable};
ghost use Rattle.fetch_remote.specs.Blame.{BlamesWorktrees, fault_deleting, told_by, lent_trees};

use crate::delete::Error;
use crate::deleting::in_order;
use crate::deleting::undeletable::{check_local, check_unheld};
use fetch_specs::FullName;
use fetch_store::List;
use fetch_update::Worktrees;
use std::alloc::Global;

/// The names in ascending order, each once, where all are of local branches and none is checked out. Else the first that
/// is no local branch is told, and then the first that is checked out, with the directories. The work trees are asked
/// once, and nothing is changed.
pub fn deletable<W: Worktrees>(
    alloc: Global,
    names: &[FullName],
    worktrees: &mut W,
) -> Result<List<FullName>, Error>
    ensures names { IfOk result (λ list. list ≡ in_order names.now) }
    ensures free { OnOk result (AreFree (W.told worktrees.old) (in_order names.now)) }
    ensures refused { IfErr result (IsUndeletable (W.told worktrees.old) (in_order names.now)) }
    ensures unasked { IfErr result (λ e. OnTrue (is_unlocal e) (worktrees.new ≡ worktrees.old)) }
    ensures worktrees { BlamesWorktrees (lent_trees W.told W.asked W.listing W.open_repo W.follow_symref worktrees.old)
        (lent_trees W.told W.asked W.listing W.open_repo W.follow_symref worktrees.new) (told_by fault_deleting result) }
{
    let names = in_order(alloc, names)?;
    check_local(names.as_slice())?;
    check_unheld(alloc, names.as_slice(), worktrees)?;
    Ok(names)
}
