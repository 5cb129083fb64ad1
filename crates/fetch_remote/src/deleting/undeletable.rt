//! Branches that can't be deleted: those that are no local ones, and those that are checked out.

ghost use Rattle.std.specs.Prelude.{◌≡◌, ℕ, List as Items, None, true, cond, find, IfOk, IfErr, OnOk};
ghost use Rattle.std.specs.BTreeMap.{is_at};
ghost use Rattle.std.specs.BTreeSet.{contains};
ghost use Rattle.fetch_lookup.specs.Ordered.{placed};
ghost use Rattle.fetch_refs.specs.Names.{name_cmp};
ghost use Rattle.fetch_update.specs.Trees.{directories_of};
ghost use Rattle.fetch_update.specs.Trees as tree_spec;
ghost use Rattle.fetch_remote.specs.Deleting as spec;
ghost use Rattle.fetch_remote.specs.DeletionSteps.{AreBranches, AreUnheld, IsHeld, IsHeldIn, IsUnlocal, directory_of, listing_refusal};
ghost use Rattle.fetch_remote.specs.Blame.{BlamesWorktrees, fault_deleting, told_by, lent_trees};

use crate::delete::Error;
use fetch_specs::FullName;
use fetch_store::{List, NoMemory, Text};
use fetch_update::{Worktree, WorktreeFault, Worktrees};
use std::alloc::Global;
use std::collections::BTreeSet;

/// Tests that all names are below `refs/heads/`. The first that isn't is told.
pub(crate) fn check_local(names: &[FullName]) -> Result<(), Error>
    ensures ok { OnOk result (find spec.is_foreign names.now ≡ None) }
    ensures refused { IfErr result (IsUnlocal (find spec.is_foreign names.now)) }
{
    for name in names {
        if is_foreign(name) {
            return Err(Error::NotLocal {
                name: name.try_clone()?,
            });
        }
    }
    Ok(())
}

#[tactic(auto, unfolding(fetch_specs::specs::Categories::heads))]
fn is_foreign(name: &FullName) -> bool
    ensures { result ≡ spec.is_foreign name.now }
{
    !name.as_bytes().starts_with(b"refs/heads/")
}

/// Tests that no branch is checked out in the work trees. The first that is one is told, and where it is.
pub(crate) fn check_unheld<W: Worktrees>(
    alloc: Global,
    names: &[FullName],
    worktrees: &mut W,
) -> Result<(), Error>
    ensures ok { OnOk result (AreUnheld (W.told worktrees.old) names.now) }
    ensures refused { IfErr result (IsHeld (W.told worktrees.old) names.now) }
    ensures worktrees { BlamesWorktrees (lent_trees W.told W.asked W.listing W.open_repo W.follow_symref worktrees.old)
        (lent_trees W.told W.asked W.listing W.open_repo W.follow_symref worktrees.new) (told_by fault_deleting result) }
{
    match worktrees.list() {
        Ok(trees) => check_in(alloc, trees.as_slice(), names),
        Err(fault) => Err(listing_error(fault)),
    }
}

fn listing_error(fault: WorktreeFault) -> Error
    ensures { result ≡ listing_refusal fault }
{
    match fault {
        WorktreeFault::Listing => Error::WorktreeListing,
        WorktreeFault::OpenRepo => Error::OpenWorktreeRepo,
        WorktreeFault::FollowSymref => Error::FollowSymref,
        WorktreeFault::NoMemory => Error::NoMemory,
    }
}

/// The same, of a list of work trees.
fn check_in(alloc: Global, trees: &[Worktree], names: &[FullName]) -> Result<(), Error>
    ensures ok { OnOk result (find (tree_spec.is_checked_out trees.now) names.now ≡ None) }
    ensures refused { IfErr result (IsHeldIn trees.now names.now) }
{
    let branches = branches_of(alloc, trees)?;
    for name in names {
        if is_among(&branches, trees, name) {
            return Err(Error::CheckedOut {
                name: name.try_clone()?,
                worktree_dirs: directories(alloc, trees, name)?,
            });
        }
    }
    Ok(())
}

/// The branches that are checked out in the work trees.
fn branches_of(alloc: Global, trees: &[Worktree]) -> Result<BTreeSet<FullName>, NoMemory>
    ensures { IfOk result (λ branches. AreBranches trees.now branches) }
{
    let mut branches = BTreeSet::new(alloc);
    for tree in trees {
        add_branch(&mut branches, tree.branch.try_clone()?)?;
    }
    Ok(branches)
}

fn add_branch(branches: &mut BTreeSet<FullName>, branch: FullName) -> Result<(), NoMemory>
    ensures { (name : Items ℕ) → OnOk result (contains name_cmp branches.new name
        ≡ cond (is_at (name_cmp branch) name) true (contains name_cmp branches.old name)) }
{
    branches.insert(branch)?;
    Ok(())
}

/// Whether a branch is one of them.
fn is_among(branches: &BTreeSet<FullName>, trees: &[Worktree], name: &FullName) -> bool
    requires { AreBranches trees.now branches.now }
    ensures { result ≡ tree_spec.is_checked_out trees.now name.now }
{
    branches.contains(name)
}

/// Where a branch is checked out, in ascending order.
fn directories(alloc: Global, trees: &[Worktree], name: &FullName) -> Result<List<Text>, NoMemory>
    ensures { IfOk result (λ list. list ≡ directories_of trees.now name.now) }
{
    let mut directories = BTreeSet::new(alloc);
    for tree in trees {
        add_directory(&mut directories, tree, name)?;
    }
    list(alloc, directories)
}

#[tactic(auto, unfolding(fetch_lookup::specs::Ordered::placed))]
fn add_directory(
    directories: &mut BTreeSet<Text>,
    tree: &Worktree,
    name: &FullName,
) -> Result<(), NoMemory>
    ensures { OnOk result (directories.new.keys ≡ placed name_cmp directories.old.keys (directory_of name.now tree.now)) }
{
    if tree.branch == *name {
        directories.insert(tree.directory.try_clone()?)?;
    }
    Ok(())
}

fn list(alloc: Global, texts: BTreeSet<Text>) -> Result<List<Text>, NoMemory>
    ensures { IfOk result (λ list. list ≡ texts.keys) }
{
    let mut list = Vec::with_capacity(alloc, texts.len())?;
    for text in texts {
        list.push(text)?;
    }
    Ok(List::from(list))
}
