//! Where branches are checked out.

ghost use Rattle.std.specs.Prelude.{◌≡◌, ◌++◌, ◌∷◌, [], ℕ, IfOk, OnOk, MatchOption, List as Items, true, false, cond};
ghost use Rattle.std.specs.BTreeMap.{is_at};
ghost use Rattle.std.specs.BTreeSet.{contains, keys};
ghost use Rattle.std.specs.List.Sorted.{IsStrictlySortedBy};
ghost use Rattle.std.specs.Option.{option_map_or};
ghost use Rattle.fetch_refs.specs.Names.{name_cmp};
ghost use Rattle.fetch_update.specs.Trees as spec;
ghost use Rattle.fetch_update.specs.Trees.{IsIndex};
ghost use Rattle.fetch_update.specs.declared.worktrees.Worktree.{Worktree};

use crate::worktrees::Worktree;
use fetch_specs::FullName;
use fetch_store::{List, NoMemory, Text};
use std::alloc::Global;
use std::collections::{BTreeMap, BTreeSet};

/// The directories where branches are checked out, by branch. The only error is out of memory.
pub fn index_of(
    alloc: Global,
    worktrees: &[Worktree],
) -> Result<BTreeMap<FullName, BTreeSet<Text>>, NoMemory>
    ensures { IfOk result (λ index. IsIndex worktrees.now index) }
{
    let mut index = BTreeMap::new(alloc);
    'trees: for tree in worktrees {
        add(alloc, &mut index, tree)?;
    }
    Ok(index)
}

/// Adds a worktree's directory to those of its branch.
fn add(
    alloc: Global,
    index: &mut BTreeMap<FullName, BTreeSet<Text>>,
    tree: &Worktree,
) -> Result<(), NoMemory>
    ensures { (done : Items Worktree) → IsIndex done index.old → OnOk result (IsIndex (done ++ tree.now ∷ []) index.new) }
{
    let others = index.remove(&tree.branch);
    let directories = with_directory(alloc, others, tree.directory.try_clone()?)?;
    index.insert(tree.branch.try_clone()?, directories)?;
    Ok(())
}

/// The directories with one more, unless it is there.
fn with_directory(
    alloc: Global,
    others: Option<BTreeSet<Text>>,
    directory: Text,
) -> Result<BTreeSet<Text>, NoMemory>
    ensures { (q : Items ℕ) → IfOk result (λ set. contains name_cmp set q
        ≡ cond (is_at (name_cmp directory) q) true (option_map_or (λ other. contains name_cmp other q) others false)) }
{
    let mut directories = match others {
        Some(others) => others,
        None => BTreeSet::new(alloc),
    };
    directories.insert(directory)?;
    Ok(directories)
}

/// The directories where a branch is checked out, sorted and each once, by an index of the work trees. None where it is
/// checked out nowhere. The only error is out of memory.
pub fn directories_at(
    alloc: Global,
    worktrees: &[Worktree],
    index: &BTreeMap<FullName, BTreeSet<Text>>,
    name: &FullName,
) -> Result<Option<List<Text>>, NoMemory>
    requires { IsIndex worktrees.now index.now }
    ensures { IfOk result (λ found. MatchOption found (spec.is_checked_out worktrees.now name.now ≡ false)
        (λ list. (spec.is_checked_out worktrees.now name.now ≡ true) × (list ≡ spec.directories_of worktrees.now name.now))) }
{
    match index.get(name) {
        Some(directories) => Ok(Some(copies(alloc, directories)?)),
        None => Ok(None),
    }
}

fn copies(alloc: Global, directories: &BTreeSet<Text>) -> Result<List<Text>, NoMemory>
    ensures keys { IfOk result (λ list. list ≡ keys directories.now) }
    ensures ordered { IfOk result (λ list. IsStrictlySortedBy name_cmp list) }
{
    let mut texts = Vec::with_capacity(alloc, directories.len())?;
    'keys: for text in directories {
        texts.push(text.try_clone()?)?;
    }
    Ok(List::from(texts))
}
