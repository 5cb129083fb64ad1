//! The work trees of a scene.

ghost use Rattle.std.specs.Prelude.{◌≡◌, IfOk};
ghost use Rattle.fetch_scene.specs.LineKinds.{worktree_in, worktree_of};

use crate::line_reader::ReadsLine;
use crate::lines::Placed;
use crate::names::full_name;
use fetch_store::{NoMemory, Text, split_first};
use fetch_update::Worktree;
use std::alloc::Global;

#[tactic(auto, unfolding(crate::specs::LineKinds::worktree_in))]
fn branch_in_directory(alloc: Global, value: &[u8]) -> Result<Option<Worktree>, NoMemory>
    ensures { IfOk result (λ found. found ≡ worktree_in value.now) }
{
    let Some((branch, directory)) = split_first(b' ', value) else {
        return Ok(None);
    };
    let Some(branch) = full_name(alloc, branch)? else {
        return Ok(None);
    };
    Ok(Some(Worktree {
        branch,
        directory: Text::new(alloc, directory)?,
    }))
}

/// A line that tells a work tree.
#[derive(Drop)]
pub(crate) struct WorktreeLine;

impl ReadsLine for WorktreeLine {
    type Item = Worktree;

    ghost gives = { λ _. worktree_of };

    #[tactic(auto, unfolding(crate::specs::LineKinds::worktree_of))]
    fn read_line(&self, alloc: Global, line: &Placed<'_>) -> Result<Option<Worktree>, NoMemory> {
        match line.value(b"worktree ") {
            Some(value) => branch_in_directory(alloc, value),
            None => Ok(None),
        }
    }
}
