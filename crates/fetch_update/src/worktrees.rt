//! The worktrees of a repository.

ghost use Rattle.std.specs.Prelude.{◌≡◌, ℕ, IfOk, IfSome, IsErrOf, None, List as Items, Option};
ghost use Rattle.fetch_base.specs.Calls.{one_more};
ghost use Rattle.fetch_base.specs.Faults.{Faults, Rose, Counts};

use fetch_specs::FullName;
use fetch_store::{NoMemory, Text};
use thiserror::Error;

/// A branch, and the directory in which it is checked out.
#[derive(Debug, Drop)]
pub struct Worktree {
    /// The branch.
    pub branch: FullName,
    /// The directory, as it is told.
    pub directory: Text,
}

impl Worktree {
    /// An equal pair.
    pub fn try_clone(&self) -> Result<Worktree, NoMemory>
        ensures { IfOk result (λ copy. copy ≡ self.now) }
    {
        Ok(Worktree {
            branch: self.branch.try_clone()?,
            directory: self.directory.try_clone()?,
        })
    }
}

/// Why worktrees couldn't be listed.
#[derive(Clone, Copy, Debug, PartialEq, Eq, Error)]
pub enum WorktreeFault {
    /// They couldn't be listed.
    #[error("the worktrees couldn't be listed")]
    Listing,
    /// The repository of one couldn't be opened.
    #[error("the repository of a worktree couldn't be opened")]
    OpenRepo,
    /// The head of one couldn't be followed.
    #[error("the head of a worktree couldn't be followed")]
    FollowSymref,
    /// Memory ran out.
    #[error("out of memory")]
    NoMemory,
}

/// The work trees of a repository, however they are found. The main one has to be told too: which branches are checked
/// out is asked of this list alone, and never of `HEAD`. With an empty list nothing is checked out.
pub trait Worktrees {
    ghost use Rattle.fetch_update.specs.declared.worktrees.Worktree.{Worktree};

    /// How often the listing failed, by its phase.
    ghost listing: { Self → Faults };

    ghost open_repo: { Self → Faults };

    ghost follow_symref: { Self → Faults };

    /// How often the list was asked for.
    ghost asked: { Self → ℕ };

    /// The list, where it is known.
    ghost told: { Self → Option (Items Worktree) };

    /// The branches that are checked out, and where, that of the main work tree among them. It is asked once a fetch, after
    /// the objects were taken and before the first verdict.
    fn list(&mut self) -> Result<Vec<Worktree>, WorktreeFault>
        ensures listing_counts { Counts (listing self.old) (listing self.new) }
        ensures open_repo_counts { Counts (open_repo self.old) (open_repo self.new) }
        ensures follow_symref_counts { Counts (follow_symref self.old) (follow_symref self.new) }
        ensures listing_cause { IsErrOf result WorktreeFault.Listing → Rose (listing self.old) (listing self.new) }
        ensures open_repo_cause { IsErrOf result WorktreeFault.OpenRepo → Rose (open_repo self.old) (open_repo self.new) }
        ensures follow_symref_cause { IsErrOf result WorktreeFault.FollowSymref → Rose (follow_symref self.old) (follow_symref self.new) }
        ensures list { IfOk result (λ list. IfSome (told self.old) (λ known. list.items ≡ known)) }
        ensures asked { asked self.new ≡ one_more (asked self.old) }
        ensures known { told self.new ≡ told self.old };
}
