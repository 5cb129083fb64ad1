//! The work trees of a repository.

ghost use Rattle.std.specs.Prelude.{◌≡◌, ◌++◌, IfOk, OnOk, Some, [], false};
ghost use Rattle.fetch_host.specs.Heads.{head, head_target, main_worktrees, worktrees_at};

use fetch_refs::{Refs, TargetRef};
use fetch_remote::Repository;
use fetch_specs::FullName;
use fetch_store::{List, NoMemory, Text};
use fetch_update::{Worktree, WorktreeFault, Worktrees};
use std::alloc::Global;

/// No work tree, as a bare repository without further ones has. It counts how often it was asked.
// Not copied: it counts one caller's questions.
#[derive(Debug, Drop)]
pub struct NoWorktrees {
    alloc: Global,
    asked: u64,
}

impl NoWorktrees {
    /// No work tree. It wasn't asked yet.
    pub fn new(alloc: Global) -> NoWorktrees
        ensures { ⟦<NoWorktrees as Worktrees>⟧.asked result ≡ 0 }
    {
        NoWorktrees { alloc, asked: 0 }
    }
}

impl Worktrees for NoWorktrees {
    ghost listing = { λ _. record { count = 0; possible = false } };

    ghost open_repo = { λ _. record { count = 0; possible = false } };

    ghost follow_symref = { λ _. record { count = 0; possible = false } };

    ghost asked = { λ s. s.asked };

    ghost told = { λ _. Some [] };

    fn list(&mut self) -> Result<Vec<Worktree>, WorktreeFault> {
        self.asked = self.asked.saturating_add(1);
        Ok(Vec::new(self.alloc))
    }
}

/// The main work tree of a repository, with the name that its `HEAD` led to when it was looked at. It knows of no further
/// ones, and counts how often it was asked.
// Not copied: it counts one caller's questions.
#[derive(Debug, Drop)]
pub struct MainWorktree {
    list: List<Worktree>,
    asked: u64,
}

impl MainWorktree {
    /// The work tree of this repository, if it has one and its `HEAD` leads to a name, born or unborn.
    #[tactic(auto, unfolding(crate::specs::Heads::main_worktrees))]
    pub fn of(alloc: Global, repo: &Repository) -> Result<MainWorktree, NoMemory>
        ensures told { IfOk result (λ trees. ⟦<MainWorktree as Worktrees>⟧.told trees ≡ Some (main_worktrees repo.now)) }
        ensures asked { IfOk result (λ trees. ⟦<MainWorktree as Worktrees>⟧.asked trees ≡ 0) }
    {
        let mut list = Vec::new(alloc);
        if let Some(directory) = repo.workdir() {
            push_head(alloc, &mut list, repo.refs(), directory)?;
        }
        Ok(MainWorktree {
            list: List::from(list),
            asked: 0,
        })
    }
}

/// Adds what `HEAD` leads to, as checked out in this directory.
fn push_head(
    alloc: Global,
    list: &mut Vec<Worktree>,
    refs: &Refs,
    directory: &[u8],
) -> Result<(), NoMemory>
    ensures { OnOk result (list.new.items ≡ list.old.items ++ worktrees_at directory.now (head_target refs.now)) }
{
    let head = head_name(alloc)?;
    if let Some(TargetRef::Symbolic(name)) = refs.find(&head) {
        list.push(Worktree {
            branch: name.try_clone()?,
            directory: Text::new(alloc, directory)?,
        })?;
    }
    Ok(())
}

#[tactic(auto, unfolding(crate::specs::Heads::head))]
fn head_name(alloc: Global) -> Result<FullName, NoMemory>
    ensures { IfOk result (λ name. name ≡ head) }
{
    match FullName::new(alloc, b"HEAD") {
        Ok(name) => Ok(name),
        Err(_) => Err(NoMemory),
    }
}

impl Worktrees for MainWorktree {
    ghost listing = { λ _. record { count = 0; possible = false } };

    ghost open_repo = { λ _. record { count = 0; possible = false } };

    ghost follow_symref = { λ _. record { count = 0; possible = false } };

    ghost asked = { λ s. s.asked };

    ghost told = { λ s. Some s.list };

    fn list(&mut self) -> Result<Vec<Worktree>, WorktreeFault> {
        self.asked = self.asked.saturating_add(1);
        match self.list.try_clone_with(Worktree::try_clone) {
            Ok(copy) => Ok(copy.into_vec()),
            Err(NoMemory) => Err(WorktreeFault::NoMemory),
        }
    }
}
