//! Worktrees that follow a script.

ghost use Rattle.std.specs.Prelude.{◌≡◌, ◌<◌, Some, IsSome, IfOk, IfSome, IsErrOf, IsOkUnless, MatchOption, OnOk, Err, length, nat_lt};
ghost use Rattle.fetch_base.specs.Calls.{one_more};
ghost use Rattle.fetch_base.specs.Faults.{Counts, Rose};
ghost use Rattle.fetch_update.specs.Scripts.{listed_for, fault_at, after_call, faults_of};
ghost use Rattle.fetch_update.specs.declared.worktrees.WorktreeFault.TheVariants as errors;

use crate::worktrees::{Worktree, WorktreeFault, Worktrees};
use fetch_store::{List, NoMemory};
use std::marker::Model;

/// A list of worktrees. The calls whose numbers are listed fail, each with the fault that is listed
/// for it first, where numbers count the calls from 0. A listed out of memory is no fault: it raises no count.
#[derive(Debug, Drop)]
pub struct ScriptedWorktrees {
    list: List<Worktree>,
    failing: Vec<(u64, WorktreeFault)>,
    next: u64,
    listing: u64,
    open_repo: u64,
    follow_symref: u64,
}

impl Model for ScriptedWorktrees {
    ghost use Rattle.fetch_update.specs.Scripts.{Script};

    ghost Value = { Script };

    ghost view = { λ s. record {
      list = s.list;
      failing = s.failing.items;
      next = s.next;
      listing = s.listing;
      open_repo = s.open_repo;
      follow_symref = s.follow_symref;
    } };
}

impl ScriptedWorktrees {
    /// This list, of which the calls with these numbers fail.
    pub fn new(list: Vec<Worktree>, failing: Vec<(u64, WorktreeFault)>) -> ScriptedWorktrees
        ensures script { result ≡ record {
          list = list.items;
          failing = failing.items;
          next = 0;
          listing = 0;
          open_repo = 0;
          follow_symref = 0;
        } }
        ensures asked { ⟦<ScriptedWorktrees as Worktrees>⟧.asked result ≡ 0 }
        ensures told { ⟦<ScriptedWorktrees as Worktrees>⟧.told result ≡ Some list.items }
        ensures listing { ⟦<ScriptedWorktrees as Worktrees>⟧.listing result
            ≡ record { count = 0; possible = nat_lt 0 (length failing.items) } }
        ensures open_repo { ⟦<ScriptedWorktrees as Worktrees>⟧.open_repo result
            ≡ record { count = 0; possible = nat_lt 0 (length failing.items) } }
        ensures follow_symref { ⟦<ScriptedWorktrees as Worktrees>⟧.follow_symref result
            ≡ record { count = 0; possible = nat_lt 0 (length failing.items) } }
    {
        ScriptedWorktrees {
            list: List::from(list),
            failing,
            next: 0,
            listing: 0,
            open_repo: 0,
            follow_symref: 0,
        }
    }

    /// Worktrees that were asked as often, and fail at the same calls.
    pub fn try_clone(&self) -> Result<ScriptedWorktrees, NoMemory>
        ensures { IfOk result (λ copy. copy ≡ self.now) }
    {
        Ok(ScriptedWorktrees {
            list: self.list.try_clone_with(Worktree::try_clone)?,
            failing: self.failing.clone()?,
            next: self.next,
            listing: self.listing,
            open_repo: self.open_repo,
            follow_symref: self.follow_symref,
        })
    }
}

impl Worktrees for ScriptedWorktrees {
    ghost listing = { λ s. faults_of s s.listing };

    ghost open_repo = { λ s. faults_of s s.open_repo };

    ghost follow_symref = { λ s. faults_of s s.follow_symref };

    ghost asked = { λ s. s.next };

    ghost told = { λ s. Some s.list };

    /// The list, or the fault that is listed for this call.
    fn list(&mut self) -> Result<Vec<Worktree>, WorktreeFault>
        ensures fails { MatchOption (fault_at self.old) (IsOkUnless result errors.NoMemory) (λ fault. result ≡ Err fault) }
        ensures list { IfOk result (λ list. list.items ≡ self.old.list) }
        ensures after { self.new ≡ after_call self.old }
        ensures asked { self.new.next ≡ one_more self.old.next }
        ensures still { OnOk result (self.new ≡ record self.old { next = one_more self.old.next }) }
        ensures listing_counts { Counts (faults_of self.old self.old.listing) (faults_of self.new self.new.listing) }
        ensures open_repo_counts { Counts (faults_of self.old self.old.open_repo) (faults_of self.new self.new.open_repo) }
        ensures follow_symref_counts { Counts (faults_of self.old self.old.follow_symref) (faults_of self.new self.new.follow_symref) }
        ensures listing_cause { IsErrOf result WorktreeFault.Listing
            → Rose (faults_of self.old self.old.listing) (faults_of self.new self.new.listing) }
        ensures open_repo_cause { IsErrOf result WorktreeFault.OpenRepo
            → Rose (faults_of self.old self.old.open_repo) (faults_of self.new self.new.open_repo) }
        ensures follow_symref_cause { IsErrOf result WorktreeFault.FollowSymref
            → Rose (faults_of self.old self.old.follow_symref) (faults_of self.new self.new.follow_symref) }
    {
        let fault = listed_for(&self.failing, self.next);
        self.next = self.next.saturating_add(1);
        match fault {
            Some(WorktreeFault::Listing) => {
                self.listing = self.listing.saturating_add(1);
                Err(WorktreeFault::Listing)
            }
            Some(WorktreeFault::OpenRepo) => {
                self.open_repo = self.open_repo.saturating_add(1);
                Err(WorktreeFault::OpenRepo)
            }
            Some(WorktreeFault::FollowSymref) => {
                self.follow_symref = self.follow_symref.saturating_add(1);
                Err(WorktreeFault::FollowSymref)
            }
            Some(WorktreeFault::NoMemory) | None => copy(&self.list),
        }
    }
}

/// What is listed first for a call.
fn listed_for(failing: &[(u64, WorktreeFault)], call: u64) -> Option<WorktreeFault>
    ensures listed { result ≡ listed_for failing.now call }
    ensures some { IsSome result → 0 < length failing.now }
{
    'faults: for (number, fault) in failing {
        if *number == call {
            return Some(*fault);
        }
    }
    None
}

fn copy(list: &List<Worktree>) -> Result<Vec<Worktree>, WorktreeFault>
    ensures list { IfOk result (λ copy. copy.items ≡ list.now) }
    ensures memory { IsOkUnless result errors.NoMemory }
{
    match list.try_clone_with(Worktree::try_clone) {
        Ok(copy) => Ok(copy.into_vec()),
        Err(NoMemory) => Err(WorktreeFault::NoMemory),
    }
}
