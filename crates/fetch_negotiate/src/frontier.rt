//! The commits that may be told next.

ghost use Rattle.std.specs.Prelude.{◌≡◌, ◌≤◌, true, [], ◌∷◌, ◌++◌, IfOk, IfSome, IfNone, OnOk, OnErr, length, is_some};
ghost use Rattle.std.specs.Option.{option_map_or};
ghost use Rattle.fetch_negotiate.specs.Commits.{has};
ghost use Rattle.fetch_negotiate.specs.Copies.{IsSameFrontier};
ghost use Rattle.fetch_negotiate.specs.Queues.{IsFrontierIn, IsFront, IsNone, seconds_at, tips_in};
ghost use Rattle.fetch_negotiate.specs.Reading.{Grows, IsTold, commit_at, links_at, read_in};
ghost use Rattle.fetch_negotiate.specs.Sharing.{IsMarked};

use crate::commits::{Table, read};
use crate::common::Common;
use crate::links::links;
use fetch_store::{Border, NoMemory, ObjectId, Objects};
use std::alloc::Global;
use std::cmp::Reverse;
use std::collections::BTreeSet;

/// The candidates: the tips, and the parents of the commits taken. The first `entered` of them went into the queue, so
/// far as they are stored commits. The latest commit is at its front, and of two that are as late the smaller id.
#[derive(Debug, Drop)]
pub(crate) struct Frontier {
    pub(crate) tips: usize,
    pub(crate) candidates: Vec<ObjectId>,
    pub(crate) entered: usize,
    pub(crate) queue: BTreeSet<(Reverse<u64>, ObjectId)>,
    pub(crate) taken: Vec<ObjectId>,
    pub(crate) told: BTreeSet<ObjectId>,
}

impl Frontier {
    /// The tips alone.
    pub(crate) fn new(alloc: Global, tips: &[ObjectId]) -> Result<Frontier, NoMemory>
        ensures tips { IfOk result (λ frontier. frontier.tips ≡ length tips.now) }
        ensures candidates { IfOk result (λ frontier. frontier.candidates.items ≡ tips.now) }
        ensures entered { IfOk result (λ frontier. frontier.entered ≡ 0) }
        ensures queue { IfOk result (λ frontier. frontier.queue.keys ≡ []) }
        ensures taken { IfOk result (λ frontier. frontier.taken.items ≡ []) }
        ensures told { IfOk result (λ frontier. frontier.told.keys ≡ []) }
    {
        Ok(Frontier {
            tips: tips.len(),
            candidates: Vec::from_slice(alloc, tips)?,
            entered: 0,
            queue: BTreeSet::new(alloc),
            taken: Vec::new(alloc),
            told: BTreeSet::new(alloc),
        })
    }

    /// An equal frontier.
    pub(crate) fn try_clone(&self) -> Result<Frontier, NoMemory>
        ensures { IfOk result (λ copy. IsSameFrontier copy self.now) }
    {
        Ok(Frontier {
            tips: self.tips,
            candidates: self.candidates.clone()?,
            entered: self.entered,
            queue: self.queue.clone()?,
            taken: self.taken.clone()?,
            told: self.told.clone()?,
        })
    }
}

/// The seconds of a commit that was read.
fn seconds(table: &Table, id: &ObjectId) -> u64
    ensures { result ≡ seconds_at (read_in table.now) id.now }
{
    match table.get(id) {
        Some(Some(commit)) => commit.seconds,
        Some(None) => 0,
        None => 0,
    }
}

/// Reads each candidate, and puts it into the queue where it is a stored commit.
pub(crate) fn enter<O: Objects>(
    frontier: &mut Frontier,
    table: &mut Table,
    border: &Border,
    common: &Common,
    alloc: Global,
    objects: &O,
) -> Result<(), NoMemory>
    requires frontier { IsFrontierIn (read_in table.old) border.now common.now.commits.items frontier.old }
    requires told { IsTold (read_in table.old) (O.graph objects.now) }
    ensures frontier { IsFrontierIn (read_in table.new) border.now common.now.commits.items frontier.new }
    ensures told { IsTold (read_in table.new) (O.graph objects.now) }
    ensures grows { Grows (read_in table.old) (read_in table.new) }
    ensures tips { frontier.new.tips ≡ frontier.old.tips }
    ensures candidates { frontier.new.candidates ≡ frontier.old.candidates }
    ensures taken { frontier.new.taken ≡ frontier.old.taken }
    ensures entered { OnOk result (length frontier.new.candidates.items ≤ frontier.new.entered) }
{
    'candidates: while frontier.entered < frontier.candidates.len() {
        let id = frontier.candidates[frontier.entered];
        let stored = read(table, alloc, objects, &id)?;
        if stored {
            frontier.queue.insert((Reverse(seconds(table, &id)), id))?;
        }
        frontier.entered += 1;
    }
    Ok(())
}

/// What stands at the front of the queue.
pub(crate) fn front(queue: &BTreeSet<(Reverse<u64>, ObjectId)>) -> Option<(Reverse<u64>, ObjectId)>
    ensures found { IfSome result (λ r. IsFront queue.now r) }
    ensures none { IfNone result (IsNone queue.now) }
{
    match queue.first() {
        Some(rank) => Some(*rank),
        None => None,
    }
}

/// Takes a commit, whose parents are candidates from then on.
pub(crate) fn take_one(
    frontier: &mut Frontier,
    table: &Table,
    border: &Border,
    common: &Common,
    id: &ObjectId,
) -> Result<(), NoMemory>
    requires frontier { IsFrontierIn (read_in table.now) border.now common.now.commits.items frontier.old }
    requires read { is_some (commit_at (read_in table.now) id.now) ≡ true }
    ensures frontier { IsFrontierIn (read_in table.now) border.now common.now.commits.items frontier.new }
    ensures tips { tips_in frontier.new ≡ tips_in frontier.old }
    ensures ok { OnOk result (frontier.new.taken.items ≡ frontier.old.taken.items ++ id.now ∷ []) }
    ensures err { OnErr result (frontier.new.taken.items ≡ frontier.old.taken.items) }
{
    let links = links(table, border, id);
    frontier.taken.reserve(1)?;
    frontier.candidates.reserve(links.len())?;
    frontier.told.insert(*id)?;
    frontier.taken.push_reserved(*id);
    frontier.candidates.extend_from_slice(links)?;
    Ok(())
}
