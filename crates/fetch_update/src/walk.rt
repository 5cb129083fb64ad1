//! A walk over commits by their parents, those of the latest seconds first.

ghost use Rattle.std.specs.Prelude.{◌≡◌, ◌+◌, ◌≤◌, true, false, [], ◌∷◌, length, IsTrue, IfOk, OnOk, OnErr, MatchOption, Contains};
ghost use Rattle.fetch_update.specs.Dated.{IsCommit, parents_at};
ghost use Rattle.fetch_update.specs.Walks.{state, has, Grows, Keeps, Pops, IsDone, room, work};

use crate::commits::{read_commit, read_parent};
use fetch_store::{NoMemory, ObjectId, Objects, Steps, same_id};
use std::alloc::Global;
use std::collections::{BTreeSet, BinaryHeap};
use std::sync::ledger::Ledger;

/// The ids seen, and the commits whose parents are still to be read.
#[derive(Drop)]
pub(crate) struct Walk {
    limit: u64,
    seen: BTreeSet<ObjectId>,
    waiting: BinaryHeap<(u64, ObjectId)>,
}

impl Walk {
    /// A walk that passes over commits of fewer seconds, and over the one that it is to end at.
    pub fn new(alloc: Global, limit: u64, to: ObjectId) -> Result<Walk, NoMemory>
        ensures limit { IfOk result (λ w. w.limit ≡ limit) }
        ensures seen { IfOk result (λ w. (state w).seen ≡ to ∷ []) }
        ensures waiting { IfOk result (λ w. (state w).waiting ≡ []) }
    {
        let mut seen = BTreeSet::new(alloc);
        seen.insert(to)?;
        Ok(Walk {
            limit,
            seen,
            waiting: BinaryHeap::new(alloc),
        })
    }

    /// The latest commit that waits.
    pub fn pop(&mut self) -> Option<ObjectId>
        ensures limit { self.new.limit ≡ self.old.limit }
        ensures seen { (state self.new).seen ≡ (state self.old).seen }
        ensures popped { MatchOption result ((state self.old).waiting ≡ []) (λ id. Pops (state self.old) id (state self.new)) }
    {
        match self.waiting.pop() {
            Some((_, id)) => Some(id),
            None => None,
        }
    }

    /// Looks at an id, unless it was seen: a commit that isn't below the limit waits from then on.
    pub fn discover<O: Objects, L: Ledger>(
        &mut self,
        objects: &O,
        id: ObjectId,
        steps: &mut Steps<L>,
    ) -> Result<(), NoMemory>
        ensures limit { self.new.limit ≡ self.old.limit }
        ensures seen { OnOk result (has (state self.new).seen id ≡ true) }
        ensures grows { OnOk result (Grows (O.graph objects.now) self.old.limit (id ∷ []) (state self.old) (state self.new)) }
        ensures cost { steps.new + room (O.graph objects.now) (state self.new) ≤ steps.old + room (O.graph objects.now) (state self.old) }
        ensures work { OnOk result (work (O.graph objects.now) (state self.new) ≤ work (O.graph objects.now) (state self.old)) }
        ensures rises { steps.old ≤ steps.new }
    {
        let is_new = self.seen.insert(id)?;
        if is_new {
            match read_commit(objects, &id, steps) {
                Some(seconds) => self.keep(seconds, id),
                None => Ok(()),
            }
        } else {
            Ok(())
        }
    }

    fn keep(&mut self, seconds: u64, id: ObjectId) -> Result<(), NoMemory>
        ensures limit { self.new.limit ≡ self.old.limit }
        ensures seen { (state self.new).seen ≡ (state self.old).seen }
        ensures keeps { OnOk result (Keeps self.old.limit seconds id (state self.old).waiting (state self.new).waiting) }
        ensures err { OnErr result ((state self.new).waiting ≡ (state self.old).waiting) }
    {
        if self.limit <= seconds {
            self.waiting.push((seconds, id))?;
        }
        Ok(())
    }

    /// Looks at a commit's parents, and answers whether one of them is the end.
    pub fn expand<O: Objects, L: Ledger>(
        &mut self,
        objects: &O,
        id: &ObjectId,
        to: &ObjectId,
        steps: &mut Steps<L>,
    ) -> Result<bool, NoMemory>
        requires { IsCommit (O.graph objects.now) id.now }
        ensures limit { self.new.limit ≡ self.old.limit }
        ensures found { IfOk result (λ found. IsTrue found → Contains (parents_at (O.graph objects.now) id.now) to.now) }
        ensures done { IfOk result (λ found. found ≡ false → IsDone (O.graph objects.now) to.now (state self.new) id.now) }
        ensures grows { OnOk result (Grows (O.graph objects.now) self.old.limit (parents_at (O.graph objects.now) id.now) (state self.old)
            (state self.new)) }
        ensures cost { steps.new + room (O.graph objects.now) (state self.new)
            ≤ steps.old + room (O.graph objects.now) (state self.old) + length (parents_at (O.graph objects.now) id.now) }
        ensures work { OnOk result (work (O.graph objects.now) (state self.new) ≤ work (O.graph objects.now) (state self.old)) }
        ensures rises { steps.old ≤ steps.new }
    {
        let mut parents = objects.parents(id);
        while let Some(parent) = read_parent(&mut parents, steps) {
            if same_id(&parent, to) {
                return Ok(true);
            }
            self.discover(objects, parent, steps)?;
        }
        Ok(false)
    }
}
