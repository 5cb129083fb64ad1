//! What a shared repository tells of itself.

ghost use Rattle.std.specs.Prelude.{◌≡◌, IfOk};

use fetch_refs::Refs;
use fetch_store::{Border, Graph, List, NoMemory, ObjectId, TryClone};
use std::alloc::Global;

/// What a fetch asks with.
#[derive(Drop)]
pub struct Plan {
    /// How many entries the journal had.
    pub place: u64,
    /// The ids that are asked for, in the order of the mappings and each once.
    pub wants: List<ObjectId>,
    /// The commits whose parents were left out.
    pub border: Border,
    /// The stored commits that references peel to, in ascending order and each once.
    pub tips: List<ObjectId>,
    /// The graph of what was stored.
    pub graph: Graph,
}

impl Plan {
    /// An equal plan.
    pub fn try_clone(&self, alloc: Global) -> Result<Plan, NoMemory>
        ensures { IfOk result (λ copy. copy ≡ self.now) }
    {
        Ok(Plan {
            place: self.place,
            wants: self.wants.try_clone()?,
            border: self.border.try_clone()?,
            tips: self.tips.try_clone()?,
            graph: self.graph.try_clone(alloc)?,
        })
    }
}

/// What a fetch judges by.
#[derive(Drop)]
pub struct Taken {
    /// How many entries the journal had.
    pub place: u64,
    /// The references, with their reflogs.
    pub refs: Refs,
    /// The graph of what was stored.
    pub graph: Graph,
}

impl Taken {
    /// An equal value.
    pub fn try_clone(&self, alloc: Global) -> Result<Taken, NoMemory>
        ensures { IfOk result (λ copy. copy ≡ self.now) }
    {
        Ok(Taken {
            place: self.place,
            refs: self.refs.try_clone()?,
            graph: self.graph.try_clone(alloc)?,
        })
    }
}
