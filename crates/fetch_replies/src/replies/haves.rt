//! The haves of a request, and ids that are told once.

ghost use Rattle.std.specs.Prelude.{◌≡◌, IfOk};
ghost use Rattle.fetch_lines.specs.KnownIds.{HasIds, each_once};

use fetch_base::{Distinct, List, NoMemory, ObjectId, TryClone};
use std::alloc::Global;
use std::collections::BTreeSet;
use std::marker::Model;

/// The haves of a request. An id is found among them in the logarithm of how many there are. Contracts see them as they
/// are told.
#[derive(Debug, Drop)]
pub struct Haves {
    ids: List<ObjectId>,
    known: BTreeSet<ObjectId>,
}

impl Model for Haves {
    ghost use Rattle.std.specs.Prelude.{List};
    ghost use Rattle.fetch_base.specs.declared.id.ObjectId.{ObjectId as Id};
    ghost use Rattle.fetch_lines.specs.KnownIds.{HasIds};

    ghost Value = { List Id };

    ghost view = { λ h. h.ids };

    ghost invariant = { λ h. HasIds h.known h.ids };
}

impl Haves {
    ghost use Rattle.std.specs.Prelude.{◌≡◌, IfOk};
    ghost use Rattle.fetch_lines.specs.KnownIds.{has_id};

    /// These ids.
    pub fn new(ids: List<ObjectId>) -> Result<Haves, NoMemory>
        ensures { IfOk result (λ haves. haves ≡ ids) }
    {
        let known = set_of(ids.allocator(), ids.as_slice())?;
        Ok(Haves { ids, known })
    }

    /// Whether an id is one of them.
    pub fn contains(&self, id: &ObjectId) -> bool
        ensures { result ≡ has_id id.now self.now }
    {
        self.known.contains(id)
    }

    /// The ids, in the order in which they are told.
    pub fn as_slice(&self) -> &[ObjectId]
        ensures { result.now ≡ self.now }
    {
        self.ids.as_slice()
    }

    /// Equal haves.
    pub fn try_clone(&self) -> Result<Haves, NoMemory>
        ensures { IfOk result (λ copy. copy ≡ self.now) }
    {
        Ok(Haves {
            ids: self.ids.try_clone()?,
            known: self.known.clone()?,
        })
    }
}

/// The ids as a set.
fn set_of(alloc: Global, ids: &[ObjectId]) -> Result<BTreeSet<ObjectId>, NoMemory>
    ensures { IfOk result (λ known. HasIds known ids.now) }
{
    let mut known = BTreeSet::new(alloc);
    for id in ids {
        known.insert(*id)?;
    }
    Ok(known)
}

/// Each id once, where it comes first. It takes time in the logarithm of how many there are for each.
pub fn each_once(alloc: Global, ids: &[ObjectId]) -> Result<Vec<ObjectId>, NoMemory>
    ensures { IfOk result (λ once. once.items ≡ each_once ids.now) }
{
    let mut once: Distinct<ObjectId, ObjectId> = Distinct::new(alloc);
    for id in ids {
        once.add(*id)?;
    }
    Ok(once.into_vec())
}
