//! Where tags end, each followed once.

ghost use Rattle.std.specs.Prelude.{◌≡◌, [], IfSome};
ghost use Rattle.std.specs.BTreeMap as tree;
ghost use Rattle.std.specs.FinMap as finmap;
ghost use Rattle.fetch_store.specs.Graph.{Graph};
ghost use Rattle.fetch_base.specs.Id.{id_cmp};
ghost use Rattle.fetch_refs.specs.Peeled.{through};
ghost use Rattle.fetch_refs.specs.TagEnds.{AreEnds, EndsAt};

use crate::error::RefError;
use crate::peel::{if_stored, peel_tags};
use fetch_store::{ObjectId, Objects};
use std::alloc::Global;
use std::collections::BTreeMap;
use std::marker::Model;

/// Where tags end, kept as it is found: a way along tags stops at the first one that is known, so that each tag is followed
/// once, however many references lead to it. Contracts see ids, each beside its end.
// Not copied: it only saves time, and a new one finds the same.
#[derive(Drop)]
pub struct TagEnds {
    ends: BTreeMap<ObjectId, ObjectId>,
}

impl Model for TagEnds {
    ghost use Rattle.std.specs.Prelude.{List};
    ghost use Rattle.fetch_base.specs.declared.id.ObjectId.{ObjectId};

    ghost Value = { List (ObjectId × ObjectId) };

    ghost view = { λ t. t.ends.entries };
}

impl TagEnds {
    /// Nothing is known. Takes no memory.
    pub fn new(alloc: Global) -> TagEnds
        ensures { result ≡ [] }
    {
        TagEnds {
            ends: BTreeMap::new(alloc),
        }
    }

    /// What `peel_tags` answers. The tags on the way are known then, as far as there is memory for it, and a later way over
    /// them isn't followed again. All calls are over the same objects.
    pub fn peel<O: Objects>(&mut self, objects: &O, first: ObjectId) -> Result<ObjectId, RefError>
        requires { AreEnds (O.graph objects.now) self.old }
        ensures answer { result ≡ through (O.graph objects.now) (finmap.len (O.graph objects.now)) [] first }
        ensures known { AreEnds (O.graph objects.now) self.new }
    {
        match known_end(objects, &self.ends, first) {
            Some(end) => {
                keep(objects, &mut self.ends, first, end);
                if_stored(objects, end)
            }
            None => peel_tags(objects, first),
        }
    }
}

/// The id at the end of the tags, where they come to one: at a tag that is known, or at what is no stored tag.
fn known_end<O: Objects>(
    objects: &O,
    ends: &BTreeMap<ObjectId, ObjectId>,
    first: ObjectId,
) -> Option<ObjectId>
    requires { AreEnds (O.graph objects.now) ends.now.entries }
    ensures { IfSome result (λ end. EndsAt (O.graph objects.now) first end) }
{
    let mut id = first;
    let mut left = objects.len();
    'tags: while left > 0 {
        if let Some(end) = end_at(ends, &id) {
            return Some(end);
        }
        match objects.tag_target(&id) {
            Some(target) => {
                id = target;
                left -= 1;
            }
            None => return Some(id),
        }
    }
    match objects.tag_target(&id) {
        Some(_) => None,
        None => Some(id),
    }
}

fn end_at(ends: &BTreeMap<ObjectId, ObjectId>, id: &ObjectId) -> Option<ObjectId>
    ensures { result ≡ tree.get id_cmp ends.now id.now }
{
    ends.get(id).copied()
}

/// Keeps the end of each tag on the way, up to one that is known.
fn keep<O: Objects>(
    objects: &O,
    ends: &mut BTreeMap<ObjectId, ObjectId>,
    first: ObjectId,
    end: ObjectId,
)
    requires known { AreEnds (O.graph objects.now) ends.old.entries }
    requires end { EndsAt (O.graph objects.now) first end }
    ensures { AreEnds (O.graph objects.now) ends.new.entries }
{
    let mut id = first;
    let mut left = objects.len();
    'tags: while left > 0 {
        let Some(target) = objects.tag_target(&id) else {
            return;
        };
        if !add(ends, id, end) {
            return;
        }
        id = target;
        left -= 1;
    }
}

/// Keeps the end of an id. Whether it wasn't known, and there was memory for it.
fn add(ends: &mut BTreeMap<ObjectId, ObjectId>, id: ObjectId, end: ObjectId) -> bool
    ensures { (graph : Graph) → AreEnds graph ends.old.entries → EndsAt graph id end → AreEnds graph ends.new.entries }
{
    match ends.insert(id, end) {
        Ok(old) => old.is_none(),
        Err(_) => false,
    }
}
