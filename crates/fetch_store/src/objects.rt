//! What histories are read from.

ghost use Rattle.std.specs.Prelude.{◌≡◌, [], option_map};
ghost use Rattle.std.specs.FinMap as map;
ghost use Rattle.std.specs.List.{slice_get};
ghost use Rattle.std.specs.Option.{option_and_then, option_map_or};
ghost use Rattle.fetch_store.specs.Graph.{Graph, graph_of, is_commit_at};
ghost use Rattle.fetch_objects.specs.Objects.{target_of};
ghost use Rattle.fetch_objects.specs.Objects as spec;
ghost use Rattle.fetch_objects.specs.References.{seen, parents_left};

use crate::store::Store;
use fetch_base::{ObjectId, ObjectKind};
use fetch_objects::{ObjectRef, Parents};

/// Objects by id, however they are kept.
pub trait Objects {
    /// The ids, and what each object says of its history.
    ghost graph: { Self → Graph };

    /// How many objects there are.
    fn len(&self) -> usize
        ensures { result ≡ map.len (graph self.now) };

    /// The kind of the object at the id.
    fn kind_of(&self, id: &ObjectId) -> Option<ObjectKind>
        ensures { result ≡ option_map (λ n. n.kind) (map.get (graph self.now) id.now) };

    /// A commit's parents, in order, each read once. Other objects have none.
    fn parents(&self, id: &ObjectId) -> Parents<'_>
        ensures { parents_left result ≡ option_map_or (λ n. n.parents) (map.get (graph self.now) id.now) [] };

    /// A commit's parent at an index. Those before it are read, too: who wants them all asks for `parents`.
    fn parent(&self, id: &ObjectId, index: usize) -> Option<ObjectId>
        ensures { result ≡ option_and_then (λ n. slice_get n.parents index) (map.get (graph self.now) id.now) };

    /// A commit's seconds.
    fn seconds(&self, id: &ObjectId) -> Option<u64>
        ensures { result ≡ option_and_then (λ n. n.seconds) (map.get (graph self.now) id.now) };

    /// The object that a tag names.
    fn tag_target(&self, id: &ObjectId) -> Option<ObjectId>
        ensures { result ≡ option_and_then (λ n. n.target) (map.get (graph self.now) id.now) };

    /// Whether a commit stands at the id.
    fn is_commit(&self, id: &ObjectId) -> bool
        ensures { result ≡ is_commit_at (graph self.now) id.now }
    {
        match self.kind_of(id) {
            Some(kind) => kind.is_commit(),
            None => false,
        }
    }
}

impl Objects for Store {
    ghost graph = { λ s. graph_of s.objects };

    fn len(&self) -> usize {
        self.len()
    }

    fn kind_of(&self, id: &ObjectId) -> Option<ObjectKind> {
        match self.get(id) {
            Some(object) => Some(object.kind()),
            None => None,
        }
    }

    fn parents(&self, id: &ObjectId) -> Parents<'_> {
        match self.get(id) {
            Some(object) => Parents::Text(object.parents()),
            None => Parents::Ids(None, &[]),
        }
    }

    fn parent(&self, id: &ObjectId, index: usize) -> Option<ObjectId> {
        match self.get(id) {
            Some(object) => parent_at(&object, index),
            None => None,
        }
    }

    fn seconds(&self, id: &ObjectId) -> Option<u64> {
        match self.get(id) {
            Some(object) => object.seconds(),
            None => None,
        }
    }

    fn tag_target(&self, id: &ObjectId) -> Option<ObjectId> {
        match self.get(id) {
            Some(object) => target(&object),
            None => None,
        }
    }
}

fn parent_at(object: &ObjectRef<'_>, index: usize) -> Option<ObjectId>
    ensures { let o = seen object.now in result ≡ slice_get (spec.parents_of o.hash o.kind o.bytes) index }
{
    let mut parents = object.parents();
    parents.nth(index)
}

/// Of a tag what it is of, and of another object nothing.
pub(crate) fn target(object: &ObjectRef<'_>) -> Option<ObjectId>
    ensures { result ≡ target_of (seen object.now) }
{
    match object.kind() {
        ObjectKind::Tag => object.links().next(),
        _ => None,
    }
}
