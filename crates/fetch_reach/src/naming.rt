//! Whether what is stored stands at its own ids.

ghost use Rattle.std.specs.Prelude.{MatchOption};
ghost use Rattle.fetch_reach.specs.Named.{AreObjects, AreOwnIds, IsFirstMisnamed};

use fetch_store::{ObjectId, Store, id_of, same_id};

/// The least stored id that isn't its object's hash. A store takes ids as they are given, so who got objects otherwise
/// than from `read_pack` asks here. It hashes all objects up to that one, and takes no memory.
pub fn first_misnamed(store: &Store) -> Option<ObjectId>
    ensures { MatchOption result (AreOwnIds store.now.objects) (λ id. IsFirstMisnamed store.now.objects id) }
{
    let mut objects = store.iter();
    while let Some((id, object)) = objects.next() {
        let own = id_of(store.kind(), object.kind(), object.bytes());
        if !same_id(&id, &own) {
            return Some(id);
        }
    }
    None
}

/// A fact about any store, which its own contract tells of one object at a time: each stored object is in the grammar of
/// its kind.
pub fn stored_objects_are_objects(store: &Store)
    ensures { AreObjects store.now.objects }
{
    let _objects = store.iter();
}
