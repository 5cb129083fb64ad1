//! Objects that collide.

ghost use Rattle.std.specs.Prelude.{◌≡◌, IfOk, option_map};
ghost use Rattle.std.specs.BTreeMap as tree;
ghost use Rattle.std.specs.FinMap as map;
ghost use Rattle.std.specs.Option.{option_copied};
ghost use Rattle.fetch_store.specs.Collisions.{HasDistinctIds};
ghost use Rattle.fetch_objects.specs.References.{seen};
ghost use Rattle.fetch_store.specs.Stores as spec;
ghost use Rattle.fetch_store.specs.Stores.{first_some, collision};
ghost use Rattle.fetch_base.specs.Id.{id_cmp};

use crate::fronts::are_apart;
use crate::store::Store;
use fetch_base::{NoMemory, ObjectId, same_id};
use fetch_objects::{Object, ObjectRef};
use std::alloc::Global;
use std::collections::BTreeMap;

/// The first id of the list that has another object in the store or earlier in the list.
pub(crate) fn first_collision(
    alloc: Global,
    store: &Store,
    objects: &[(ObjectId, Object)],
) -> Option<ObjectId>
    ensures { result ≡ collision store.now.objects objects.now }
{
    match are_apart(alloc, objects) {
        Ok(true) => first_collision_of_distinct(store, objects),
        _ => first_collision_of_doubles(alloc, store, objects),
    }
}

/// Where no id comes twice in the list, only the store can have another object.
pub(crate) fn first_collision_of_distinct(
    store: &Store,
    objects: &[(ObjectId, Object)],
) -> Option<ObjectId>
    requires { HasDistinctIds objects.now }
    ensures { result ≡ collision store.now.objects objects.now }
{
    for (id, object) in objects {
        if clashes(store.get(id), object) {
            return Some(*id);
        }
    }
    None
}

/// Where ids may come twice in the list, or there was no memory to look for them.
fn first_collision_of_doubles(
    alloc: Global,
    store: &Store,
    objects: &[(ObjectId, Object)],
) -> Option<ObjectId>
    ensures { result ≡ collision store.now.objects objects.now }
{
    match first_collision_by_index(alloc, store, objects) {
        Ok(found) => found,
        Err(_) => first_collision_by_walk(store, objects),
    }
}

/// Keeps what came earlier in the list in an ordered map, for which there may be no memory.
fn first_collision_by_index(
    alloc: Global,
    store: &Store,
    objects: &[(ObjectId, Object)],
) -> Result<Option<ObjectId>, NoMemory>
    ensures { IfOk result (λ found. found ≡ collision store.now.objects objects.now) }
{
    let mut earlier = BTreeMap::new(alloc);
    for (id, object) in objects {
        let known = find_in_store_or_index(store, &earlier, id);
        if clashes(known, object) {
            return Ok(Some(*id));
        }
        if known.is_none() {
            earlier.insert(*id, object)?;
        }
    }
    Ok(None)
}

fn find_in_store_or_index<'a>(
    store: &'a Store,
    index: &BTreeMap<ObjectId, &'a Object>,
    id: &ObjectId,
) -> Option<ObjectRef<'a>>
    ensures { option_map seen result ≡ first_some (map.get store.now.objects id.now) (option_copied (tree.get id_cmp index.now id.now)) }
{
    if let Some(object) = store.get(id) {
        return Some(object);
    }
    match index.get(id) {
        Some(object) => Some(object.as_ref()),
        None => None,
    }
}

/// The first object of an id.
fn find<'a>(objects: &'a [(ObjectId, Object)], id: &ObjectId) -> Option<&'a Object>
    ensures { option_copied result ≡ map.find id_cmp id.now objects.now }
{
    for (other, object) in objects {
        if same_id(id, other) {
            return Some(object);
        }
    }
    None
}

/// Walks what came earlier in the list again for each object.
fn first_collision_by_walk(store: &Store, objects: &[(ObjectId, Object)]) -> Option<ObjectId>
    ensures { result ≡ collision store.now.objects objects.now }
{
    for i in 0..objects.len() {
        let (id, object) = &objects[i];
        let known = find_in_store_or_list(store, &objects[..i], id);
        if clashes(known, object) {
            return Some(*id);
        }
    }
    None
}

fn find_in_store_or_list<'a>(
    store: &'a Store,
    list: &'a [(ObjectId, Object)],
    id: &ObjectId,
) -> Option<ObjectRef<'a>>
    ensures { option_map seen result ≡ first_some (map.get store.now.objects id.now) (map.find id_cmp id.now list.now) }
{
    if let Some(object) = store.get(id) {
        return Some(object);
    }
    match find(list, id) {
        Some(object) => Some(object.as_ref()),
        None => None,
    }
}

fn clashes(known: Option<ObjectRef<'_>>, object: &Object) -> bool
    ensures { result ≡ spec.clashes (option_map seen known.entry) object.now }
{
    match known {
        Some(other) => !other.has_text_of(object.as_ref()),
        None => false,
    }
}
