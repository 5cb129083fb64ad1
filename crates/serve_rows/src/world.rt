//! The repository that a row's lines put down.

ghost use Rattle.std.specs.Prelude.{◌≡◌, IfSome};
ghost use Rattle.fetch_base.specs.Id.{kind_of};

use crate::references::add_reference;
use fetch_refs::Refs;
use fetch_store::{Border, Kind, NoMemory, Object, ObjectId, ObjectKind, Store, id_of};
use rows::{decoded, hash_of, object_kind_of, split_word};
use std::alloc::Global;

/// Objects, references and a border.
#[derive(Drop)]
pub(crate) struct World {
    pub(crate) store: Store,
    pub(crate) refs: Refs,
    pub(crate) border: Border,
}

impl World {
    /// Nothing, for ids of this hash.
    pub(crate) fn new(alloc: Global, hash: Kind) -> World {
        World {
            store: Store::new(alloc, hash),
            refs: Refs::new(alloc, hash),
            border: Border::new(alloc),
        }
    }
}

/// An object under an id. None where the id isn't of the hash, or the text no object.
fn entry_of(hash: Kind, id: ObjectId, kind: ObjectKind, text: Vec<u8>) -> Option<(ObjectId, Object)>
    ensures { IfSome result (λ entry. (kind_of entry.0 ≡ hash) × (entry.1.hash ≡ hash)) }
{
    if id.kind() != hash {
        return None;
    }
    match Object::parse(hash, kind, text) {
        Ok(object) => Some((id, object)),
        Err(_) => None,
    }
}

/// Adds an object under this id, or under its own where none is given. Whether it is one.
fn add(
    alloc: Global,
    store: &mut Store,
    id: Option<ObjectId>,
    kind: ObjectKind,
    text: Vec<u8>,
) -> Result<bool, NoMemory> {
    let hash = store.kind();
    let id = match id {
        Some(id) => id,
        None => id_of(hash, kind, text.as_slice()),
    };
    let Some(entry) = entry_of(hash, id, kind, text) else {
        return Ok(false);
    };
    match store.add_all(vec![in alloc; entry]?) {
        Ok(()) => Ok(true),
        Err(_) => Ok(false),
    }
}

/// `<kind> <text>`: adds an object. Whether the words are these.
fn add_object(
    alloc: Global,
    store: &mut Store,
    id: Option<ObjectId>,
    rest: &[u8],
) -> Result<bool, NoMemory> {
    let (kind, text) = split_word(rest);
    let Some(kind) = object_kind_of(kind) else {
        return Ok(false);
    };
    let text = decoded(alloc, text)?;
    add(alloc, store, id, kind, text)
}

/// `<id> <kind> <text>`: adds an object under an id that need not be its hash. Whether the words are these.
fn add_under(alloc: Global, store: &mut Store, rest: &[u8]) -> Result<bool, NoMemory> {
    let (id, rest) = split_word(rest);
    match ObjectId::from_hex(id) {
        Ok(id) => add_object(alloc, store, Some(id), rest),
        Err(_) => Ok(false),
    }
}

/// `<id>`: the border is this commit. Whether the word is one.
fn put_border(alloc: Global, border: &mut Border, word: &[u8]) -> Result<bool, NoMemory> {
    let Ok(id) = ObjectId::from_hex(word) else {
        return Ok(false);
    };
    match Border::from_ids(alloc, [id].as_slice()) {
        Ok(ids) => {
            *border = ids;
            Ok(true)
        }
        Err(_) => Err(NoMemory),
    }
}

/// Adds what a line puts down. Whether it puts something down.
pub(crate) fn put(alloc: Global, world: &mut World, line: &[u8]) -> Result<bool, NoMemory> {
    let (word, rest) = split_word(line);
    if word == b"object".as_slice() {
        add_object(alloc, &mut world.store, None, rest)
    } else if word == b"under".as_slice() {
        add_under(alloc, &mut world.store, rest)
    } else if word == b"ref".as_slice() {
        add_reference(alloc, &mut world.refs, rest)
    } else if word == b"border".as_slice() {
        put_border(alloc, &mut world.border, rest)
    } else if word == b"hash".as_slice() {
        match hash_of(rest) {
            Some(hash) => {
                *world = World::new(alloc, hash);
                Ok(true)
            }
            None => Ok(false),
        }
    } else {
        Ok(false)
    }
}
