//! Ids, and what objects say.

use fetch_store::{Kind, NoMemory, Object, ObjectId, ObjectKind, ObjectRef, id_of};
use rows::{decoded, hash_of, object_kind_of, refuse, say, say_id, say_number, split_word};
use std::alloc::Global;

/// `<hexadecimal digits>`: reads an id.
pub(crate) fn tell_id(text: &[u8], out: &mut Vec<u8>) -> Result<(), NoMemory> {
    match ObjectId::from_hex(text) {
        Ok(id) => say_id(out, b"id", &id),
        Err(e) => refuse(out, &e),
    }
}

fn tell_object(out: &mut Vec<u8>, object: &ObjectRef<'_>) -> Result<(), NoMemory> {
    match object.seconds() {
        Some(seconds) => say_number(out, b"seconds", seconds as usize)?,
        None => say(out, &[b"no seconds"])?,
    }
    for id in object.links() {
        say_id(out, b"link", &id)?;
    }
    for id in object.parents() {
        say_id(out, b"parent", &id)?;
    }
    for id in object.others() {
        say_id(out, b"other", &id)?;
    }
    Ok(())
}

/// Tells the id of a text, and what it says where it is an object of this kind.
fn tell_text(
    hash: Kind,
    kind: ObjectKind,
    text: Vec<u8>,
    out: &mut Vec<u8>,
) -> Result<(), NoMemory> {
    say_id(out, b"id", &id_of(hash, kind, text.as_slice()))?;
    match Object::parse(hash, kind, text) {
        Ok(object) => tell_object(out, &object.try_clone()?.as_ref()),
        Err(e) => refuse(out, &e),
    }
}

/// `<hash> <kind> <text>`: reads an object. Whether the words are these.
pub(crate) fn ask(alloc: Global, rest: &[u8], out: &mut Vec<u8>) -> Result<bool, NoMemory> {
    let (hash, rest) = split_word(rest);
    let (kind, text) = split_word(rest);
    let (Some(hash), Some(kind)) = (hash_of(hash), object_kind_of(kind)) else {
        return Ok(false);
    };
    tell_text(hash, kind, decoded(alloc, text)?, out)?;
    Ok(true)
}
