//! Objects that are put into a store.

ghost use Rattle.std.specs.Prelude.{◌≡◌, IsTrue, IfSome, IfOk};
ghost use Rattle.fetch_base.specs.Id.{kind_of};
ghost use Rattle.fetch_store.specs.Stores.{AreOf};
ghost use Rattle.fetch_base.specs.declared.id.Kind.TheVariants as kinds;

use crate::words::{id_of, ids_of};
use fetch_pack::read_pack;
use fetch_store::{Kind, NoMemory, Object, ObjectId, ObjectKind, Store, StoreError, append_hex};
use rows::{decoded, refuse, split_word};
use std::alloc::Global;
use std::thread::Threads;

/// The objects of a pack.
pub(crate) fn pack_of(
    rt: &(impl Threads + Sync),
    alloc: Global,
    text: &[u8],
) -> Result<Option<Vec<(ObjectId, Object)>>, NoMemory>
    ensures { IfOk result (λ found. IfSome found (λ objects. AreOf kinds.Sha1 objects.items)) }
{
    let bytes = decoded(alloc, text)?;
    match read_pack(rt, alloc, Kind::Sha1, bytes.as_slice(), 1) {
        Ok(pack) => Ok(Some(pack.objects.into_vec())),
        Err(_) => Ok(None),
    }
}

/// Whether the ids of a store are of SHA-1.
pub(crate) fn is_sha1(store: &Store) -> bool
    ensures { IsTrue result → (store.now.hash ≡ kinds.Sha1) }
{
    match store.kind() {
        Kind::Sha1 => true,
        Kind::Sha256 => false,
    }
}

/// The three steps of which `add_all` consists.
fn add_in_steps(store: &mut Store, objects: Vec<(ObjectId, Object)>) -> Result<(), StoreError>
    requires { AreOf store.old.hash objects.items }
{
    store.check(objects.as_slice())?;
    store.reserve(objects.as_slice())?;
    store.add_reserved(objects);
    Ok(())
}

/// `<pack>`: adds its objects. Whether it is one.
pub(crate) fn add_pack(
    rt: &(impl Threads + Sync),
    alloc: Global,
    store: &mut Store,
    text: &[u8],
    out: &mut Vec<u8>,
) -> Result<bool, NoMemory> {
    let Some(objects) = pack_of(rt, alloc, text)? else {
        return Ok(false);
    };
    if !is_sha1(store) {
        return Ok(false);
    }
    if let Err(e) = add_in_steps(store, objects) {
        refuse(out, &e)?;
    }
    Ok(true)
}

/// An object under an id that is its name alone.
fn entry_of(id: ObjectId, kind: ObjectKind, text: Vec<u8>) -> Option<(ObjectId, Object)>
    ensures { IfSome result (λ entry. (kind_of entry.0 ≡ kinds.Sha1) × (entry.1.hash ≡ kinds.Sha1)) }
{
    match id.kind() {
        Kind::Sha256 => return None,
        Kind::Sha1 => {}
    }
    match Object::parse(Kind::Sha1, kind, text) {
        Ok(object) => Some((id, object)),
        Err(_) => None,
    }
}

fn commit_text(alloc: Global, seconds: &[u8], parents: &[ObjectId]) -> Result<Vec<u8>, NoMemory> {
    let mut text = Vec::from_slice(alloc, b"tree 4b825dc642cb6eb9a060e54bf8d69288fbee4904\n")?;
    for parent in parents {
        text.extend_from_slice(b"parent ")?;
        append_hex(&mut text, parent)?;
        text.push(b'\n')?;
    }
    text.extend_from_slice(b"author A <a@x> 1 +0000\ncommitter A <a@x> ")?;
    text.extend_from_slice(seconds)?;
    text.extend_from_slice(b" +0000\n\n")?;
    Ok(text)
}

/// `<id> <seconds> <parents>`: the name and the text of a commit. None where the words aren't these.
fn commit_of(alloc: Global, rest: &[u8]) -> Result<Option<(ObjectId, Vec<u8>)>, NoMemory> {
    let (id, rest) = split_word(rest);
    let (seconds, parents) = split_word(rest);
    let Some(id) = id_of(id) else {
        return Ok(None);
    };
    let parents = ids_of(alloc, parents)?;
    Ok(Some((id, commit_text(alloc, seconds, parents.as_slice())?)))
}

fn tag_text(alloc: Global, target: &ObjectId, kind: &[u8]) -> Result<Vec<u8>, NoMemory> {
    let mut text = Vec::from_slice(alloc, b"object ")?;
    append_hex(&mut text, target)?;
    text.extend_from_slice(b"\ntype ")?;
    text.extend_from_slice(kind)?;
    text.extend_from_slice(b"\ntag v1\ntagger A <a@x> 1 +0000\n\n")?;
    Ok(text)
}

/// `<id> <target> <kind>`: the name and the text of a tag of what is called this kind. None where the words aren't these.
fn tag_of(alloc: Global, rest: &[u8]) -> Result<Option<(ObjectId, Vec<u8>)>, NoMemory> {
    let (id, rest) = split_word(rest);
    let (target, kind) = split_word(rest);
    let (Some(id), Some(target)) = (id_of(id), id_of(target)) else {
        return Ok(None);
    };
    Ok(Some((id, tag_text(alloc, &target, kind)?)))
}

/// Adds the tag or the commit that these words say. Whether they say one, and the store is one of SHA-1.
pub(crate) fn add(
    alloc: Global,
    store: &mut Store,
    kind: ObjectKind,
    rest: &[u8],
    out: &mut Vec<u8>,
) -> Result<bool, NoMemory> {
    let said = match kind {
        ObjectKind::Tag => tag_of(alloc, rest)?,
        _ => commit_of(alloc, rest)?,
    };
    let Some((id, text)) = said else {
        return Ok(false);
    };
    let Some(entry) = entry_of(id, kind, text) else {
        return Ok(false);
    };
    if !is_sha1(store) {
        return Ok(false);
    }
    if let Err(e) = store.add_all(vec![in alloc; entry]?) {
        refuse(out, &e)?;
    }
    Ok(true)
}
