//! The server of the examples: two commits, the second one at `refs/heads/main` and at the tag `refs/tags/v1`, and the first
//! one at `refs/heads/old`.

ghost use Rattle.std.specs.Prelude.{◌≡◌};
ghost use Rattle.std.specs.List.{list_all};
ghost use Rattle.examples.specs.Small.{is_small};

use anyhow::{Result, bail};
use fetch_pack::write_pack;
use fetch_store::{Kind, Object, ObjectId, ObjectKind, Text, id_of};
use fetch_wire::{
    Capability, Ref, ScriptedPeer, greeting_lines, last_lines, listing_lines, write_lines,
};
use std::alloc::Global;

/// A commit without a parent, of the empty tree.
const FIRST: &[u8] = b"\
tree 4b825dc642cb6eb9a060e54bf8d69288fbee4904\n\
author A <a@x> 1 +0000\ncommitter A <a@x> 1 +0000\n\none\n";

/// A commit over it.
const SECOND: &[u8] = b"\
tree 4b825dc642cb6eb9a060e54bf8d69288fbee4904\nparent bc6e39d85183dbf480419262896d4ffa452774ab\n\
author A <a@x> 2 +0000\ncommitter A <a@x> 2 +0000\n\ntwo\n";

/// The id of the second commit, in digits.
pub(crate) const SECOND_ID: &[u8] = b"1d84ede68248bca35516c3653ee73f87fee059f4";

/// What a server is asked for.
#[derive(Clone, Copy)]
pub(crate) enum Asked {
    /// Both commits.
    Whole,
    /// The first commit alone.
    Old,
    /// The second commit, with its history cut off.
    Shallow,
    /// The first commit, by one who has the second one cut off.
    Deeper,
}

fn object(alloc: Global, kind: ObjectKind, bytes: &[u8]) -> Result<Object> {
    let bytes = Vec::from_slice(alloc, bytes)?;
    Ok(Object::parse(Kind::Sha1, kind, bytes)?)
}

/// Whether each object has at most a thousand bytes.
fn are_small(objects: &[Object]) -> bool
    ensures { result ≡ list_all is_small objects.now }
{
    objects
        .iter()
        .all(|object| object.as_ref().bytes().len() <= 1_000)
}

/// The pack of these objects, which are few and small.
fn pack_of(alloc: Global, objects: &[Object]) -> Result<Vec<u8>> {
    if objects.len() > 100 || !are_small(objects) {
        bail!("too much for an example");
    }
    let mut pack = Vec::new(alloc);
    write_pack(alloc, Kind::Sha1, objects, &mut pack)?;
    Ok(pack)
}

fn capability(alloc: Global, name: &[u8], value: &[u8]) -> Result<Capability> {
    Ok(Capability {
        name: Text::new(alloc, name)?,
        value: Some(Text::new(alloc, value)?),
    })
}

/// The greeting: what the server offers.
fn greeting(alloc: Global) -> Result<Vec<u8>> {
    let mut offered = Vec::new(alloc);
    offered.push(capability(alloc, b"ls-refs", b"unborn")?)?;
    offered.push(capability(alloc, b"fetch", b"shallow plain-pack")?)?;
    Ok(write_lines(alloc, &greeting_lines(alloc, &offered)?)?)
}

fn branch(alloc: Global, name: &[u8], commit: ObjectId) -> Result<Ref> {
    Ok(Ref::Direct {
        full_ref_name: Text::new(alloc, name)?,
        object: commit,
    })
}

/// The listing: each reference of the server.
fn listing(alloc: Global) -> Result<Vec<u8>> {
    let first = id_of(Kind::Sha1, ObjectKind::Commit, FIRST);
    let second = id_of(Kind::Sha1, ObjectKind::Commit, SECOND);
    let mut refs = Vec::new(alloc);
    refs.push(Ref::Symbolic {
        full_ref_name: Text::new(alloc, b"HEAD")?,
        target: Text::new(alloc, b"refs/heads/main")?,
        tag: None,
        object: second,
    })?;
    refs.push(branch(alloc, b"refs/heads/main", second)?)?;
    refs.push(branch(alloc, b"refs/heads/old", first)?)?;
    refs.push(branch(alloc, b"refs/tags/v1", second)?)?;
    Ok(write_lines(alloc, &listing_lines(alloc, &refs)?)?)
}

/// The objects of a reply.
fn objects(alloc: Global, asked: Asked) -> Result<Vec<Object>> {
    let mut objects = Vec::new(alloc);
    objects.push(object(alloc, ObjectKind::Tree, b"")?)?;
    if !matches!(asked, Asked::Shallow) {
        objects.push(object(alloc, ObjectKind::Commit, FIRST)?)?;
    }
    if matches!(asked, Asked::Whole | Asked::Shallow) {
        objects.push(object(alloc, ObjectKind::Commit, SECOND)?)?;
    }
    Ok(objects)
}

/// The reply to a fetch request: the change of the border, and the pack.
fn reply(alloc: Global, asked: Asked) -> Result<Vec<u8>> {
    let pack = pack_of(alloc, &objects(alloc, asked)?)?;
    let second = [id_of(Kind::Sha1, ObjectKind::Commit, SECOND)];
    let lines = match asked {
        Asked::Whole | Asked::Old => last_lines(alloc, None, &pack)?,
        Asked::Shallow => last_lines(alloc, Some((&second, &[])), &pack)?,
        Asked::Deeper => last_lines(alloc, Some((&[], &second)), &pack)?,
    };
    Ok(write_lines(alloc, &lines)?)
}

/// All that the server says in one conversation.
pub(crate) fn said(alloc: Global, asked: Asked) -> Result<Vec<u8>> {
    let mut said = greeting(alloc)?;
    said.extend_from_slice(&listing(alloc)?)?;
    said.extend_from_slice(&reply(alloc, asked)?)?;
    Ok(said)
}

/// A peer that says all of it at once, and fails at these calls.
fn scripted(alloc: Global, asked: Asked, failing: Vec<u64>) -> Result<ScriptedPeer> {
    let said = vec![in alloc; Text::from(said(alloc, asked)?)]?;
    Ok(ScriptedPeer::new(alloc, said, failing))
}

/// A peer that says all of it at once.
pub(crate) fn peer(alloc: Global, asked: Asked) -> Result<ScriptedPeer> {
    scripted(alloc, asked, Vec::new(alloc))
}

/// A peer that says all of it at once, but fails at this call.
pub(crate) fn failing_peer(alloc: Global, asked: Asked, call: u64) -> Result<ScriptedPeer> {
    scripted(alloc, asked, vec![in alloc; call]?)
}
