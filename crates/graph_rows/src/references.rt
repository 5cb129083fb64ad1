//! References: how edits are made, and what stands then.

ghost use Rattle.std.specs.Prelude.{◌≡◌, OnOk, OnErr};
ghost use Rattle.fetch_refs.specs.Logs.{after};

use crate::words::{append_id, say_id};
use crate::world::World;
use fetch_negotiate::tips;
use fetch_refs::{
    LogLine, PackedRefs, Prepared, RefEdit, RefError, Refs, Signature, Target, TargetRef, peel_tags,
};
use fetch_specs::FullName;
use fetch_store::{NoMemory, ObjectId, Store};
use rows::{Question, decoded, name_of, refuse, say, say_number, somebody};
use std::alloc::Global;

/// A refusal, and the name, the id or the value found that it tells.
fn tell_refusal(out: &mut Vec<u8>, e: &RefError) -> Result<(), NoMemory> {
    refuse(out, e)?;
    match e {
        RefError::Cycle { name } => say(out, &[b"at", name.as_bytes()]),
        RefError::Depth { name } => say(out, &[b"at", name.as_bytes()]),
        RefError::Unborn { name } => say(out, &[b"at", name.as_bytes()]),
        RefError::MissingObject { id } => say_id(out, b"at", id),
        RefError::TagCycle { id } => say_id(out, b"at", id),
        RefError::Expectation { found, .. } => tell_found(out, found),
        RefError::NoMemory => Ok(()),
    }
}

/// What stands at the name of a refused edit.
fn tell_found(out: &mut Vec<u8>, found: &Option<Target>) -> Result<(), NoMemory> {
    match found {
        Some(target) => tell_target(out, Some(target.as_ref())),
        None => tell_target(out, None),
    }
}

/// How edits are made.
#[derive(Clone, Copy)]
struct Manner {
    logging: bool,
    packed: PackedRefs,
}

/// `loose`, `packed`, or `unlogged`, which is loose without reflogs.
fn manner_of(how: &[u8]) -> Manner {
    Manner {
        logging: how != b"unlogged".as_slice(),
        packed: if how == b"packed".as_slice() {
            PackedRefs::Only
        } else {
            PackedRefs::Never
        },
    }
}

/// Prepared and committed, the references are those after the edits; refused, they are as before.
fn commit(
    refs: &mut Refs,
    edits: &[RefEdit],
    committer: &Signature,
    manner: Manner,
) -> Result<(), RefError>
    ensures ok { OnOk result (refs.new ≡ after committer.now manner.logging manner.packed refs.old edits.now) }
    ensures err { OnErr result (refs.new ≡ refs.old) }
{
    let prepared: Prepared<'_> = refs.prepare(edits, committer, manner.logging, manner.packed)?;
    prepared.commit();
    Ok(())
}

/// Prepared and dropped, they are as before.
fn drop_prepared(refs: &mut Refs, edits: &[RefEdit], committer: &Signature) -> Result<(), RefError>
    ensures { refs.new ≡ refs.old }
{
    let _prepared = refs.prepare(edits, committer, true, PackedRefs::Only)?;
    Ok(())
}

/// Makes the edits that the lines before have asked for, in this manner, or `dropped`, which leaves all as it is.
pub(crate) fn make_edits(
    alloc: Global,
    world: &mut World,
    how: &[u8],
    out: &mut Vec<u8>,
) -> Result<(), NoMemory> {
    let committer = somebody(alloc)?;
    let edits = world.edits.as_slice();
    let made = if how == b"dropped".as_slice() {
        drop_prepared(&mut world.refs, edits, &committer)
    } else {
        commit(&mut world.refs, edits, &committer, manner_of(how))
    };
    world.edits = Vec::new(alloc);
    match made {
        Ok(()) => Ok(()),
        Err(e) => tell_refusal(out, &e),
    }
}

fn tell_target(out: &mut Vec<u8>, target: Option<TargetRef<'_>>) -> Result<(), NoMemory> {
    match target {
        Some(TargetRef::Object(id)) => say_id(out, b"id", &id),
        Some(TargetRef::Symbolic(name)) => say(out, &[b"leads to", name.as_bytes()]),
        None => say(out, &[b"none"]),
    }
}

/// All references, by ascending name.
pub(crate) fn tell_all(refs: &Refs, out: &mut Vec<u8>) -> Result<(), NoMemory> {
    for (name, target) in refs.iter() {
        say(out, &[name])?;
        tell_target(out, Some(target))?;
    }
    Ok(())
}

fn tell_line(out: &mut Vec<u8>, line: &LogLine) -> Result<(), NoMemory> {
    append_id(out, &line.old)?;
    out.push(b' ')?;
    append_id(out, &line.new)?;
    out.push(b' ')?;
    say(out, &[line.message.as_bytes()])
}

/// A reference, and the lines of its reflog.
fn tell_one(refs: &Refs, name: &FullName, out: &mut Vec<u8>) -> Result<(), NoMemory> {
    tell_target(out, refs.find(name))?;
    for line in refs.reflog(name) {
        tell_line(out, line)?;
    }
    Ok(())
}

fn tell_end(out: &mut Vec<u8>, end: Result<ObjectId, RefError>) -> Result<(), NoMemory> {
    match end {
        Ok(id) => say_id(out, b"id", &id),
        Err(e) => tell_refusal(out, &e),
    }
}

/// Where a name leads from a first one.
fn resolve(refs: &Refs, name: &FullName, out: &mut Vec<u8>) -> Result<(), NoMemory> {
    match refs.find(name) {
        Some(target) => tell_end(out, refs.resolve(name.as_bytes(), target)),
        None => say(out, &[b"none"]),
    }
}

/// `<name>`: tells the reference and its reflog (`ref`), where it leads by names (`resolve`), and by tags too (`peel`).
/// Whether one of these is asked for.
pub(crate) fn ask_of_name(
    alloc: Global,
    world: &World,
    question: Question<'_>,
    out: &mut Vec<u8>,
) -> Result<bool, NoMemory> {
    let Some(name) = name_of(alloc, question.rest)? else {
        return Ok(false);
    };
    if question.what == b"ref".as_slice() {
        tell_one(&world.refs, &name, out)?;
    } else if question.what == b"resolve".as_slice() {
        resolve(&world.refs, &name, out)?;
    } else if question.what == b"peel".as_slice() {
        tell_end(out, world.refs.peel(&world.store, &name))?;
    } else {
        return Ok(false);
    }
    Ok(true)
}

/// Where tags lead from an object.
pub(crate) fn tell_tags(store: &Store, id: ObjectId, out: &mut Vec<u8>) -> Result<(), NoMemory> {
    tell_end(out, peel_tags(store, id))
}

/// The commits that the references lead to.
pub(crate) fn tell_tips(alloc: Global, world: &World, out: &mut Vec<u8>) -> Result<(), NoMemory> {
    for id in tips(alloc, &world.refs, &world.store)?.as_slice() {
        say_id(out, b"tip", id)?;
    }
    Ok(())
}

/// The packed list as it is written.
pub(crate) fn tell_packed(refs: &Refs, out: &mut Vec<u8>) -> Result<(), NoMemory> {
    out.extend_from_slice(refs.packed_text())?;
    say_number(out, b"bytes", refs.packed_text().len())
}

/// Writes all references into the packed list.
pub(crate) fn compact(refs: &mut Refs, out: &mut Vec<u8>) -> Result<(), NoMemory> {
    match refs.compact() {
        Ok(()) => Ok(()),
        Err(e) => tell_refusal(out, &e),
    }
}

/// `<text>`: reads a packed list of the world's hash in place of the references.
pub(crate) fn read_packed(
    alloc: Global,
    world: &mut World,
    text: &[u8],
    out: &mut Vec<u8>,
) -> Result<(), NoMemory> {
    let text = decoded(alloc, text)?;
    match Refs::read_packed(alloc, world.store.kind(), text.as_slice()) {
        Ok(read) => world.refs = read,
        Err(e) => refuse(out, &e)?,
    }
    Ok(())
}
