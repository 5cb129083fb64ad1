//! What is told of bundles.

ghost use Rattle.fetch_check.specs.Reading.{IsBundle, bundle_of};

use crate::bundle_questions::is_writable;
use fetch_check::{
    BrokenCause, Bundle, BundleError, KeepError, State, append_findings, check, read_bundle,
    write_bundle,
};
use fetch_refs::{Refs, TargetRef};
use fetch_store::{Kind, NoMemory, ObjectId, ObjectRef, append_hex, append_number};
use rows::{refuse, say, say_id, say_printed};
use std::alloc::Global;
use std::thread::Threads;

/// The word for a cause.
fn word_of(cause: &BrokenCause) -> &'static [u8] {
    match cause {
        BrokenCause::Cycle => b"Cycle",
        BrokenCause::Depth => b"Depth",
        BrokenCause::MissingObject { .. } => b"MissingObject",
        BrokenCause::TagCycle { .. } => b"TagCycle",
    }
}

/// A refusal as it is printed, and the ids, the name or the cause that it tells.
pub(crate) fn say_refused(out: &mut Vec<u8>, e: &BundleError) -> Result<(), NoMemory> {
    refuse(out, e)?;
    match e {
        BundleError::Missing { link } => {
            say_id(out, b"from", &link.from)?;
            say_id(out, b"to", &link.to)
        }
        BundleError::Broken { broken } => {
            say(out, &[b"at", broken.name.as_bytes()])?;
            say(out, &[b"since", word_of(&broken.cause)])
        }
        BundleError::NameTooLong { name } => say(out, &[b"at", name.as_bytes()]),
        BundleError::Pack(cause) => say_printed(out, b"since", cause),
        BundleError::Malformed { .. } | BundleError::NoMemory => Ok(()),
    }
}

/// Why a bundle isn't saved or loaded.
pub(crate) fn say_kept(out: &mut Vec<u8>, e: &KeepError) -> Result<(), NoMemory> {
    match e {
        KeepError::Bundle(e) => say_refused(out, e),
        KeepError::Failed | KeepError::NoMemory => refuse(out, e),
    }
}

/// `ref <name> <id or name>`, for each reference.
fn say_references(out: &mut Vec<u8>, refs: &Refs) -> Result<(), NoMemory> {
    for (name, target) in refs.iter() {
        out.extend_from_slice(b"ref ")?;
        out.extend_from_slice(name)?;
        out.push(b' ')?;
        match target {
            TargetRef::Object(id) => append_hex(out, &id)?,
            TargetRef::Symbolic(to) => out.extend_from_slice(to.as_bytes())?,
        }
        out.push(b'\n')?;
    }
    Ok(())
}

/// `object <id> <kind> <bytes>`: an object, and how many bytes its text has.
fn say_object(out: &mut Vec<u8>, id: &ObjectId, object: ObjectRef<'_>) -> Result<(), NoMemory> {
    out.extend_from_slice(b"object ")?;
    append_hex(out, id)?;
    out.push(b' ')?;
    out.extend_from_slice(object.kind().name())?;
    out.push(b' ')?;
    append_number(out, object.bytes().len())?;
    out.push(b'\n')?;
    Ok(())
}

/// The hash, the references, the border and the objects of a bundle.
pub(crate) fn say_bundle(out: &mut Vec<u8>, bundle: &Bundle) -> Result<(), NoMemory> {
    match bundle.hash {
        Kind::Sha1 => say(out, &[b"hash", b"sha1"])?,
        Kind::Sha256 => say(out, &[b"hash", b"sha256"])?,
    }
    say_references(out, &bundle.refs)?;
    for id in bundle.border.commits() {
        say_id(out, b"border", id)?;
    }
    for (id, object) in bundle.objects.as_slice() {
        say_object(out, id, object.as_ref())?;
    }
    Ok(())
}

/// Tells what is found in what was read.
fn say_checked(alloc: Global, state: &State, out: &mut Vec<u8>) -> Result<(), NoMemory> {
    let findings = check(alloc, &state.store, &state.refs, &state.border)?;
    append_findings(out, &findings)?;
    Ok(())
}

/// Checks what was read, writes it, and tells whether it is the text again. Whether it may be written.
fn say_again(
    alloc: Global,
    state: &State,
    bytes: &[u8],
    out: &mut Vec<u8>,
) -> Result<bool, NoMemory> {
    say_checked(alloc, state, out)?;
    if !is_writable(&state.store) {
        return Ok(false);
    }
    let mut text = Vec::new(alloc);
    match write_bundle(alloc, &state.store, &state.refs, &state.border, &mut text) {
        Ok(()) if text.as_slice() == bytes => say(out, &[b"same"])?,
        Ok(()) => say(out, &[b"other"])?,
        Err(e) => say_refused(out, &e)?,
    }
    Ok(true)
}

/// Tells a bundle, and whether it is written as the text again. Whether it may be written.
fn say_both(
    alloc: Global,
    bundle: Bundle,
    bytes: &[u8],
    out: &mut Vec<u8>,
) -> Result<bool, NoMemory>
    requires { IsBundle (bundle_of bundle) }
{
    match say_bundle(out, &bundle) {
        Ok(()) => {}
        Err(e) => return Err(e),
    }
    match bundle.into_state(alloc) {
        Ok(state) => say_again(alloc, &state, bytes, out),
        Err(e) => Err(e),
    }
}

/// Reads a text, and tells the bundle or the refusal. Whether what is read may be written.
pub(crate) fn say_read<R: Threads + Sync>(
    rt: &R,
    alloc: Global,
    bytes: &[u8],
    out: &mut Vec<u8>,
) -> Result<bool, NoMemory> {
    match read_bundle(rt, alloc, bytes) {
        Ok(bundle) => say_both(alloc, bundle, bytes, out),
        Err(e) => {
            say_refused(out, &e)?;
            Ok(true)
        }
    }
}

/// Reads a text: `reads`, or the refusal as it is printed.
pub(crate) fn brief<R: Threads + Sync>(
    rt: &R,
    alloc: Global,
    bytes: &[u8],
) -> Result<Vec<u8>, NoMemory> {
    let mut answer = Vec::new(alloc);
    match read_bundle(rt, alloc, bytes) {
        Ok(_) => say(&mut answer, &[b"reads"])?,
        Err(e) => refuse(&mut answer, &e)?,
    }
    Ok(answer)
}
