//! Journals, in lines.

use crate::answers::{tell_ids, tell_numbers};
use fetch_refs::{Change, RefEdit, Target};
use fetch_shared::Entry;
use fetch_specs::FullName;
use fetch_store::{NoMemory, append_hex};

fn tell_edit(out: &mut Vec<u8>, edit: &RefEdit) -> Result<(), NoMemory> {
    out.extend_from_slice(b"set ")?;
    out.extend_from_slice(edit.name.as_bytes())?;
    if let Change::Update {
        new: Target::Object(id),
        ..
    } = &edit.change
    {
        out.push(b' ')?;
        append_hex(out, id)?;
    }
    out.push(b'\n')?;
    Ok(())
}

fn tell_edits(out: &mut Vec<u8>, edits: &[RefEdit]) -> Result<(), NoMemory> {
    for edit in edits {
        tell_edit(out, edit)?;
    }
    Ok(())
}

fn tell_gone(out: &mut Vec<u8>, name: &FullName) -> Result<(), NoMemory> {
    out.extend_from_slice(b"gone ")?;
    out.extend_from_slice(name.as_bytes())?;
    out.push(b'\n')?;
    Ok(())
}

fn tell_all_gone(out: &mut Vec<u8>, names: &[FullName]) -> Result<(), NoMemory> {
    for name in names {
        tell_gone(out, name)?;
    }
    Ok(())
}

fn tell_entry(out: &mut Vec<u8>, place: u64, entry: &Entry) -> Result<(), NoMemory> {
    match entry {
        Entry::Take {
            pass,
            ids,
            shallow,
            unshallow,
        } => {
            tell_numbers(out, b"take", &[place, *pass])?;
            tell_ids(out, b"has", ids.as_slice())?;
            tell_ids(out, b"shallow", shallow.as_slice())?;
            tell_ids(out, b"unshallow", unshallow.as_slice())
        }
        Entry::Commit { pass, edits, .. } => {
            tell_numbers(out, b"commit", &[place, *pass])?;
            tell_edits(out, edits.as_slice())
        }
        Entry::Delete { pass, names } => {
            tell_numbers(out, b"delete", &[place, *pass])?;
            tell_all_gone(out, names.as_slice())
        }
    }
}

/// The entries, each with its place and the number of its pass.
pub(crate) fn tell_journal(out: &mut Vec<u8>, journal: &[Entry]) -> Result<(), NoMemory> {
    let mut place = 0u64;
    for entry in journal {
        tell_entry(out, place, entry)?;
        place = place.saturating_add(1);
    }
    Ok(())
}
