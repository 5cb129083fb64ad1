//! Journals that are replayed, whole or in part.

use crate::answers::{tell_ids, tell_numbers};
use fetch_refs::{Refs, Target, TargetRef};
use fetch_remote::Repository;
use fetch_shared::{Entry, ReplayFault, Replayed, replay};
use fetch_store::{NoMemory, append_hex, decimal};
use std::alloc::Global;

fn tell_target(out: &mut Vec<u8>, target: &TargetRef<'_>) -> Result<(), NoMemory> {
    match target {
        TargetRef::Object(id) => append_hex(out, id),
        TargetRef::Symbolic(name) => {
            out.push(b'@')?;
            out.extend_from_slice(name.as_bytes())?;
            Ok(())
        }
    }
}

fn tell_reference(out: &mut Vec<u8>, name: &[u8], target: &TargetRef<'_>) -> Result<(), NoMemory> {
    out.extend_from_slice(b"ref ")?;
    out.extend_from_slice(name)?;
    out.push(b' ')?;
    tell_target(out, target)?;
    out.push(b'\n')?;
    Ok(())
}

fn tell_references(out: &mut Vec<u8>, refs: &Refs) -> Result<(), NoMemory> {
    for (name, target) in refs.iter() {
        tell_reference(out, name, &target)?;
    }
    Ok(())
}

fn tell_left(out: &mut Vec<u8>, left: &Replayed) -> Result<(), NoMemory> {
    tell_references(out, &left.refs)?;
    tell_ids(out, b"border", left.border.commits())?;
    tell_ids(out, b"id", left.ids.as_slice())
}

/// What stands at a name, or `none`.
fn tell_found(out: &mut Vec<u8>, found: &Option<Target>) -> Result<(), NoMemory> {
    match found {
        Some(target) => {
            out.extend_from_slice(b"found ")?;
            tell_target(out, &target.as_ref())?;
        }
        None => out.extend_from_slice(b"found none")?,
    }
    out.push(b'\n')?;
    Ok(())
}

fn tell_fault(out: &mut Vec<u8>, fault: &ReplayFault) -> Result<(), NoMemory> {
    match fault {
        ReplayFault::Expectation {
            place,
            index,
            found,
        } => {
            tell_numbers(out, b"expectation", &[*place, *index as u64])?;
            tell_found(out, found)
        }
        ReplayFault::NoMemory => Err(NoMemory),
    }
}

/// The entry at the place that a word says.
fn entry_at<'a>(journal: &'a [Entry], word: &[u8]) -> Option<&'a Entry> {
    let place = usize::try_from(decimal(word)?).ok()?;
    journal.get(place)
}

/// The entries at these places, up to the first that is none.
fn entries_at(alloc: Global, journal: &[Entry], places: &[u8]) -> Result<Vec<Entry>, NoMemory> {
    let mut entries = Vec::new(alloc);
    for word in places.split(|b| *b == b' ') {
        match entry_at(journal, word) {
            Some(entry) => entries.push(entry.try_clone()?)?,
            None => break,
        }
    }
    Ok(entries)
}

/// What a replay answers, in lines.
fn tell_answer(out: &mut Vec<u8>, answer: &Result<Replayed, ReplayFault>) -> Result<(), NoMemory> {
    match answer {
        Ok(left) => tell_left(out, left),
        Err(fault) => tell_fault(out, fault),
    }
}

/// Replays the entries of a journal at these places over the repository that it began with, and tells what that leaves, or
/// the first expectation that isn't met.
pub(crate) fn tell_replay(
    alloc: Global,
    opening: &Repository,
    journal: &[Entry],
    places: &[u8],
    out: &mut Vec<u8>,
) -> Result<(), NoMemory> {
    let entries = entries_at(alloc, journal, places)?;
    let answer = replay(alloc, opening, entries.as_slice());
    tell_answer(out, &answer)
}
