//! What the lines of a row ask for.

use fetch_refs::{Change, LogChange, PreviousValue, RefEdit, RefLog, Signature, Target};
use fetch_specs::FullName;
use fetch_store::{Kind, List, NoMemory, ObjectId, Text, decimal, split_first};
use fetch_wire::{Mapping, RefMap, Source, SpecIndex};
use rows::{name_of, split_word};
use std::alloc::Global;

/// The ids that these words are, up to the first that is none.
fn ids_of(alloc: Global, words: &[u8]) -> Result<Vec<ObjectId>, NoMemory> {
    let mut ids = Vec::new(alloc);
    for word in words.split(|b| *b == b' ') {
        let Some(id) = ObjectId::in_hex(Kind::Sha1, word) else {
            break;
        };
        ids.push(id)?;
    }
    Ok(ids)
}

/// A pack to be taken.
#[derive(Drop)]
pub(crate) struct Taking {
    pub(crate) pass: u64,
    /// Which of the row's packs, from 0.
    pub(crate) pack: usize,
    pub(crate) wants: Vec<ObjectId>,
    /// The commits that enter the border.
    pub(crate) shallow: Vec<ObjectId>,
    /// The commits that leave it.
    pub(crate) unshallow: Vec<ObjectId>,
}

/// An event of a shared repository.
#[derive(Drop)]
pub(crate) enum Event {
    Plan(RefMap),
    Take(Taking),
    Commit {
        pass: u64,
        edits: Vec<RefEdit>,
        committer: Signature,
    },
    Delete {
        pass: u64,
        names: Vec<FullName>,
    },
}

/// `<id>`: a fetch that maps this object alone.
fn plan_of(alloc: Global, rest: &[u8]) -> Result<Option<Event>, NoMemory> {
    let Some(id) = ObjectId::in_hex(Kind::Sha1, rest) else {
        return Ok(None);
    };
    let mut mappings = Vec::new(alloc);
    mappings.push(Mapping {
        remote: Source::ObjectId(id),
        local: None,
        spec_index: SpecIndex::ExplicitInRemote(0),
    })?;
    Ok(Some(Event::Plan(RefMap {
        mappings: List::from(mappings),
        refspecs: List::new(alloc),
        extra_refspecs: List::new(alloc),
        remote_refs: List::new(alloc),
        object_hash: Kind::Sha1,
    })))
}

/// `<pass> <pack> <wants>/<shallow>/<unshallow>`
fn take_of(alloc: Global, rest: &[u8]) -> Result<Option<Event>, NoMemory> {
    let (pass, rest) = split_word(rest);
    let (pack, rest) = split_word(rest);
    let (wants, rest) = split_first(b'/', rest).unwrap_or((rest, &[]));
    let (shallow, unshallow) = split_first(b'/', rest).unwrap_or((rest, &[]));
    let (Some(pass), Some(pack)) = (decimal(pass), decimal(pack)) else {
        return Ok(None);
    };
    Ok(Some(Event::Take(Taking {
        pass,
        pack: pack as usize,
        wants: ids_of(alloc, wants)?,
        shallow: ids_of(alloc, shallow)?,
        unshallow: ids_of(alloc, unshallow)?,
    })))
}

/// The one edit that puts a reference at an object.
fn edits_of(
    alloc: Global,
    name: FullName,
    new: ObjectId,
    expected: PreviousValue,
) -> Result<Vec<RefEdit>, NoMemory> {
    let log = LogChange {
        mode: RefLog::AndReference,
        force_create_reflog: false,
        message: Text::new(alloc, b"fetch: storing head")?,
    };
    let new = Target::Object(new);
    let mut edits = Vec::new(alloc);
    edits.push(RefEdit {
        change: Change::Update { log, expected, new },
        name,
    })?;
    Ok(edits)
}

/// `<pass> <name> <id> <what is expected there: an id, or none>`
fn commit_of(alloc: Global, rest: &[u8]) -> Result<Option<Event>, NoMemory> {
    let (pass, rest) = split_word(rest);
    let (name, rest) = split_word(rest);
    let (id, expected) = split_word(rest);
    let expected = match ObjectId::in_hex(Kind::Sha1, expected) {
        Some(id) => PreviousValue::MustExistAndMatch(Target::Object(id)),
        None => PreviousValue::MustNotExist,
    };
    match (
        decimal(pass),
        name_of(alloc, name)?,
        ObjectId::in_hex(Kind::Sha1, id),
    ) {
        (Some(pass), Some(name), Some(id)) => Ok(Some(Event::Commit {
            pass,
            edits: edits_of(alloc, name, id, expected)?,
            committer: Signature {
                name: Text::new(alloc, b"A")?,
                email: Text::new(alloc, b"a@x")?,
                seconds: 1,
                offset_minutes: 0,
            },
        })),
        _ => Ok(None),
    }
}

/// `<pass> <name>`
fn delete_of(alloc: Global, rest: &[u8]) -> Result<Option<Event>, NoMemory> {
    let (pass, name) = split_word(rest);
    match (decimal(pass), name_of(alloc, name)?) {
        (Some(pass), Some(name)) => {
            let mut names = Vec::new(alloc);
            names.push(name)?;
            Ok(Some(Event::Delete { pass, names }))
        }
        _ => Ok(None),
    }
}

/// The event that a line asks for. None where it asks for none.
pub(crate) fn event_of(alloc: Global, line: &[u8]) -> Result<Option<Event>, NoMemory> {
    let (word, rest) = split_word(line);
    if word == b"plan".as_slice() {
        plan_of(alloc, rest)
    } else if word == b"take".as_slice() {
        take_of(alloc, rest)
    } else if word == b"commit".as_slice() {
        commit_of(alloc, rest)
    } else if word == b"delete".as_slice() {
        delete_of(alloc, rest)
    } else {
        Ok(None)
    }
}
