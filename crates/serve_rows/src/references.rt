//! The references that a row's lines put down.

use fetch_refs::{
    Change, LogChange, PackedRefs, PreviousValue, RefEdit, RefError, RefLog, Refs, Signature,
    Target,
};
use fetch_specs::FullName;
use fetch_store::{NoMemory, ObjectId, Text};
use rows::{name_of, nobody, split_word};
use std::alloc::Global;

/// The target that a word is: an id, or a name.
fn target_of(alloc: Global, word: &[u8]) -> Result<Option<Target>, NoMemory> {
    if let Ok(id) = ObjectId::from_hex(word) {
        return Ok(Some(Target::Object(id)));
    }
    match name_of(alloc, word)? {
        Some(name) => Ok(Some(Target::Symbolic(name))),
        None => Ok(None),
    }
}

/// An update of a name, whatever stands there.
fn update_of(alloc: Global, name: FullName, new: Target) -> RefEdit {
    RefEdit {
        change: Change::Update {
            log: LogChange {
                mode: RefLog::AndReference,
                force_create_reflog: false,
                message: Text::from(Vec::new(alloc)),
            },
            expected: PreviousValue::Any,
            new,
        },
        name,
    }
}

fn commit(refs: &mut Refs, edits: &[RefEdit], committer: &Signature) -> Result<(), RefError> {
    let prepared = refs.prepare(edits, committer, false, PackedRefs::Never)?;
    prepared.commit();
    Ok(())
}

/// `<name> <id or name>`: adds a reference. Whether the words are these.
pub(crate) fn add_reference(alloc: Global, refs: &mut Refs, rest: &[u8]) -> Result<bool, NoMemory> {
    let (name, target) = split_word(rest);
    let Some(name) = name_of(alloc, name)? else {
        return Ok(false);
    };
    let Some(target) = target_of(alloc, target)? else {
        return Ok(false);
    };
    let edits = vec![in alloc; update_of(alloc, name, target)]?;
    match commit(refs, edits.as_slice(), &nobody(alloc)) {
        Ok(()) => Ok(true),
        Err(_) => Err(NoMemory),
    }
}
