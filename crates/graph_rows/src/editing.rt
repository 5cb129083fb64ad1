//! Edits of references, as lines say them.

use crate::words::id_of;
use fetch_refs::{Change, LogChange, PreviousValue, RefEdit, RefLog, Target};
use fetch_specs::FullName;
use fetch_store::{NoMemory, Text};
use rows::{name_of, split_word};
use std::alloc::Global;

/// The target that a word is: an id, or a name.
pub(crate) fn target_of(alloc: Global, word: &[u8]) -> Result<Option<Target>, NoMemory> {
    if let Some(id) = id_of(word) {
        return Ok(Some(Target::Object(id)));
    }
    match name_of(alloc, word)? {
        Some(name) => Ok(Some(Target::Symbolic(name))),
        None => Ok(None),
    }
}

/// What an update expects: nothing, its own value, that or nothing, or whatever stands there.
fn expected_of(word: &[u8], new: &Target) -> Result<PreviousValue, NoMemory> {
    if word == b"new".as_slice() {
        Ok(PreviousValue::MustNotExist)
    } else if word == b"match".as_slice() {
        Ok(PreviousValue::MustExistAndMatch(new.try_clone()?))
    } else if word == b"unless-other".as_slice() {
        Ok(PreviousValue::ExistingMustMatch(new.try_clone()?))
    } else {
        Ok(PreviousValue::Any)
    }
}

/// An update with the message `made`, which `force` writes where no reflog would be written, and `log` writes alone.
fn update_of(alloc: Global, word: &[u8], name: FullName, new: Target) -> Result<RefEdit, NoMemory> {
    let is_alone = word == b"log".as_slice();
    let expected = expected_of(word, &new)?;
    Ok(RefEdit {
        change: Change::Update {
            log: LogChange {
                mode: if is_alone {
                    RefLog::Only
                } else {
                    RefLog::AndReference
                },
                force_create_reflog: word == b"force".as_slice(),
                message: Text::new(alloc, b"made")?,
            },
            expected,
            new,
        },
        name,
    })
}

fn delete_of(name: FullName, log: RefLog) -> RefEdit {
    RefEdit {
        change: Change::Delete {
            expected: PreviousValue::MustExist,
            log,
        },
        name,
    }
}

fn is_update(word: &[u8]) -> bool {
    [
        b"set".as_slice(),
        b"new".as_slice(),
        b"force".as_slice(),
        b"log".as_slice(),
        b"match".as_slice(),
        b"unless-other".as_slice(),
    ]
    .contains(&word)
}

/// The edit that a line asks for: `set`, `new`, `force`, `log`, `match` or `unless-other`, a name and a target; or `delete` or
/// `delete-log` and a name.
pub(crate) fn edit_of(
    alloc: Global,
    word: &[u8],
    rest: &[u8],
) -> Result<Option<RefEdit>, NoMemory> {
    let (name, target) = split_word(rest);
    let Some(name) = name_of(alloc, name)? else {
        return Ok(None);
    };
    if word == b"delete".as_slice() {
        return Ok(Some(delete_of(name, RefLog::AndReference)));
    }
    if word == b"delete-log".as_slice() {
        return Ok(Some(delete_of(name, RefLog::Only)));
    }
    match target_of(alloc, target)? {
        Some(target) if is_update(word) => Ok(Some(update_of(alloc, word, name, target)?)),
        _ => Ok(None),
    }
}
