//! Ids as words.

use fetch_store::{NoMemory, ObjectId, append_hex, append_number, decimal};
use std::alloc::Global;

/// The id of 20 such bytes, where the word is a number below 256, or else the one whose digits these are.
pub(crate) fn id_of(word: &[u8]) -> Option<ObjectId> {
    match decimal(word) {
        Some(number) if number < 256 => Some(ObjectId::Sha1([number as u8; 20])),
        _ => match ObjectId::from_hex(word) {
            Ok(id) => Some(id),
            Err(_) => None,
        },
    }
}

/// The ids that stand between commas, up to the first that is none.
pub(crate) fn ids_of(alloc: Global, text: &[u8]) -> Result<Vec<ObjectId>, NoMemory> {
    let mut ids = Vec::new(alloc);
    for word in text.split(|b| *b == b',') {
        let Some(id) = id_of(word) else {
            break;
        };
        ids.push(id)?;
    }
    Ok(ids)
}

fn is_repeated(id: &ObjectId) -> bool {
    let bytes = id.as_bytes();
    bytes.len() == 20 && bytes.iter().all(|b| *b == bytes[0])
}

/// Appends an id as `id_of` reads it: the number alone where its 20 bytes are the same, and else the digits.
pub(crate) fn append_id(out: &mut Vec<u8>, id: &ObjectId) -> Result<(), NoMemory> {
    if is_repeated(id) {
        append_number(out, usize::from(id.as_bytes()[0]))
    } else {
        append_hex(out, id)
    }
}

/// A line of a word and these ids.
pub(crate) fn say_ids(out: &mut Vec<u8>, word: &[u8], ids: &[ObjectId]) -> Result<(), NoMemory> {
    out.extend_from_slice(word)?;
    for id in ids {
        out.push(b' ')?;
        append_id(out, id)?;
    }
    out.push(b'\n')?;
    Ok(())
}

/// A line of a word and an id.
pub(crate) fn say_id(out: &mut Vec<u8>, word: &[u8], id: &ObjectId) -> Result<(), NoMemory> {
    say_ids(out, word, [*id].as_slice())
}
