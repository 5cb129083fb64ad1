//! Packs that are read and written. The digests of the rows are those of `sha1sum` and `sha256sum`.

ghost use Rattle.std.specs.Prelude.{◌<◌, ◌^◌, length, IfSome, IfOk};

use fetch_pack::{Pack, PackVersion, read_pack, write_pack, write_pack_of};
use fetch_store::{Kind, NoMemory, Object, decimal, split_first};
use rows::{decoded, hash_of, object_kind_of, refuse, say_id, say_number, split_word};
use std::alloc::Global;
use std::thread::Threads;

/// The most bytes of an object that is written.
const LIMIT: usize = 1000;

fn tell_pack(out: &mut Vec<u8>, pack: &Pack) -> Result<(), NoMemory> {
    say_number(out, b"count", pack.count as usize)?;
    for object in pack.objects.as_slice() {
        say_id(out, object.1.as_ref().kind().name(), &object.0)?;
    }
    say_id(out, b"digest", &pack.digest)
}

/// `<hash> <threads> <text>`: reads a pack. Whether the words are these.
pub(crate) fn tell_read(
    rt: &(impl Threads + Sync),
    alloc: Global,
    rest: &[u8],
    out: &mut Vec<u8>,
) -> Result<bool, NoMemory> {
    let (hash, rest) = split_word(rest);
    let (threads, text) = split_word(rest);
    let (Some(hash), Some(threads)) = (hash_of(hash), decimal(threads)) else {
        return Ok(false);
    };
    let text = decoded(alloc, text)?;
    match read_pack(rt, alloc, hash, text.as_slice(), threads as usize) {
        Ok(pack) => tell_pack(out, &pack)?,
        Err(e) => refuse(out, &e)?,
    }
    Ok(true)
}

/// `<kind>=<text>`: an object of SHA-1 of less than `LIMIT` bytes.
fn object_of(alloc: Global, word: &[u8]) -> Result<Option<Object>, NoMemory>
    ensures { IfOk result (λ found. IfSome found (λ o. length o.bytes < 2 ^ 32)) }
{
    let Some((kind, text)) = split_first(b'=', word) else {
        return Ok(None);
    };
    let Some(kind) = object_kind_of(kind) else {
        return Ok(None);
    };
    let text = decoded(alloc, text)?;
    if text.len() > LIMIT {
        return Ok(None);
    }
    Ok(Object::parse(Kind::Sha1, kind, text).ok())
}

/// `1 <object> <object>`, or `2` and the same: writes a pack of this version. Whether the words are these.
pub(crate) fn tell_written(
    alloc: Global,
    rest: &[u8],
    out: &mut Vec<u8>,
) -> Result<bool, NoMemory> {
    let (version, rest) = split_word(rest);
    let (first, second) = split_word(rest);
    let Some(first) = object_of(alloc, first)? else {
        return Ok(false);
    };
    let Some(second) = object_of(alloc, second)? else {
        return Ok(false);
    };
    let objects = vec![in alloc; first, second]?;
    let mut text = Vec::new(alloc);
    let written = if version == b"1".as_slice() {
        write_pack(alloc, Kind::Sha1, objects.as_slice(), &mut text)
    } else {
        write_pack_of(
            alloc,
            PackVersion::V2,
            Kind::Sha1,
            objects.as_slice(),
            &mut text,
        )
    };
    match written {
        Ok(digest) => {
            say_number(out, b"bytes", text.len())?;
            say_id(out, b"digest", &digest)?;
        }
        Err(e) => refuse(out, &e)?,
    }
    Ok(true)
}
