//! The replies to fetch requests.

ghost use Rattle.std.specs.Prelude.{◌≡◌, ◌≤◌, ◌++◌, [], false, length, All, None, Some, OnOk};
ghost use Rattle.fetch_reach.specs.Named.{IsOwnId};
ghost use Rattle.fetch_reach.specs.Stored.{objects_at};
ghost use Rattle.fetch_serve.specs.Depths.{depth_of};
ghost use Rattle.fetch_serve.specs.Offered.{offered_of};
ghost use Rattle.fetch_serve.specs.Packs.{stored_in};
ghost use Rattle.fetch_serve.specs.Parts.{held_by};
ghost use Rattle.fetch_serve.specs.Replies as spec;
ghost use Rattle.fetch_serve.specs.Servable.{IsServable};
ghost use Rattle.fetch_base.specs.Digits.{hex_of};
ghost use Rattle.fetch_lines.specs.ServerLines.{bands_of, change_lines, round_lines};
ghost use Rattle.fetch_lines.specs.Bands.{pack_lines};
ghost use Rattle.fetch_lines.specs.RequestLines.{id_lines};
ghost use Rattle.fetch_lines.specs.Requests.{sent, text_line};
ghost use Rattle.fetch_lines.specs.Written.{line_text, lines_text};

use crate::bands::append_bands;
use crate::depth::{Depth, decided};
use crate::limits::is_too_large;
use crate::offered::{Wanted, first_unoffered, offered};
use crate::parts::Parts;
use crate::replying::{append_line, append_lines};
use crate::served::{border_of, known, served};
use fetch_asked::FetchAsked;
use fetch_lines::{LineRef, Ref, round_lines};
use fetch_reach::write_stored;
use fetch_store::{NoMemory, ObjectId, append_hex};
use std::alloc::Global;

/// Appends the one line of a server that doesn't offer this id.
fn append_not_offered(alloc: Global, id: &ObjectId, out: &mut Vec<u8>) -> Result<(), NoMemory>
    ensures { OnOk result (out.new.items ≡ out.old.items ++ lines_text (spec.error_lines (spec.not_offered id.now))) }
{
    // An id has few bytes.
    let _bytes = id.as_bytes();
    let mut text = Vec::from_slice(alloc, b"ERR want ")?;
    append_hex(&mut text, id)?;
    text.extend_from_slice(b" not offered\n")?;
    append_line(out, LineRef::Payload(text.as_slice()))
}

/// Appends the one line of a server whose pack would be too large.
#[tactic(auto, unfolding(crate::specs::Replies::too_large))]
fn append_too_large(out: &mut Vec<u8>) -> Result<(), NoMemory>
    ensures { OnOk result (out.new.items ≡ out.old.items ++ lines_text (spec.error_lines spec.too_large)) }
{
    append_line(out, LineRef::Payload(b"ERR pack too large\n"))
}

/// Appends the line of a word and an id.
fn append_id(alloc: Global, word: &[u8], id: &ObjectId, out: &mut Vec<u8>) -> Result<(), NoMemory>
    requires { length word.now ≤ 100 }
    ensures { OnOk result (out.new.items ≡ out.old.items ++ line_text (text_line (word.now ++ hex_of id.now))) }
{
    // An id has few bytes.
    let _bytes = id.as_bytes();
    let mut text = Vec::from_slice(alloc, word)?;
    append_hex(&mut text, id)?;
    text.push(b'\n')?;
    append_line(out, LineRef::Payload(text.as_slice()))
}

/// Appends a line for each of the ids.
fn append_ids(
    alloc: Global,
    word: &[u8],
    ids: &[ObjectId],
    out: &mut Vec<u8>,
) -> Result<(), NoMemory>
    requires { length word.now ≤ 100 }
    ensures { OnOk result (out.new.items ≡ out.old.items ++ lines_text (sent (id_lines word.now ids.now))) }
{
    for id in ids {
        append_id(alloc, word, id, out)?;
    }
    Ok(())
}

/// Appends how the border changes.
fn append_moves(alloc: Global, depth: &Depth, out: &mut Vec<u8>) -> Result<(), NoMemory>
    ensures { OnOk result (out.new.items ≡ out.old.items ++ lines_text
        (change_lines (Some (record { shallow = depth.now.shallow; unshallow = depth.now.unshallow })))) }
{
    append_line(out, LineRef::Payload(b"shallow-info\n"))?;
    append_ids(alloc, b"shallow ", depth.shallow.as_slice(), out)?;
    append_ids(alloc, b"unshallow ", depth.unshallow.as_slice(), out)?;
    append_line(out, LineRef::Delim)
}

/// Appends the change of the border, where the request has depth lines.
fn append_change(
    parts: Parts<'_>,
    asked: &FetchAsked,
    depth: &Depth,
    out: &mut Vec<u8>,
) -> Result<(), NoMemory>
    requires { depth.now ≡ depth_of (held_by parts) asked.now }
    ensures { OnOk result (out.new.items ≡ out.old.items ++ lines_text
        (change_lines (spec.change_in (held_by parts.entry) asked.now asked.now.depth))) }
{
    match asked.depth {
        None => Ok(()),
        Some(_) => append_moves(parts.alloc, depth, out),
    }
}

/// Appends the line before a pack, the pack in bands, and the flush.
fn append_bytes(pack: &[u8], out: &mut Vec<u8>) -> Result<(), NoMemory>
    ensures { OnOk result (out.new.items ≡ out.old.items ++ lines_text (pack_lines (bands_of pack.now))) }
{
    append_line(out, LineRef::Payload(b"packfile\n"))?;
    append_bands(out, pack)?;
    append_line(out, LineRef::Flush)
}

/// Appends the reply with the pack of these ids, or that it is too large.
fn append_pack(
    parts: Parts<'_>,
    asked: &FetchAsked,
    depth: &Depth,
    ids: &[ObjectId],
    out: &mut Vec<u8>,
) -> Result<(), NoMemory>
    requires depth { depth.now ≡ depth_of (held_by parts) asked.now }
    requires own { All (IsOwnId (held_by parts).objects) ids.now }
    ensures { OnOk result (out.new.items ≡ out.old.items ++ lines_text
        (spec.pack_lines (held_by parts.entry) asked.now (objects_at (held_by parts.entry).objects ids.now))) }
{
    if is_too_large(asked.version, parts.store, ids) {
        return append_too_large(out);
    }
    let mut pack = Vec::new(parts.alloc);
    write_stored(asked.version, parts.store, ids, &mut pack)?;
    append_change(parts, asked, depth, out)?;
    append_bytes(pack.as_slice(), out)
}

/// Appends which haves are known.
fn append_round(parts: Parts<'_>, haves: &[ObjectId], out: &mut Vec<u8>) -> Result<(), NoMemory>
    requires { IsServable (held_by parts) }
    ensures { OnOk result (out.new.items ≡ out.old.items ++ lines_text (round_lines (stored_in (held_by parts.entry).objects haves.now))) }
{
    let haves = known(parts.alloc, parts.store, haves)?;
    let lines = round_lines(parts.alloc, haves.as_slice())?;
    append_lines(out, &lines)
}

/// Appends the pack, or, before the client is done, which haves are known.
fn append_fetched(
    parts: Parts<'_>,
    asked: &FetchAsked,
    references: &[Ref],
    out: &mut Vec<u8>,
) -> Result<(), NoMemory>
    requires servable { IsServable (held_by parts) }
    requires offered { references.now ≡ offered_of (held_by parts) false [] }
    ensures { OnOk result (out.new.items ≡ out.old.items ++ lines_text (spec.fetched_lines (held_by parts.entry) asked.now)) }
{
    if asked.done {
        let border = border_of(parts.alloc, asked)?;
        let depth = decided(parts, asked, &border, references)?;
        let ids = served(parts, asked, &border, &depth, references)?;
        return append_pack(parts, asked, &depth, ids.as_slice(), out);
    }
    append_round(parts, asked.haves.as_slice(), out)
}

/// Appends the reply to a fetch request: an error line, where a want isn't offered or the pack is too large.
pub(crate) fn append_fetch(
    parts: Parts<'_>,
    asked: &FetchAsked,
    out: &mut Vec<u8>,
) -> Result<(), NoMemory>
    requires { IsServable (held_by parts) }
    ensures { OnOk result (out.new.items ≡ out.old.items ++ lines_text
        (spec.fetch_lines (held_by parts.entry) asked.now (spec.first_unoffered (held_by parts.entry) asked.now))) }
{
    let all = Wanted {
        unborn: false,
        prefixes: &[],
    };
    let references = offered(parts, all)?;
    let unoffered = first_unoffered(parts.alloc, &references, asked.wants.as_slice())?;
    match unoffered {
        Some(id) => append_not_offered(parts.alloc, &id, out),
        None => append_fetched(parts, asked, &references, out),
    }
}
