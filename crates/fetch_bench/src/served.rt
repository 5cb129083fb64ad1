//! What a server of the line says.

ghost use Rattle.std.specs.Prelude.{◌≡◌, ◌++◌, map, IfOk, OnOk};
ghost use Rattle.fetch_lines.specs.Bands.{Piece, band_line, pack_lines};
ghost use Rattle.fetch_lines.specs.Cutting.{in_pieces};
ghost use Rattle.fetch_lines.specs.LineViews.{line_of};
ghost use Rattle.fetch_lines.specs.Written.{line_text, lines_text};
ghost use Rattle.fetch_bench.specs.Served as spec;

use fetch_lines::{
    Capability, Line, LineRef, Ref, greeting_lines, in_pieces, listing_lines, write_line,
};
use fetch_store::{NoMemory, ObjectId, Text};
use std::alloc::Global;

/// How many bytes of a pack a line has.
const BAND: usize = 65_000;

fn capability(alloc: Global, name: &[u8], value: &[u8]) -> Result<Capability, NoMemory>
    ensures { IfOk result (λ capability. capability ≡ spec.capability name.now value.now) }
{
    Ok(Capability {
        name: Text::new(alloc, name)?,
        value: Some(Text::new(alloc, value)?),
    })
}

/// What the server offers.
#[tactic(auto, unfolding(crate::specs::Served::capabilities))]
fn capabilities(alloc: Global) -> Result<Vec<Capability>, NoMemory>
    ensures { IfOk result (λ offered. offered.items ≡ spec.capabilities) }
{
    let mut offered = Vec::new(alloc);
    offered.push(capability(alloc, b"ls-refs", b"unborn")?)?;
    offered.push(capability(alloc, b"fetch", b"shallow plain-pack")?)?;
    offered.push(capability(alloc, b"object-format", b"sha1")?)?;
    Ok(offered)
}

/// Lists a reference that has an id, where there is one.
fn push_listed(
    alloc: Global,
    refs: &mut Vec<Ref>,
    name: &[u8],
    tip: Option<ObjectId>,
) -> Result<(), NoMemory>
    ensures { OnOk result (refs.new.items ≡ refs.old.items ++ spec.listed name.now tip) }
{
    if let Some(object) = tip {
        refs.push(Ref::Direct {
            full_ref_name: Text::new(alloc, name)?,
            object,
        })?;
    }
    Ok(())
}

/// The server's two branches.
#[tactic(auto, unfolding(crate::specs::Served::branches))]
fn branches(
    alloc: Global,
    main: Option<ObjectId>,
    old: Option<ObjectId>,
) -> Result<Vec<Ref>, NoMemory>
    ensures { IfOk result (λ refs. refs.items ≡ spec.branches main old) }
{
    let mut refs = Vec::new(alloc);
    push_listed(alloc, &mut refs, b"refs/heads/main", main)?;
    push_listed(alloc, &mut refs, b"refs/heads/old", old)?;
    Ok(refs)
}

/// Puts a line after what is there. It fits, so that memory alone may refuse it.
fn append_line(out: &mut Vec<u8>, line: LineRef<'_>) -> Result<(), NoMemory>
    ensures { OnOk result (out.new.items ≡ out.old.items ++ line_text (line_of line.entry)) }
{
    match write_line(out, line) {
        Ok(()) => Ok(()),
        Err(_) => Err(NoMemory),
    }
}

fn append_lines(out: &mut Vec<u8>, lines: &[Line]) -> Result<(), NoMemory>
    ensures { OnOk result (out.new.items ≡ out.old.items ++ lines_text lines.now) }
{
    for line in lines {
        append_line(out, line.as_ref())?;
    }
    Ok(())
}

/// Puts the line of a part of the pack after what is there.
fn append_band(alloc: Global, out: &mut Vec<u8>, piece: &[u8]) -> Result<(), NoMemory>
    ensures { OnOk result (out.new.items ≡ out.old.items ++ line_text (band_line (Piece piece.now))) }
{
    let mut payload = Vec::from_slice(alloc, &[1])?;
    payload.extend_from_slice(piece)?;
    append_line(out, LineRef::Payload(&payload))
}

fn append_bands(alloc: Global, out: &mut Vec<u8>, pieces: &[Text]) -> Result<(), NoMemory>
    ensures { OnOk result (out.new.items ≡ out.old.items ++ lines_text (map band_line (map Piece pieces.now))) }
{
    for piece in pieces {
        append_band(alloc, out, piece.as_bytes())?;
    }
    Ok(())
}

/// Puts the reply with a pack after what is there.
fn append_reply(alloc: Global, out: &mut Vec<u8>, pack: Vec<u8>) -> Result<(), NoMemory>
    ensures { OnOk result (out.new.items ≡ out.old.items ++ lines_text (pack_lines (map Piece (in_pieces 65000 pack.items)))) }
{
    let pieces = in_pieces(alloc, BAND, &pack)?;
    append_line(out, LineRef::Payload(b"packfile\n"))?;
    append_bands(alloc, out, &pieces)?;
    append_line(out, LineRef::Flush)
}

/// All that a server says which has these commits at its branches and gives this pack: the greeting, the listing, and
/// the reply, in whose lines stand 65,000 bytes of the pack each, and in the last one what is left.
pub(crate) fn stream_of(
    alloc: Global,
    main: Option<ObjectId>,
    old: Option<ObjectId>,
    pack: Vec<u8>,
) -> Result<Vec<u8>, NoMemory>
    ensures { IfOk result (λ stream. stream.items ≡ spec.stream_of (spec.branches main old) pack.items) }
{
    let mut stream = Vec::new(alloc);
    append_lines(&mut stream, &greeting_lines(alloc, &capabilities(alloc)?)?)?;
    append_lines(
        &mut stream,
        &listing_lines(alloc, &branches(alloc, main, old)?)?,
    )?;
    append_reply(alloc, &mut stream, pack)?;
    Ok(stream)
}
