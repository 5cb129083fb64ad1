//! Replies of a server that come with a pack, as lines.

ghost use Rattle.std.specs.Prelude.{◌≡◌, ◌++◌, map, Some, IfOk, OnOk};
ghost use Rattle.std.specs.Option.{option_map};
ghost use Rattle.fetch_lines.specs.Bands.{Piece, band_line, pack_lines};
ghost use Rattle.fetch_lines.specs.ServerLines.{bands_of, change_lines, change_of, last_lines, ready_lines};

use crate::lines::cutting::in_pieces;
use crate::lines::line::Line;
use crate::requests::request_parts::append_texts;
use crate::server::server_lines::{append_acknowledged, append_ids};
use fetch_base::{NoMemory, ObjectId, Text};
use std::alloc::Global;

/// The ids that come to the border, and those that leave it.
type Change<'a> = (&'a [ObjectId], &'a [ObjectId]);

/// How many bytes of a pack a band holds at most.
const BAND: usize = 65_515;

/// Appends the commits that come to the border, and those that leave it.
fn append_moves(
    alloc: Global,
    lines: &mut Vec<Line>,
    shallow: &[ObjectId],
    unshallow: &[ObjectId],
) -> Result<(), NoMemory>
    ensures { OnOk result (lines.new.items ≡ lines.old.items
        ++ change_lines (Some (record { shallow = shallow.now; unshallow = unshallow.now }))) }
{
    let mut texts = Vec::new(alloc);
    texts.push(Text::new(alloc, b"shallow-info")?)?;
    append_ids(alloc, &mut texts, b"shallow ", shallow)?;
    append_ids(alloc, &mut texts, b"unshallow ", unshallow)?;
    append_texts(alloc, lines, &texts)?;
    lines.push(Line::Delim)?;
    Ok(())
}

/// Appends the change of the border, where there is one.
fn append_change(
    alloc: Global,
    lines: &mut Vec<Line>,
    change: Option<Change<'_>>,
) -> Result<(), NoMemory>
    ensures { OnOk result (lines.new.items ≡ lines.old.items
        ++ change_lines (change_of (option_map (λ x. (x.0.now, x.1.now)) change.entry))) }
{
    match change {
        Some((shallow, unshallow)) => append_moves(alloc, lines, shallow, unshallow),
        None => Ok(()),
    }
}

/// The line of a part of the pack.
fn band_line(alloc: Global, piece: &[u8]) -> Result<Line, NoMemory>
    ensures { IfOk result (λ line. line ≡ band_line (Piece piece.now)) }
{
    let mut payload = Vec::from_slice(alloc, &[1])?;
    payload.extend_from_slice(piece)?;
    Ok(Line::Payload(Text::from(payload)))
}

/// Appends the bands of the pieces.
fn append_bands(alloc: Global, lines: &mut Vec<Line>, pieces: &[Text]) -> Result<(), NoMemory>
    ensures { OnOk result (lines.new.items ≡ lines.old.items ++ map band_line (map Piece pieces.now)) }
{
    for piece in pieces {
        lines.push(band_line(alloc, piece.as_bytes())?)?;
    }
    Ok(())
}

/// Appends `packfile`, the pack in bands, and the flush.
fn append_pack(alloc: Global, lines: &mut Vec<Line>, pack: &[u8]) -> Result<(), NoMemory>
    ensures { OnOk result (lines.new.items ≡ lines.old.items ++ pack_lines (bands_of pack.now)) }
{
    lines.push(Line::Payload(Text::new(alloc, b"packfile\n")?))?;
    let pieces = in_pieces(alloc, BAND, pack)?;
    append_bands(alloc, lines, &pieces)?;
    lines.push(Line::Flush)?;
    Ok(())
}

/// The reply to `done`: the change of the border, where there is one, as the ids that come to it and those that leave
/// it, and the pack in bands of 65,515 bytes, the last of which may be shorter.
pub fn last_lines(
    alloc: Global,
    change: Option<(&[ObjectId], &[ObjectId])>,
    pack: &[u8],
) -> Result<Vec<Line>, NoMemory>
    ensures { IfOk result (λ found. found.items
        ≡ last_lines (change_of (option_map (λ x. (x.0.now, x.1.now)) change.entry)) (bands_of pack.now)) }
{
    let mut lines = Vec::new(alloc);
    append_change(alloc, &mut lines, change)?;
    append_pack(alloc, &mut lines, pack)?;
    Ok(lines)
}

/// The reply that ends the rounds by itself: these haves are acknowledged, and what `last_lines` has stands after
/// `ready`.
pub fn ready_lines(
    alloc: Global,
    ids: &[ObjectId],
    change: Option<(&[ObjectId], &[ObjectId])>,
    pack: &[u8],
) -> Result<Vec<Line>, NoMemory>
    ensures { IfOk result (λ found. found.items
        ≡ ready_lines ids.now (change_of (option_map (λ x. (x.0.now, x.1.now)) change.entry)) (bands_of pack.now)) }
{
    let mut texts = Vec::new(alloc);
    texts.push(Text::new(alloc, b"acknowledgments")?)?;
    append_acknowledged(alloc, &mut texts, ids)?;
    texts.push(Text::new(alloc, b"ready")?)?;
    let mut lines = Vec::new(alloc);
    append_texts(alloc, &mut lines, &texts)?;
    lines.push(Line::Delim)?;
    append_change(alloc, &mut lines, change)?;
    append_pack(alloc, &mut lines, pack)?;
    Ok(lines)
}
