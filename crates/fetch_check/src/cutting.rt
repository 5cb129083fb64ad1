//! A pack that is cut into lines where it stands.

ghost use Rattle.std.specs.Prelude.{◌≡◌, ◌+◌, ◌*◌, ◌≤◌, ◌<◌, ◌++◌, length, take, drop, OnErr, OnOk};
ghost use Rattle.fetch_pack.specs.Texts.{Keeps};
ghost use Rattle.fetch_lines.specs.Written.{lines_text};
ghost use Rattle.fetch_check.specs.Bundles.{piece_lines};

use crate::writing::{PIECE, append_line};
use fetch_lines::LineRef;
use fetch_store::NoMemory;
use std::alloc::Global;

/// How many bytes a line of a whole piece has.
const LINE: usize = PIECE + 4;

/// How many lines the pieces of so many bytes have.
pub(crate) fn count_of(len: usize) -> usize
    ensures all { len ≤ 65000 * result }
    ensures least { 65000 * result < len + 65000 }
{
    len.div_ceil(PIECE)
}

/// Puts what stands from a place on into lines of `PIECE` bytes, of which the last may be shorter. It takes memory for
/// the digits of the lines, and for one line.
pub(crate) fn cut_from(alloc: Global, out: &mut Vec<u8>, start: usize) -> Result<(), NoMemory>
    requires { start ≤ length out.old.items }
    ensures lines { OnOk result (out.new.items ≡ take start out.old.items ++ lines_text (piece_lines (drop start out.old.items))) }
    ensures keeps { OnErr result (Keeps (take start out.old.items) out.new.items) }
{
    let len = out.len() - start;
    let count = count_of(len);
    let Some(end) = out.len().checked_add(4 * count) else {
        return Err(NoMemory);
    };
    out.resize(end, 0)?;
    let mut line = Vec::with_capacity(alloc, LINE)?;
    cut(&mut out[start..], len, count, &mut line)
}

/// Puts the first bytes of a text into lines, which fill it. The last one goes to its place first, so that none goes over
/// bytes that are still to be moved.
fn cut(text: &mut [u8], len: usize, count: usize, line: &mut Vec<u8>) -> Result<(), NoMemory>
    requires room { length text.old ≡ len + 4 * count }
    requires all { len ≤ 65000 * count }
    requires least { 65000 * count < len + 65000 }
    ensures lines { OnOk result (text.new ≡ lines_text (piece_lines (take len text.old))) }
{
    let mut left = count;
    'pieces: while left > 0 {
        left -= 1;
        let from = PIECE * left;
        let end = from + (len - from).min(PIECE);
        line.clear();
        append_line(line, LineRef::Payload(&text[from..end]))?;
        put(text, LINE * left, line.as_slice());
    }
    Ok(())
}

/// Puts a line in the place of what stands there.
fn put(text: &mut [u8], place: usize, line: &[u8])
    requires { place + length line.now ≤ length text.old }
    ensures { text.new ≡ take place text.old ++ line.now ++ drop (place + length line.now) text.old }
{
    text[place..place + line.len()].copy_from_slice(line);
}
