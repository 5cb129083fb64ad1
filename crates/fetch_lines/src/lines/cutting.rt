//! Bytes that are cut into pieces.

ghost use Rattle.std.specs.Prelude.{◌≡◌, ◌<◌, IfOk};
ghost use Rattle.fetch_lines.specs.Cutting as spec;

use fetch_base::{NoMemory, Text};
use std::alloc::Global;

/// The bytes in pieces of this size, of which the last may be shorter. No piece is empty.
pub fn in_pieces(alloc: Global, size: usize, bytes: &[u8]) -> Result<Vec<Text>, NoMemory>
    requires { 0 < size }
    ensures { IfOk result (λ pieces. pieces.items ≡ spec.in_pieces size bytes.now) }
{
    let mut pieces = Vec::new(alloc);
    let mut rest = bytes;
    'pieces: while rest.len() > 0 {
        let (piece, behind) = rest.split_at(rest.len().min(size));
        pieces.push(Text::new(alloc, piece)?)?;
        rest = behind;
    }
    Ok(pieces)
}
