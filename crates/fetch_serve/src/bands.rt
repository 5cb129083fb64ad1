//! A pack in bands, as it is written.

ghost use Rattle.std.specs.Prelude.{◌≡◌, ◌++◌, ◌≤◌, ◌<◌, map, length, OnOk};
ghost use Rattle.fetch_lines.specs.Bands.{Piece, band_line};
ghost use Rattle.fetch_lines.specs.ServerLines.{bands_of};
ghost use Rattle.fetch_lines.specs.Written.{line_text, lines_text};

use fetch_lines::length_digits;
use fetch_store::NoMemory;

/// How many bytes of a pack a band holds at most.
const BAND: usize = 65_515;

/// Appends one band.
#[tactic(auto, unfolding(fetch_lines::specs::Written::line_text))]
fn append_band(out: &mut Vec<u8>, piece: &[u8]) -> Result<(), NoMemory>
    requires { length piece.now ≤ 65515 }
    ensures { OnOk result (out.new.items ≡ out.old.items ++ line_text (band_line (Piece piece.now))) }
{
    out.extend_from_slice(&length_digits(piece.len() + 5))?;
    out.push(1)?;
    out.extend_from_slice(piece)?;
    Ok(())
}

/// Appends the pack in bands of 65,515 bytes, the last of which may be shorter.
pub(crate) fn append_bands(out: &mut Vec<u8>, pack: &[u8]) -> Result<(), NoMemory>
    ensures { OnOk result (out.new.items ≡ out.old.items ++ lines_text (map band_line (bands_of pack.now))) }
{
    let mut rest = pack;
    'bands: while rest.len() > 0 {
        let (piece, behind) = rest.split_at(rest.len().min(BAND));
        append_band(out, piece)?;
        rest = behind;
    }
    Ok(())
}
