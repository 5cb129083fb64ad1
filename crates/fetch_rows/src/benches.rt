//! The texts of scenes that a bench fetches.

use fetch_cli::generate;
use fetch_store::{NoMemory, decimal};

/// Puts down the text of a bench's scene. Whether the row says how many commits its line has.
pub(crate) fn tell_text(count: &[u8], out: &mut Vec<u8>) -> Result<bool, NoMemory> {
    let Some(number) = decimal(count) else {
        return Ok(false);
    };
    let number = u32::try_from(number).unwrap_or(0);
    if number < 1 || number > 100_000 {
        return Ok(false);
    }
    generate(number, out)?;
    out.push(b'\n')?;
    Ok(true)
}
