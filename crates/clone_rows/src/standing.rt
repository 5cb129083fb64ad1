//! What stands in files.

use fetch_store::{Files, NoMemory};
use rows::{say, say_lines};

/// A file with its lines, or that it isn't there.
pub(crate) fn say_file<F: Files>(
    files: &mut F,
    path: &[u8],
    out: &mut Vec<u8>,
) -> Result<(), NoMemory> {
    match files.read(path) {
        Ok(Some(text)) => {
            say(out, &[b"file", path])?;
            say_lines(out, text.as_bytes())
        }
        Ok(None) => say(out, &[b"no file", path]),
        Err(_) => say(out, &[b"unread", path]),
    }
}

/// Whether something stands at a path.
pub(crate) fn say_place<F: Files>(
    files: &mut F,
    path: &[u8],
    out: &mut Vec<u8>,
) -> Result<(), NoMemory> {
    match files.kind_of(path) {
        Ok(Some(_)) => say(out, &[path, b"stands"]),
        Ok(None) => say(out, &[path, b"isn't there"]),
        Err(_) => say(out, &[path, b"is unknown"]),
    }
}
