//! Rows, and lines.

use crate::words::split_word;
use fetch_store::{NoMemory, after, decimal, split_first};
use std::alloc::Global;

/// A row of a program that has rows of several kinds.
#[derive(Clone, Copy)]
pub struct Row<'a> {
    /// The word that says whose row it is.
    pub whose: &'a [u8],
    /// What it shows.
    pub about: &'a [u8],
    /// The bytes of its scene, of which there are none where it has no scene.
    pub scene: &'a [u8],
    /// Its other lines, each with its line feed.
    pub lines: &'a [u8],
}

/// The row at the front, and what stands after it. None where none stands there.
///
/// A row begins with a line `= <whose> <what it shows>`. Then may come a line `scene <bytes>`, so many bytes, and a line
/// feed. All lines up to the next that begins with `= ` are its own.
fn row_at(bytes: &[u8]) -> Option<(Row<'_>, &[u8])> {
    let (title, rest) = split_first(b'\n', after(b"= ", bytes)?)?;
    let (whose, about) = split_word(title);
    let (scene, rest) = match after(b"scene ", rest) {
        Some(counted) => split_scene(counted)?,
        None => (&[] as &[u8], rest),
    };
    let (lines, behind) = split_lines(rest);
    let row = Row {
        whose,
        about,
        scene,
        lines,
    };
    Some((row, behind))
}

/// The scene after its length, and what stands after its line feed.
fn split_scene(bytes: &[u8]) -> Option<(&[u8], &[u8])> {
    let (digits, rest) = split_first(b'\n', bytes)?;
    let length = usize::try_from(decimal(digits)?).ok()?;
    let scene = rest.get(..length)?;
    let behind = after(b"\n", rest.get(length..)?)?;
    Some((scene, behind))
}

/// The lines before the next row, and what stands from there on.
fn split_lines(bytes: &[u8]) -> (&[u8], &[u8]) {
    if bytes.starts_with(b"= ") {
        return (&[], bytes);
    }
    match bytes
        .windows(3)
        .position(|three| three == b"\n= ".as_slice())
    {
        Some(place) => bytes.split_at(place + 1),
        None => (bytes, &[]),
    }
}

/// The lines of a text, without their line feeds.
pub fn lines<'a>(alloc: Global, text: &'a [u8]) -> Result<Vec<&'a [u8]>, NoMemory> {
    let mut lines = Vec::new(alloc);
    let mut rest = text;
    for _ in 0..text.len() {
        let Some((line, behind)) = split_first(b'\n', rest) else {
            break;
        };
        lines.push(line)?;
        rest = behind;
    }
    if !rest.is_empty() {
        lines.push(rest)?;
    }
    Ok(lines)
}

/// All rows of an input. None where something stands among them that is no row.
pub fn rows_of<'a>(alloc: Global, bytes: &'a [u8]) -> Result<Option<Vec<Row<'a>>>, NoMemory> {
    let mut rows = Vec::new(alloc);
    let mut rest = bytes;
    for _ in 0..bytes.len() {
        let Some((row, behind)) = row_at(rest) else {
            break;
        };
        rows.push(row)?;
        rest = behind;
    }
    Ok(if rest.is_empty() { Some(rows) } else { None })
}
