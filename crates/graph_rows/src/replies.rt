//! Lines of replies, whose bytes come in pieces.

use fetch_store::{NoMemory, decimal};
use fetch_wire::{LineReader, Need, ReplyBound, WireError, write_line};
use rows::{decoded, say, say_number, split_word};
use std::alloc::Global;

/// The most lines that a reader is asked for at once.
const LINES: u32 = 400;

/// Takes all lines that are there, and appends each as it is written. Answers why a line is refused.
fn take_lines(reader: &mut LineReader, lines: &mut Vec<u8>) -> Result<Option<WireError>, NoMemory> {
    for _ in 0..LINES {
        match reader.next() {
            Ok(Need::Line(line)) => {
                if write_line(lines, line).is_err() {
                    return Err(NoMemory);
                }
            }
            Ok(Need::More) => return Ok(None),
            Err(refusal) => return Ok(Some(refusal)),
        }
    }
    Ok(None)
}

/// The same after the next bytes.
fn feed(
    reader: &mut LineReader,
    piece: &[u8],
    lines: &mut Vec<u8>,
) -> Result<Option<WireError>, NoMemory> {
    match reader.feed(piece) {
        Ok(()) => take_lines(reader, lines),
        Err(_) => Err(NoMemory),
    }
}

/// Why a call is refused, if it is.
pub(crate) fn tell_refusal(out: &mut Vec<u8>, refusal: &Option<WireError>) -> Result<(), NoMemory> {
    match refusal {
        None => say(out, &[b"taken"]),
        Some(WireError::NoMemory) => Err(NoMemory),
        Some(WireError::Malformed { place }) => say_number(out, b"refused: broken at", *place),
        Some(WireError::ServerError { text }) => say(out, &[b"refused: said", text.as_bytes()]),
        Some(WireError::MissingFeature { name }) => {
            say(out, &[b"refused: lacks", name.as_bytes()])
        }
        Some(WireError::ReplyTooLong { .. }) => say(out, &[b"refused: too long"]),
        Some(_) => say(out, &[b"refused otherwise"]),
    }
}

/// The lines that a reader gave, where they are not all that it was fed.
fn tell_lines(out: &mut Vec<u8>, fed: &[u8], lines: &[u8]) -> Result<(), NoMemory> {
    if lines == fed {
        say(out, &[b"lines: all that was fed"])
    } else {
        say(out, &[b"lines:", lines])
    }
}

/// What a reader answers to the second of two pieces, and to a third, and the lines that it gave.
#[derive(Drop, PartialEq)]
struct Fed {
    second: Option<WireError>,
    third: Option<WireError>,
    lines: Vec<u8>,
}

/// Feeds a text in two pieces, and then a third. Answers first whether the first was refused.
fn feed_cut(
    alloc: Global,
    front: &[u8],
    back: &[u8],
    third: &[u8],
) -> Result<(bool, Fed), NoMemory> {
    let mut lines = Vec::new(alloc);
    let mut reader = LineReader::new(alloc, ReplyBound::default());
    let first = feed(&mut reader, front, &mut lines)?;
    let second = feed(&mut reader, back, &mut lines)?;
    let third = feed(&mut reader, third, &mut lines)?;
    let fed = Fed {
        second,
        third,
        lines,
    };
    Ok((first.is_some(), fed))
}

/// Cuts a text in two in each way. Tells each cut whose front is refused, and each that ends otherwise than the one whose
/// front is empty, and how many cuts there are.
fn tell_cuts(
    alloc: Global,
    text: &[u8],
    third: &[u8],
    whole: &Fed,
    out: &mut Vec<u8>,
) -> Result<(), NoMemory> {
    for cut in 0..=text.len() {
        let (is_early, fed) = feed_cut(alloc, &text[..cut], &text[cut..], third)?;
        if is_early {
            say_number(out, b"refused before the cut at", cut)?;
        }
        if fed != *whole {
            say_number(out, b"otherwise at", cut)?;
        }
    }
    say_number(out, b"last cut", text.len())
}

/// `<text> <text>`: feeds the first in two pieces, cut in each way, and then the second.
pub(crate) fn tell_cut(alloc: Global, rest: &[u8], out: &mut Vec<u8>) -> Result<(), NoMemory> {
    let (text, third) = split_word(rest);
    let text = decoded(alloc, text)?;
    let (_, whole) = feed_cut(alloc, &[], &text, third)?;
    tell_refusal(out, &whole.second)?;
    tell_refusal(out, &whole.third)?;
    tell_lines(out, &text, &whole.lines)?;
    tell_cuts(alloc, &text, third, &whole, out)
}

/// `<text>`: feeds it byte by byte.
pub(crate) fn tell_bytes(alloc: Global, text: &[u8], out: &mut Vec<u8>) -> Result<(), NoMemory> {
    let text = decoded(alloc, text)?;
    let mut lines = Vec::new(alloc);
    let mut reader = LineReader::new(alloc, ReplyBound::default());
    for byte in &text {
        let refusal = feed(&mut reader, &[*byte], &mut lines)?;
        if refusal.is_some() {
            tell_refusal(out, &refusal)?;
        }
    }
    say_number(out, b"fed", text.len())?;
    tell_lines(out, &text, &lines)
}

/// `<bound> <piece>*`: feeds these pieces of a reply of so many bytes at most, and asks for the next reply. Whether the
/// first word is a bound.
pub(crate) fn tell_bounded(
    alloc: Global,
    rest: &[u8],
    out: &mut Vec<u8>,
) -> Result<bool, NoMemory> {
    let (bound, pieces) = split_word(rest);
    let bound = u32::try_from(decimal(bound).unwrap_or(0)).unwrap_or(0);
    let Some(bound) = ReplyBound::new(bound) else {
        return Ok(false);
    };
    let mut fed = Vec::new(alloc);
    let mut lines = Vec::new(alloc);
    let mut reader = LineReader::new(alloc, bound);
    for piece in pieces.split(|b| *b == b' ') {
        let piece = decoded(alloc, piece)?;
        fed.extend_from_slice(&piece)?;
        tell_refusal(out, &feed(&mut reader, &piece, &mut lines)?)?;
    }
    reader.next_reply();
    tell_refusal(out, &take_lines(&mut reader, &mut lines)?)?;
    tell_lines(out, &fed, &lines)?;
    Ok(true)
}
