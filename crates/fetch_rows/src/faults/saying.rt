//! What a peer says, in the pieces in which it comes.

use super::reading::{Fault, Kind};
use fetch_store::{NoMemory, Text};
use std::alloc::Global;

/// All pieces as one.
fn joined(alloc: Global, pieces: &[Text]) -> Result<Vec<u8>, NoMemory> {
    let mut bytes = Vec::new(alloc);
    for piece in pieces {
        bytes.extend_from_slice(piece.as_bytes())?;
    }
    Ok(bytes)
}

/// The first bytes, this many at most.
fn cut(bytes: &[u8], length: usize) -> &[u8] {
    match bytes.get(..length) {
        Some(front) => front,
        None => bytes,
    }
}

/// One piece alone.
fn alone(alloc: Global, bytes: &[u8]) -> Result<Vec<Text>, NoMemory> {
    let mut pieces = Vec::new(alloc);
    pieces.push(Text::new(alloc, bytes)?)?;
    Ok(pieces)
}

/// The first piece of this length, and what stands after it. The last piece may be shorter.
fn split_piece(bytes: &[u8], length: usize) -> (&[u8], &[u8]) {
    match (bytes.get(..length), bytes.get(length..)) {
        (Some(piece), Some(rest)) => (piece, rest),
        _ => (bytes, &[]),
    }
}

/// Pieces of this length, which the last may not have.
fn apart(alloc: Global, bytes: &[u8], length: usize) -> Result<Vec<Text>, NoMemory> {
    let mut pieces = Vec::new(alloc);
    let mut rest = bytes;
    for _ in 0..bytes.len() {
        if rest.is_empty() {
            break;
        }
        let (piece, behind) = split_piece(rest, length);
        pieces.push(Text::new(alloc, piece)?)?;
        rest = behind;
    }
    Ok(pieces)
}

fn as_they_are(alloc: Global, pieces: &[Text]) -> Result<Vec<Text>, NoMemory> {
    let mut copies = Vec::new(alloc);
    for piece in pieces {
        copies.push(piece.try_clone()?)?;
    }
    Ok(copies)
}

/// The pieces in which the peer says what it says: they may be cut off, or in pieces of another length.
pub(crate) fn said(alloc: Global, pieces: &[Text], fault: &Fault) -> Result<Vec<Text>, NoMemory> {
    let length = usize::try_from(fault.number).unwrap_or(usize::MAX);
    match fault.kind {
        Kind::Cut => alone(alloc, cut(&joined(alloc, pieces)?, length)),
        Kind::Pieces => apart(alloc, &joined(alloc, pieces)?, length),
        _ => as_they_are(alloc, pieces),
    }
}
