//! A server as a peer.

use crate::giving::say_given;
use fetch_lines::{Peer, SendFault};
use fetch_serve::ServerPeer;
use fetch_store::NoMemory;
use rows::say;
use std::alloc::Global;

/// The most bytes that a peer is asked for at once.
const LIMIT: usize = 100_000;

/// Sends to a peer, and tells how that went.
pub(crate) fn send(
    peer: &mut ServerPeer<'_>,
    bytes: &[u8],
    out: &mut Vec<u8>,
) -> Result<(), NoMemory> {
    match peer.send(bytes) {
        Ok(()) => say(out, &[b"sent"]),
        Err(SendFault::Failed) => say(out, &[b"failed"]),
        Err(SendFault::NoMemory) => Err(NoMemory),
    }
}

/// Receives so many bytes at most, and tells them.
pub(crate) fn receive(
    alloc: Global,
    peer: &mut ServerPeer<'_>,
    count: u64,
    out: &mut Vec<u8>,
) -> Result<bool, NoMemory> {
    if count > LIMIT as u64 {
        return Ok(false);
    }
    let mut room = Vec::with_capacity(alloc, count as usize)?;
    room.resize(count as usize, 0)?;
    match peer.receive(room.as_mut_slice()) {
        Ok(count) => say_given(out, room.get(..count).unwrap_or(&[]))?,
        Err(_) => say(out, &[b"failed"])?,
    }
    Ok(true)
}
