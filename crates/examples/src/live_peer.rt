//! A peer over two streams, and one that breaks off.

use crate::serving::{self, Asked};
use crate::setting::{client, fetch};
use crate::telling::tell_failure;
use anyhow::Result;
use fetch_host::StreamPeer;
use fetch_remote::{Remote, Repository};
use std::alloc::Global;
use std::io::{Read, Write};
use std::thread::Threads;

/// Fetches over the two ends of a connection, and tells how many bytes passed.
fn live_peer<R: Threads + Sync + Print, I: Read + Drop, O: Write + Drop>(
    rt: &R,
    alloc: Global,
    remote: &Remote,
    repo: &mut Repository,
    reader: I,
    writer: O,
) -> Result<()> {
    let mut peer = StreamPeer::new(reader, writer);
    if let Err(e) = fetch(rt, alloc, remote, repo, &mut peer) {
        tell_failure(rt, "fetch", e)?;
    }
    let (came, went) = (peer.received(), peer.sent());
    println!(rt; "{came} bytes came, {went} went, {:?}", peer.last_fault())?;
    Ok(())
}

/// Fetches from half of a conversation, and then from a whole one.
fn live_peers<R: Threads + Sync + Print>(
    rt: &R,
    alloc: Global,
    remote: &Remote,
    repo: &mut Repository,
    said: &[u8],
) -> Result<()> {
    let half = &said[..said.len() / 2];
    live_peer(rt, alloc, remote, repo, half, Vec::new(alloc))?;
    live_peer(rt, alloc, remote, repo, said, Vec::new(alloc))
}

pub(crate) fn run<R: Threads + Sync + Print>(rt: &R, alloc: Global) -> Result<()> {
    let said = serving::said(alloc, Asked::Whole)?;
    let (mut repo, remote) = client(alloc, b"+refs/heads/*:refs/remotes/origin/*")?;
    live_peers(rt, alloc, &remote, &mut repo, &said)
}
