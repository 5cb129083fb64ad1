//! A test of a caller's own code, with a peer that follows a script.

use crate::serving::{self, Asked};
use crate::setting::{client, fetch};
use crate::telling::{tell_failure, tell_lines};
use anyhow::Result;
use fetch_remote::{Remote, Repository};
use fetch_wire::ScriptedPeer;
use std::alloc::Global;
use std::thread::Threads;

/// Fetches from this peer by the code that is tested, and tells what came of it, or what the peer heard.
fn test<R: Threads + Sync + Print>(
    rt: &R,
    alloc: Global,
    remote: &Remote,
    repo: &mut Repository,
    peer: &mut ScriptedPeer,
) -> Result<()> {
    match fetch(rt, alloc, remote, repo, peer) {
        Ok(()) => tell_lines(rt, peer.heard()),
        Err(e) => tell_failure(rt, "fetch", e),
    }
}

/// Lets the peer fail at each of its calls in turn, of which there are four.
fn testing<R: Threads + Sync + Print>(
    rt: &R,
    alloc: Global,
    remote: &Remote,
    repo: &mut Repository,
) -> Result<()> {
    for call in 0..5 {
        let mut peer = serving::failing_peer(alloc, Asked::Old, call)?;
        println!(rt; "a peer that fails at call {call}")?;
        test(rt, alloc, remote, repo, &mut peer)?;
    }
    Ok(())
}

pub(crate) fn run<R: Threads + Sync + Print>(rt: &R, alloc: Global) -> Result<()> {
    let (mut repo, remote) = client(alloc, b"refs/heads/old:refs/heads/old")?;
    testing(rt, alloc, &remote, &mut repo)
}
