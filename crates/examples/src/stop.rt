//! A fetch that another thread stops.

use crate::serving::{self, Asked};
use crate::setting::{client, fetch_with};
use crate::telling::tell_failure;
use anyhow::Result;
use fetch_host::FlagInterrupt;
use fetch_remote::{FetchOptions, Remote, Repository};
use fetch_wire::Peer;
use std::alloc::Global;
use std::sync::atomic::{AtomicBool, Ordering};
use std::thread::{self, Threads};

/// Fetches, unless the flag is set: it is looked at before each receive.
fn stop<R: Threads + Sync + Print, P: Peer>(
    rt: &R,
    alloc: Global,
    remote: &Remote,
    repo: &mut Repository,
    peer: &mut P,
    flag: &AtomicBool,
) -> Result<()> {
    let mut stop = FlagInterrupt::new(flag);
    let options = FetchOptions::new(alloc);
    match fetch_with(rt, alloc, remote, repo, peer, &mut stop, options) {
        Ok(_) => Ok(()),
        Err(e) => tell_failure(rt, "fetch", e),
    }
}

/// Sets the flag in another thread, and fetches.
pub(crate) fn run<R: Threads + Sync + Print>(rt: &R, alloc: Global) -> Result<()> {
    let flag = AtomicBool::new(false);
    thread::join(rt, || flag.store(true, Ordering::SeqCst), || ());
    let mut peer = serving::peer(alloc, Asked::Whole)?;
    let (mut repo, remote) = client(alloc, b"+refs/heads/*:refs/remotes/origin/*")?;
    stop(rt, alloc, &remote, &mut repo, &mut peer, &flag)
}
