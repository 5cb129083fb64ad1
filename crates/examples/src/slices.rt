//! A history that is fetched in slices, where one reply would be too long.

use crate::serving::{self, Asked};
use crate::setting::{client, fetch_with};
use crate::telling::tell_border;
use anyhow::{Result, bail};
use fetch_host::NoInterrupt;
use fetch_negotiate::{Depth, Shallow};
use fetch_remote::{FetchOptions, Remote, Repository};
use fetch_wire::Peer;
use std::alloc::Global;
use std::thread::Threads;

/// Fetches a slice, and tells how many objects there are then, and the border.
fn slice<R: Threads + Sync + Print, P: Peer>(
    rt: &R,
    alloc: Global,
    remote: &Remote,
    repo: &mut Repository,
    peer: &mut P,
    shallow: Shallow,
) -> Result<()> {
    let mut options = FetchOptions::new(alloc);
    options.shallow = shallow;
    fetch_with(rt, alloc, remote, repo, peer, &mut NoInterrupt, options)?;
    println!(rt; "{} objects", repo.store().len())?;
    tell_border(rt, alloc, repo.border())
}

/// Fetches the newest commit, and then a thousand generations of the history below it at a time.
fn slices<R: Threads + Sync + Print>(
    rt: &R,
    alloc: Global,
    remote: &Remote,
    repo: &mut Repository,
) -> Result<()> {
    let mut peer = serving::peer(alloc, Asked::Shallow)?;
    let newest = Shallow::DepthAtRemote(Depth::new(1).unwrap());
    slice(rt, alloc, remote, repo, &mut peer, newest)?;
    for _ in 0..1_000 {
        if !repo.is_shallow() {
            return Ok(());
        }
        let mut peer = serving::peer(alloc, Asked::Deeper)?;
        slice(rt, alloc, remote, repo, &mut peer, Shallow::Deepen(1_000))?;
    }
    bail!("more than a million generations")
}

pub(crate) fn run<R: Threads + Sync + Print>(rt: &R, alloc: Global) -> Result<()> {
    let (mut repo, remote) = client(alloc, b"+refs/heads/main:refs/remotes/origin/main")?;
    slices(rt, alloc, &remote, &mut repo)
}
