//! A mirror that is kept fresh.

use crate::bundles::{load, save};
use crate::own_server::served;
use crate::prune::fetch_and_prune;
use crate::serving::Asked;
use crate::setting::{filled, in_memory};
use crate::telling::tell_refs;
use anyhow::Result;
use fetch_remote::Repository;
use fetch_store::{Files, MemoryFiles};
use fetch_wire::Peer;
use std::alloc::Global;
use std::thread::Threads;

/// The mirror as it was saved, or a new one.
fn kept<R: Threads + Sync, F: Files>(rt: &R, alloc: Global, files: &mut F) -> Result<Repository> {
    match load(rt, alloc, files, b"/mirror.bundle")? {
        Some(mirror) => Ok(mirror),
        None => in_memory(alloc),
    }
}

/// Refreshes a mirror: loads it, fetches all branches, lets those go that the remote no longer has, and saves it.
fn refresh<R: Threads + Sync, P: Peer, F: Files>(
    rt: &R,
    alloc: Global,
    peer: &mut P,
    files: &mut F,
) -> Result<Repository> {
    let mut mirror = kept(rt, alloc, files)?;
    fetch_and_prune(rt, alloc, &mut mirror, peer)?;
    save(alloc, &mirror, files, b"/mirror.bundle")?;
    Ok(mirror)
}

/// Refreshes a mirror, and tells what it has then.
fn tell_mirror<R: Threads + Sync + Print, P: Peer, F: Files>(
    rt: &R,
    alloc: Global,
    peer: &mut P,
    files: &mut F,
) -> Result<()> {
    let mirror = refresh(rt, alloc, peer, files)?;
    tell_refs(rt, alloc, mirror.refs())
}

/// Refreshes a mirror of this repository.
fn refresh_from<R: Threads + Sync + Print, F: Files>(
    rt: &R,
    alloc: Global,
    upstream: &Repository,
    files: &mut F,
) -> Result<()> {
    let mut server = served(alloc, upstream)?;
    tell_mirror(rt, alloc, &mut server, files)
}

/// Refreshes a mirror of what this refspec brings from the server of the examples.
fn refresh_by<R: Threads + Sync + Print, F: Files>(
    rt: &R,
    alloc: Global,
    spec: &[u8],
    asked: Asked,
    files: &mut F,
) -> Result<()> {
    let upstream = filled(rt, alloc, spec, asked)?;
    refresh_from(rt, alloc, &upstream, files)
}

/// Refreshes a mirror of one branch, and again once another one has come upstream and the first one is gone.
pub(crate) fn run<R: Threads + Sync + Print>(rt: &R, alloc: Global) -> Result<()> {
    let mut files = MemoryFiles::new(alloc, Vec::new(alloc));
    let (old, main) = (
        b"+refs/heads/old:refs/heads/old",
        b"+refs/heads/main:refs/heads/main",
    );
    refresh_by(rt, alloc, old, Asked::Old, &mut files)?;
    println!(rt; "and later")?;
    refresh_by(rt, alloc, main, Asked::Whole, &mut files)
}
