//! A server and a client in one program.

use crate::serving::Asked;
use crate::setting::{fetch_by, filled, in_memory};
use crate::telling::tell_refs;
use anyhow::Result;
use fetch_remote::Repository;
use fetch_serve::{ServeError, Server, ServerPeer};
use std::alloc::Global;
use std::thread::Threads;

/// A server of this repository, as a peer.
pub(crate) fn served(alloc: Global, repo: &Repository) -> Result<ServerPeer<'_>, ServeError> {
    let server = Server::new(alloc, repo.store(), repo.refs(), repo.border())?;
    Ok(ServerPeer::new(server))
}

/// Fetches from one repository into another one.
fn fetch_from<R: Threads + Sync>(
    rt: &R,
    alloc: Global,
    theirs: &Repository,
    ours: &mut Repository,
) -> Result<()> {
    let mut server = served(alloc, theirs)?;
    let spec = b"+refs/heads/*:refs/remotes/origin/*";
    fetch_by(rt, alloc, ours, spec, &mut server)
}

/// Fetches so, and tells what came.
fn tell_fetch<R: Threads + Sync + Print>(
    rt: &R,
    alloc: Global,
    theirs: &Repository,
    ours: &mut Repository,
) -> Result<()> {
    fetch_from(rt, alloc, theirs, ours)?;
    tell_refs(rt, alloc, ours.refs())
}

/// Fetches so into a new repository.
fn tell_new<R: Threads + Sync + Print>(rt: &R, alloc: Global, theirs: &Repository) -> Result<()> {
    let mut ours = in_memory(alloc)?;
    tell_fetch(rt, alloc, theirs, &mut ours)
}

pub(crate) fn run<R: Threads + Sync + Print>(rt: &R, alloc: Global) -> Result<()> {
    let theirs = filled(rt, alloc, b"+refs/heads/*:refs/heads/*", Asked::Whole)?;
    tell_new(rt, alloc, &theirs)
}
