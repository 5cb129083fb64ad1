//! The shortest first fetch.

use crate::serving::{self, Asked};
use crate::setting::committer;
use crate::telling::tell_refs;
use anyhow::Result;
use fetch_clone::create::{Kind, Options};
use fetch_clone::init::init;
use fetch_host::{NoInterrupt, NoWorktrees};
use fetch_remote::{Direction, FetchOptions, Repository};
use fetch_store::{Files, MemoryFiles, Text};
use fetch_wire::Peer;
use std::alloc::Global;
use std::thread::Threads;

/// Creates a bare repository.
fn create<F: Files>(alloc: Global, files: &mut F) -> Result<Repository> {
    let committer = committer(alloc)?;
    let options = Options::default();
    Ok(init(alloc, files, b"/w", Kind::Bare, options, committer)?.to_thread_local())
}

/// Fetches all branches.
fn first_fetch<R: Threads + Sync, P: Peer, F: Files>(
    rt: &R,
    alloc: Global,
    repo: &mut Repository,
    peer: &mut P,
    files: &mut F,
) -> Result<()> {
    let branches = Text::new(alloc, b"+refs/heads/*:refs/remotes/origin/*")?;
    let mut remote = repo.remote_at(alloc, b"/srv/a.git")?;
    remote.replace_refspecs(alloc, &[branches], Direction::Fetch)?;

    let (mut stop, mut trees) = (NoInterrupt, NoWorktrees::new(alloc));
    let options = FetchOptions::new(alloc);
    remote.fetch(rt, alloc, repo, peer, &mut stop, files, &mut trees, options)?;
    Ok(())
}

/// Fetches from the server of the examples, and tells what came.
fn tell_fetch<R: Threads + Sync + Print, F: Files>(
    rt: &R,
    alloc: Global,
    repo: &mut Repository,
    files: &mut F,
) -> Result<()> {
    let mut peer = serving::peer(alloc, Asked::Whole)?;
    first_fetch(rt, alloc, repo, &mut peer, files)?;
    tell_refs(rt, alloc, repo.refs())
}

pub(crate) fn run<R: Threads + Sync + Print>(rt: &R, alloc: Global) -> Result<()> {
    let mut files = MemoryFiles::new(alloc, Vec::new(alloc));
    let mut repo = create(alloc, &mut files)?;
    tell_fetch(rt, alloc, &mut repo, &mut files)
}
