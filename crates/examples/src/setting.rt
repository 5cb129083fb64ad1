//! What the examples have in common.

use crate::serving::{self, Asked};
use anyhow::Result;
use fetch_clone::create::{Kind, Options};
use fetch_clone::init::init;
use fetch_host::{NoInterrupt, NoWorktrees};
use fetch_refs::Signature;
use fetch_remote::{Direction, FetchError, FetchOptions, Outcome, Remote, Repository};
use fetch_store::{Files, MemoryFiles, NoMemory, Text};
use fetch_wire::{Interrupt, Peer};
use std::alloc::Global;
use std::thread::Threads;

/// Who writes the lines of the reflogs, and when.
pub(crate) fn committer(alloc: Global) -> Result<Signature, NoMemory> {
    let name = Text::new(alloc, b"A")?;
    let email = Text::new(alloc, b"a@x")?;
    Ok(Signature {
        name,
        email,
        seconds: 1_700_000_000,
        offset_minutes: 0,
    })
}

/// A new repository with a work tree at `/w`.
pub(crate) fn repository<F: Files>(alloc: Global, files: &mut F) -> Result<Repository> {
    let committer = committer(alloc)?;
    let options = Options::default();
    let repo = init(alloc, files, b"/w", Kind::WithWorktree, options, committer)?;
    Ok(repo.to_thread_local())
}

/// A new repository of which nothing comes to stand on the host.
pub(crate) fn in_memory(alloc: Global) -> Result<Repository> {
    repository(alloc, &mut MemoryFiles::new(alloc, Vec::new(alloc)))
}

/// The server of the examples as a remote, with this refspec.
pub(crate) fn remote(alloc: Global, repo: &Repository, spec: &[u8]) -> Result<Remote> {
    let specs = [Text::new(alloc, spec)?];
    let mut remote = repo.remote_at(alloc, b"/srv/a.git")?;
    remote.replace_refspecs(alloc, &specs, Direction::Fetch)?;
    Ok(remote)
}

/// A new repository, and the server of the examples as a remote of it, with this refspec.
pub(crate) fn client(alloc: Global, spec: &[u8]) -> Result<(Repository, Remote)> {
    let repo = in_memory(alloc)?;
    let remote = remote(alloc, &repo, spec)?;
    Ok((repo, remote))
}

/// Fetches from a remote, with no branch checked out and nothing on the host.
// Many arguments: those of `Remote::fetch`, but for files and work trees.
pub(crate) fn fetch_with<R: Threads + Sync, P: Peer, I: Interrupt>(
    rt: &R,
    alloc: Global,
    remote: &Remote,
    repo: &mut Repository,
    peer: &mut P,
    stop: &mut I,
    options: FetchOptions,
) -> Result<Outcome, FetchError> {
    let mut files = MemoryFiles::new(alloc, Vec::new(alloc));
    let mut trees = NoWorktrees::new(alloc);
    remote.fetch(rt, alloc, repo, peer, stop, &mut files, &mut trees, options)
}

/// Fetches so from a remote, by the usual options, where nothing interrupts.
pub(crate) fn fetch<R: Threads + Sync, P: Peer>(
    rt: &R,
    alloc: Global,
    remote: &Remote,
    repo: &mut Repository,
    peer: &mut P,
) -> Result<(), FetchError> {
    let options = FetchOptions::new(alloc);
    fetch_with(rt, alloc, remote, repo, peer, &mut NoInterrupt, options)?;
    Ok(())
}

/// Fetches so by this refspec.
pub(crate) fn fetch_by<R: Threads + Sync, P: Peer>(
    rt: &R,
    alloc: Global,
    repo: &mut Repository,
    spec: &[u8],
    peer: &mut P,
) -> Result<()> {
    let remote = remote(alloc, repo, spec)?;
    fetch(rt, alloc, &remote, repo, peer)?;
    Ok(())
}

/// Fetches by this refspec from the server of the examples.
pub(crate) fn fill<R: Threads + Sync>(
    rt: &R,
    alloc: Global,
    repo: &mut Repository,
    spec: &[u8],
    asked: Asked,
) -> Result<()> {
    fetch_by(rt, alloc, repo, spec, &mut serving::peer(alloc, asked)?)
}

/// A new repository with what this refspec brings from the server of the examples.
pub(crate) fn filled<R: Threads + Sync>(
    rt: &R,
    alloc: Global,
    spec: &[u8],
    asked: Asked,
) -> Result<Repository> {
    let mut repo = in_memory(alloc)?;
    fill(rt, alloc, &mut repo, spec, asked)?;
    Ok(repo)
}
