//! Two fetches into one repository at once.

ghost use Rattle.std.specs.Prelude.{◌≡◌};

use crate::serving::{self, Asked};
use crate::setting::{in_memory, remote};
use crate::telling::tell_refs;
use anyhow::Result;
use fetch_host::{NoInterrupt, NoWorktrees};
use fetch_remote::{FetchOptions, Remote, Repository};
use fetch_shared::{Pass, SharedError, SharedRepository, fetch_shared};
use fetch_specs::Tags;
use fetch_store::MemoryFiles;
use fetch_wire::Peer;
use std::alloc::Global;
use std::sync::Wait;
use std::thread::{self, Threads};

/// Fetches from two peers side by side, each by a pass of its own.
// Many arguments: a remote and a peer for each of the two.
fn two_fetches<R: Threads + Wait + Sync, P: Peer + Drop + Send>(
    rt: &R,
    alloc: Global,
    repo: Repository,
    here: &Remote,
    near: P,
    there: &Remote,
    far: P,
) -> Result<Repository> {
    let (shared, pass) = SharedRepository::new(alloc, repo)?;
    let (left, right) = shared.split(pass, 1).unwrap();
    let ((left, first), (right, second)) = thread::join(
        rt,
        ||
            requires { left.shared ≡ shared }
        { fetch(rt, alloc, &shared, left, here, near) },
        ||
            requires { right.shared ≡ shared }
        { fetch(rt, alloc, &shared, right, there, far) },
    );
    let pass = shared.join(left, right);
    let (repo, _journal) = shared.close(rt, pass).unwrap();
    first.and(second)?;
    Ok(repo)
}

/// Fetches by a pass, which comes back whatever happens.
fn fetch<R: Threads + Wait + Sync, P: Peer + Drop>(
    rt: &R,
    alloc: Global,
    shared: &SharedRepository,
    pass: Pass,
    remote: &Remote,
    peer: P,
) -> (Pass, Result<(), SharedError>)
    requires { pass.shared ≡ shared.now }
    ensures { result.0.shared ≡ shared.now }
{
    let mut peer = peer;
    let (mut stop, mut trees) = (NoInterrupt, NoWorktrees::new(alloc));
    let mut files = MemoryFiles::new(alloc, Vec::new(alloc));
    let options = FetchOptions::new(alloc);
    match fetch_shared(
        rt, alloc, shared, pass, remote, &mut peer, &mut stop, &mut files, &mut trees, options,
    ) {
        Ok((pass, _, _)) => (pass, Ok(())),
        Err((pass, _, e)) => (pass, Err(e)),
    }
}

/// Remotes of which the first one brings all branches, and the second one a branch and no tag.
fn remotes(alloc: Global, repo: &Repository) -> Result<(Remote, Remote)> {
    let here = remote(alloc, repo, b"+refs/heads/*:refs/remotes/here/*")?;
    let there = remote(alloc, repo, b"+refs/heads/old:refs/remotes/there/old")?;
    Ok((here, there.with_fetch_tags(Tags::None)))
}

/// Fetches all branches of one server and a branch of another one.
fn fetch_both<R: Threads + Wait + Sync, P: Peer + Drop + Send>(
    rt: &R,
    alloc: Global,
    near: P,
    far: P,
) -> Result<Repository> {
    let repo = in_memory(alloc)?;
    let (here, there) = remotes(alloc, &repo)?;
    two_fetches(rt, alloc, repo, &here, near, &there, far)
}

pub(crate) fn run<R: Threads + Wait + Sync + Print>(rt: &R, alloc: Global) -> Result<()> {
    let near = serving::peer(alloc, Asked::Whole)?;
    let far = serving::peer(alloc, Asked::Old)?;
    let repo = fetch_both(rt, alloc, near, far)?;
    tell_refs(rt, alloc, repo.refs())
}
