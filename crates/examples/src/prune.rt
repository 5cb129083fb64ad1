//! References that the remote no longer has, and that go from a mirror.

use crate::serving::{self, Asked};
use crate::setting::{committer, fetch_with, fill, in_memory, remote};
use crate::telling::tell_refs;
use anyhow::Result;
use fetch_host::NoInterrupt;
use fetch_refs::{Change, PackedRefs, PreviousValue, RefEdit, RefLog, Refs};
use fetch_remote::{FetchOptions, Repository};
use fetch_specs::FullName;
use fetch_wire::{Peer, Ref};
use std::alloc::Global;
use std::thread::Threads;

/// The edits that delete each branch of a mirror that the remote doesn't list.
fn vanished(alloc: Global, refs: &Refs, listed: &[Ref]) -> Result<Vec<RefEdit>> {
    let mut edits = Vec::new(alloc);
    for (name, _) in refs.iter() {
        if name.starts_with(b"refs/heads/") && !is_listed(listed, name) {
            let name = FullName::new(alloc, name)?;
            let change = Change::Delete {
                expected: PreviousValue::MustExist,
                log: RefLog::AndReference,
            };
            edits.push(RefEdit { change, name })?;
        }
    }
    Ok(edits)
}

fn is_listed(listed: &[Ref], name: &[u8]) -> bool {
    listed.iter().any(|reference| reference.unpack().0 == name)
}

/// Deletes each branch of a mirror that the remote doesn't list.
fn prune(alloc: Global, repo: &mut Repository, listed: &[Ref]) -> Result<()> {
    let edits = vanished(alloc, repo.refs(), listed)?;
    repo.edit_refs(&edits, &committer(alloc)?, PackedRefs::Never)?;
    Ok(())
}

/// Fetches all branches, and lets those go that the remote no longer has.
pub(crate) fn fetch_and_prune<R: Threads + Sync, P: Peer>(
    rt: &R,
    alloc: Global,
    repo: &mut Repository,
    peer: &mut P,
) -> Result<()> {
    let remote = remote(alloc, repo, b"+refs/heads/*:refs/heads/*")?;
    let options = FetchOptions::new(alloc);
    let outcome = fetch_with(rt, alloc, &remote, repo, peer, &mut NoInterrupt, options)?;
    prune(alloc, repo, outcome.ref_map.remote_refs.as_slice())
}

/// Fetches a branch under another name, then all branches under their own, and prunes.
fn pruning<R: Threads + Sync + Print>(rt: &R, alloc: Global, repo: &mut Repository) -> Result<()> {
    fill(
        rt,
        alloc,
        repo,
        b"+refs/heads/old:refs/heads/gone",
        Asked::Old,
    )?;
    tell_refs(rt, alloc, repo.refs())?;
    println!(rt; "and once it is pruned")?;
    let mut peer = serving::peer(alloc, Asked::Whole)?;
    fetch_and_prune(rt, alloc, repo, &mut peer)?;
    tell_refs(rt, alloc, repo.refs())
}

pub(crate) fn run<R: Threads + Sync + Print>(rt: &R, alloc: Global) -> Result<()> {
    let mut repo = in_memory(alloc)?;
    pruning(rt, alloc, &mut repo)
}
