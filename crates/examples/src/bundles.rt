//! A repository that is saved as a bundle, and loaded again.

ghost use Rattle.std.specs.Prelude.{◌≡◌};

use crate::serving::Asked;
use crate::setting::{filled, in_memory};
use crate::telling::tell_refs;
use anyhow::{Result, bail};
use fetch_check::{State, load_bundle, save_bundle};
use fetch_reach::first_misnamed;
use fetch_remote::Repository;
use fetch_store::{Files, MemoryFiles};
use std::alloc::Global;
use std::thread::Threads;

/// Saves a repository. The file at the path is whole at any time, the old one or the new one.
pub(crate) fn save<F: Files>(
    alloc: Global,
    repo: &Repository,
    files: &mut F,
    path: &[u8],
) -> Result<()> {
    let store = repo.store();
    if store.len() >= 1 << 32 || first_misnamed(store).is_some() {
        bail!("objects that no bundle holds");
    }
    save_bundle(alloc, store, repo.refs(), repo.border(), files, path)?;
    Ok(())
}

/// A repository of what was saved, or None where nothing was. Configuration and committer are those of a new one.
pub(crate) fn load<R: Threads + Sync, F: Files>(
    rt: &R,
    alloc: Global,
    files: &mut F,
    path: &[u8],
) -> Result<Option<Repository>> {
    match load_bundle(rt, alloc, files, path)? {
        Some(bundle) => Ok(Some(opened(alloc, bundle.into_state(alloc)?)?)),
        None => Ok(None),
    }
}

/// A new repository with this state.
fn opened(alloc: Global, state: State) -> Result<Repository>
    requires { state.store.hash ≡ state.refs.hash }
{
    let mut parts = in_memory(alloc)?.into_parts();
    parts.store = state.store;
    parts.refs = state.refs;
    parts.border = state.border;
    Ok(Repository::from_parts(alloc, parts)?)
}

/// Saves what was fetched.
fn save_fetched<R: Threads + Sync, F: Files>(rt: &R, alloc: Global, files: &mut F) -> Result<()> {
    let repo = filled(rt, alloc, b"+refs/heads/*:refs/heads/*", Asked::Whole)?;
    save(alloc, &repo, files, b"/w.bundle")
}

/// Loads what was saved into a new repository.
fn tell_loaded<R: Threads + Sync + Print, F: Files>(
    rt: &R,
    alloc: Global,
    files: &mut F,
) -> Result<()> {
    match load(rt, alloc, files, b"/w.bundle")? {
        Some(repo) => tell_refs(rt, alloc, repo.refs()),
        None => bail!("nothing was saved"),
    }
}

pub(crate) fn run<R: Threads + Sync + Print>(rt: &R, alloc: Global) -> Result<()> {
    let mut files = MemoryFiles::new(alloc, Vec::new(alloc));
    save_fetched(rt, alloc, &mut files)?;
    tell_loaded(rt, alloc, &mut files)
}
