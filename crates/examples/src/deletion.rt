//! Branches that are deleted, and one that is checked out.

use crate::serving::Asked;
use crate::setting::{fill, repository};
use crate::telling::{tell_failure, tell_refs};
use anyhow::Result;
use fetch_host::MainWorktree;
use fetch_remote::Repository;
use fetch_specs::FullName;
use fetch_store::{Files, MemoryFiles};
use std::alloc::Global;
use std::thread::Threads;

/// Deletes a branch, unless it is checked out in the main work tree.
fn delete<R: Print, F: Files>(
    rt: &R,
    alloc: Global,
    repo: &mut Repository,
    files: &mut F,
    name: &str,
) -> Result<()> {
    let names = [FullName::new(alloc, name.as_bytes())?];
    let mut trees = MainWorktree::of(alloc, repo)?;
    match repo.delete_local_branches(alloc, &names, &mut trees, files) {
        Ok(()) => Ok(println!(rt; "{name} is deleted")?),
        Err(e) => tell_failure(rt, name, e),
    }
}

/// Fetches two branches, and deletes that which isn't checked out.
fn deletion<R: Threads + Sync + Print, F: Files>(
    rt: &R,
    alloc: Global,
    repo: &mut Repository,
    files: &mut F,
) -> Result<()> {
    fill(rt, alloc, repo, b"+refs/heads/*:refs/heads/*", Asked::Whole)?;
    delete(rt, alloc, repo, files, "refs/heads/main")?;
    delete(rt, alloc, repo, files, "refs/heads/old")?;
    tell_refs(rt, alloc, repo.refs())
}

pub(crate) fn run<R: Threads + Sync + Print>(rt: &R, alloc: Global) -> Result<()> {
    let mut files = MemoryFiles::new(alloc, Vec::new(alloc));
    let mut repo = repository(alloc, &mut files)?;
    deletion(rt, alloc, &mut repo, &mut files)
}
