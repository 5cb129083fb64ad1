//! Branches that are deleted, and a repository that is opened again.

use super::opening::{CONFIG, files, worktrees};
use super::remote_case::{RemoteCase, names_of};
use super::{branches, finding, refusals};
use fetch_remote::Repository;
use fetch_specs::FullName;
use fetch_store::{FileError, Files, MemoryFiles, NoMemory, Text};
use fetch_update::ScriptedWorktrees;
use itoa::Buffer;
use rows::{say, say_lines};
use std::alloc::Global;

/// What stands beside the configuration while it is replaced.
const LOCK: &[u8] = b"/w/.git/config.lock";

fn tell_reference(
    alloc: Global,
    repo: &Repository,
    name: &[u8],
    out: &mut Vec<u8>,
) -> Result<(), NoMemory> {
    let Ok(full) = FullName::new(alloc, name) else {
        return Err(NoMemory);
    };
    let mut buffer = Buffer::new();
    let lines = buffer.format(repo.refs().reflog(&full).len());
    say(out, &[b"ref", name, lines.as_bytes()])
}

/// Each reference, with the number of lines in its reflog.
fn tell_references(alloc: Global, repo: &Repository, out: &mut Vec<u8>) -> Result<(), NoMemory> {
    for (name, _target) in repo.refs().iter() {
        tell_reference(alloc, repo, name, out)?;
    }
    Ok(())
}

fn read(files: &mut MemoryFiles, path: &[u8]) -> Result<Option<Text>, FileError> {
    files.read(path)
}

/// A file's text. Where the call that is to fail is this one, it is made again.
fn text_of(files: &mut MemoryFiles, path: &[u8]) -> Result<Option<Text>, NoMemory> {
    for _ in 0..2 {
        if let Ok(text) = read(files, path) {
            return Ok(text);
        }
    }
    Err(NoMemory)
}

fn tell_file(files: &mut MemoryFiles, path: &[u8], out: &mut Vec<u8>) -> Result<(), NoMemory> {
    match text_of(files, path)? {
        Some(text) => {
            say(out, &[b"file", path])?;
            say_lines(out, text.as_bytes())
        }
        None => Ok(()),
    }
}

fn tell_files(files: &mut MemoryFiles, out: &mut Vec<u8>) -> Result<(), NoMemory> {
    tell_file(files, CONFIG, out)?;
    tell_file(files, LOCK, out)
}

fn tell_left(
    alloc: Global,
    repo: &Repository,
    files: &mut MemoryFiles,
    out: &mut Vec<u8>,
) -> Result<(), NoMemory> {
    tell_references(alloc, repo, out)?;
    branches::names(alloc, repo, out)?;
    tell_files(files, out)
}

/// Deletes branches, and tells the answer, and what is left: references, branches in memory, and files.
fn delete_over(
    alloc: Global,
    repo: &mut Repository,
    names: &[FullName],
    files: &mut MemoryFiles,
    worktrees: &mut ScriptedWorktrees,
    out: &mut Vec<u8>,
) -> Result<(), NoMemory> {
    match repo.delete_local_branches(alloc, names, worktrees, files) {
        Ok(()) => say(out, &[b"ok"])?,
        Err(e) => refusals::deleted(out, &e)?,
    }
    tell_left(alloc, repo, files, out)
}

/// The same over the files and the work trees of a row, of the branches that these words name. Whether they are names.
pub(crate) fn delete(
    alloc: Global,
    remote_case: &RemoteCase,
    repo: &mut Repository,
    words: &[u8],
    out: &mut Vec<u8>,
) -> Result<bool, NoMemory> {
    let Some(names) = names_of(alloc, words)? else {
        return Ok(false);
    };
    let mut worktrees = worktrees(alloc, remote_case)?;
    let mut files = files(alloc, remote_case)?;
    delete_over(
        alloc,
        repo,
        names.as_slice(),
        &mut files,
        &mut worktrees,
        out,
    )?;
    Ok(true)
}

/// Opens a repository again, and tells the answer.
fn reload_from(
    alloc: Global,
    repo: &mut Repository,
    files: &mut MemoryFiles,
    out: &mut Vec<u8>,
) -> Result<(), NoMemory> {
    match repo.reload(alloc, files) {
        Ok(()) => say(out, &[b"ok"]),
        Err(e) => refusals::opened(out, &e),
    }
}

/// Opens a repository again, and tells its remotes.
pub(crate) fn reload(
    alloc: Global,
    remote_case: &RemoteCase,
    repo: &mut Repository,
    out: &mut Vec<u8>,
) -> Result<(), NoMemory> {
    let mut files = files(alloc, remote_case)?;
    reload_from(alloc, repo, &mut files, out)?;
    finding::names(alloc, repo, out)
}
