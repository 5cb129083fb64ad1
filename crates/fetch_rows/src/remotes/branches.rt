//! What is said of branches, and the settings beside.

use super::finding::{direction_of, tell_maybe, tell_name, tell_remote};
use super::refusals;
use fetch_remote::{Direction, Remote, Repository, branch, fetch, index_threads};
use fetch_specs::FullName;
use fetch_store::NoMemory;
use itoa::Buffer;
use rows::{Question, name_of, say, split_word};
use std::alloc::Global;

/// Tells the names of all branches.
pub(crate) fn names(alloc: Global, repo: &Repository, out: &mut Vec<u8>) -> Result<(), NoMemory> {
    for name in &repo.branch_names(alloc)? {
        say(out, &[b"branch", name.as_bytes()])?;
    }
    Ok(())
}

fn tell_full_name(
    out: &mut Vec<u8>,
    found: &Option<Result<FullName, branch::Error>>,
) -> Result<(), NoMemory> {
    match found {
        Some(Ok(name)) => say(out, &[b"ref", name.as_bytes()]),
        Some(Err(e)) => refusals::branch(out, e),
        None => say(out, &[b"none"]),
    }
}

fn tell_upstream(out: &mut Vec<u8>, name: &FullName, remote: &Remote) -> Result<(), NoMemory> {
    say(out, &[b"ref", name.as_bytes()])?;
    tell_remote(out, remote)
}

fn upstream(
    alloc: Global,
    repo: &Repository,
    tracking: &FullName,
    out: &mut Vec<u8>,
) -> Result<(), NoMemory> {
    match repo.upstream_branch_and_remote_for_tracking_branch(alloc, tracking) {
        Ok(Some((name, remote))) => tell_upstream(out, &name, &remote),
        Ok(None) => say(out, &[b"none"]),
        Err(e) => refusals::upstream(out, &e),
    }
}

/// What is asked of a full name. Whether something is.
fn ask_of_name(
    alloc: Global,
    repo: &Repository,
    what: &[u8],
    direction: Direction,
    name: &FullName,
    out: &mut Vec<u8>,
) -> Result<bool, NoMemory> {
    let found = if what == b"remote-ref".as_slice() {
        repo.branch_remote_ref_name(alloc, name, direction)
    } else if what == b"tracking-ref".as_slice() {
        repo.branch_remote_tracking_ref_name(alloc, name, direction)
    } else {
        return Ok(false);
    };
    tell_full_name(out, &found)?;
    Ok(true)
}

/// Tells which branch a tracking branch follows. Whether it is a full name.
fn ask_upstream(
    alloc: Global,
    repo: &Repository,
    text: &[u8],
    out: &mut Vec<u8>,
) -> Result<bool, NoMemory> {
    match name_of(alloc, text)? {
        Some(name) => {
            upstream(alloc, repo, &name, out)?;
            Ok(true)
        }
        None => Ok(false),
    }
}

/// What is asked of a direction and a branch. Whether something is.
fn ask_of_branch(
    alloc: Global,
    repo: &Repository,
    question: Question<'_>,
    out: &mut Vec<u8>,
) -> Result<bool, NoMemory> {
    let (word, text) = split_word(question.rest);
    let Some(direction) = direction_of(word) else {
        return Ok(false);
    };
    if question.what == b"remote-name".as_slice() {
        let name = repo.branch_remote_name(alloc, text, direction)?;
        tell_name(out, name.as_ref())?;
    } else if question.what == b"remote".as_slice() {
        tell_maybe(out, &repo.branch_remote(alloc, text, direction))?;
    } else {
        return match name_of(alloc, text)? {
            Some(name) => ask_of_name(alloc, repo, question.what, direction, &name, out),
            None => Ok(false),
        };
    }
    Ok(true)
}

fn shallow_file(alloc: Global, repo: &Repository, out: &mut Vec<u8>) -> Result<(), NoMemory> {
    let path = repo.shallow_file(alloc)?;
    say(out, &[b"path", path.as_bytes()])
}

fn threads(repo: &Repository, out: &mut Vec<u8>) -> Result<(), NoMemory> {
    let mut buffer = Buffer::new();
    match index_threads(repo) {
        Ok(Some(count)) => say(out, &[b"threads", buffer.format(count).as_bytes()]),
        Ok(None) => say(out, &[b"none"]),
        Err(fetch::Error::PackThreads { value }) => {
            refusals::refused(out, &[b"PackThreads", value.as_bytes()])
        }
        Err(_) => Err(NoMemory),
    }
}

/// Tells what is asked of branches and settings. Whether something is.
pub(crate) fn ask_of_branches(
    alloc: Global,
    repo: &Repository,
    question: Question<'_>,
    out: &mut Vec<u8>,
) -> Result<bool, NoMemory> {
    if question.what == b"branches".as_slice() {
        names(alloc, repo, out)?;
    } else if question.what == b"shallow-file".as_slice() {
        shallow_file(alloc, repo, out)?;
    } else if question.what == b"threads".as_slice() {
        threads(repo, out)?;
    } else if question.what == b"upstream".as_slice() {
        return ask_upstream(alloc, repo, question.rest, out);
    } else {
        return ask_of_branch(alloc, repo, question, out);
    }
    Ok(true)
}
