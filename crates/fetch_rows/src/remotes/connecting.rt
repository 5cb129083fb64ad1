//! Peers that are made at a remote's address.

use super::finding::direction_of;
use super::refusals;
use fetch_remote::{Direction, Remote, Repository, ScriptedConnect};
use fetch_store::NoMemory;
use rows::{Question, say, split_word};
use std::alloc::Global;

/// Makes a peer, by a maker that fails at these calls.
fn connect(
    alloc: Global,
    remote: &Remote,
    direction: Direction,
    failing: &[u64],
    out: &mut Vec<u8>,
) -> Result<(), NoMemory> {
    let mut maker = ScriptedConnect::new(alloc, Vec::new(alloc), Vec::from_slice(alloc, failing)?);
    match remote.connect(direction, &mut maker) {
        Ok(_peer) => say(out, &[b"peer"]),
        Err(e) => refusals::connect(out, &e),
    }
}

/// The same of the remote of a name or an address.
fn connect_to(
    alloc: Global,
    repo: &Repository,
    name: &[u8],
    direction: Direction,
    failing: &[u64],
    out: &mut Vec<u8>,
) -> Result<(), NoMemory> {
    match repo.find_fetch_remote(alloc, Some(name)) {
        Ok(remote) => connect(alloc, &remote, direction, failing, out),
        Err(e) => refusals::for_fetch(out, &e),
    }
}

/// Makes a peer at a remote that is named. Whether that is what is asked for.
pub(crate) fn ask(
    alloc: Global,
    repo: &Repository,
    failing: &[u64],
    question: Question<'_>,
    out: &mut Vec<u8>,
) -> Result<bool, NoMemory> {
    if question.what != b"connect".as_slice() {
        return Ok(false);
    }
    let (word, text) = split_word(question.rest);
    let Some(direction) = direction_of(word) else {
        return Ok(false);
    };
    connect_to(alloc, repo, text, direction, failing, out)?;
    Ok(true)
}
