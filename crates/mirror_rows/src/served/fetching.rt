//! A fetch from any peer, and what is told of it.

use super::telling::append_answer;
use fetch_cli::FetchCase;
use fetch_remote::{FetchError, Outcome, Repository};
use fetch_store::{MemoryFiles, NoMemory};
use fetch_update::ScriptedWorktrees;
use fetch_wire::{Peer, ScriptedInterrupt};
use std::alloc::Global;
use std::thread::Threads;

/// Fetches as it is set up, from this peer. There are no files before, and no interrupt. The repository is given back.
fn fetched<P: Peer>(
    rt: &(impl Threads + Sync),
    alloc: Global,
    fetch_case: FetchCase,
    peer: &mut P,
) -> (Result<Outcome, FetchError>, Repository) {
    let mut repo = fetch_case.repo;
    let options = fetch_case.options;
    let mut interrupt = ScriptedInterrupt::new(Vec::new(alloc));
    let mut files = MemoryFiles::new(alloc, Vec::new(alloc));
    let mut worktrees = ScriptedWorktrees::new(fetch_case.worktrees.into_vec(), Vec::new(alloc));
    let answer = fetch_case.remote.fetch(
        rt,
        alloc,
        &mut repo,
        peer,
        &mut interrupt,
        &mut files,
        &mut worktrees,
        options,
    );
    (answer, repo)
}

/// Fetches as it is set up, from this peer, and puts down what a report tells but what was sent.
pub(crate) fn append_fetch<P: Peer>(
    rt: &(impl Threads + Sync),
    alloc: Global,
    fetch_case: FetchCase,
    peer: &mut P,
    out: &mut Vec<u8>,
) -> Result<(), NoMemory> {
    let (answer, repo) = fetched(rt, alloc, fetch_case, peer);
    let told = append_answer(alloc, answer, &repo, out);
    // By one call, in place of the ends of all its fields.
    drop(repo);
    told
}
