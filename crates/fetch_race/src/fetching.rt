//! A fetch by a pass, from a peer that is lent.

ghost use Rattle.std.specs.Prelude.{◌≡◌, IfOk};
ghost use Rattle.fetch_race.specs.Racing.{IsDone};

use fetch_remote::{FetchOptions, Outcome, Remote};
use fetch_shared::{Pass, Receipt, SharedError, SharedRepository, fetch_shared};
use fetch_store::{MemoryFiles, NoMemory};
use fetch_update::{ScriptedWorktrees, Worktree};
use fetch_wire::{Peer, ScriptedInterrupt};
use std::alloc::Global;
use std::sync::Wait;
use std::thread::Threads;

/// Fetches by a pass, from a peer that is lent: over files in memory that begin with nothing, with these work trees, and
/// with nothing that interrupts. What became of it stands behind the pass as it came back, and behind its receipt. Where
/// memory runs out before the fetch, nothing was asked.
// Many arguments: those of `fetch_shared` without what a race makes for each job.
pub fn fetch_by_pass<R: Threads + Wait + Sync, P: Peer>(
    rt: &R,
    alloc: Global,
    shared: &SharedRepository,
    pass: Pass,
    remote: &Remote,
    peer: &mut P,
    options: &FetchOptions,
    worktrees: &[Worktree],
) -> (Pass, Receipt, Result<Outcome, SharedError>)
    requires { pass.shared ≡ shared.now }
    ensures { IsDone (record { answers = P.answers; told = P.told; faults = P.faults; trees = worktrees.now; opening = shared.now.opening })
        (record { remote = remote.now; peer = peer.old; options = options.now }) peer.new pass result.0 result.1 result.2 }
{
    let number = pass.number();
    match copies(alloc, options, worktrees) {
        Ok((options, trees)) => fetch(rt, alloc, shared, pass, remote, peer, options, trees),
        Err(NoMemory) => {
            let receipt = Receipt {
                pass: number,
                planned: None,
                judged: None,
                place: None,
            };
            (pass, receipt, Err(SharedError::NoMemory))
        }
    }
}

/// The same with the options and the work trees.
// Many arguments: those of `fetch_by_pass`.
fn fetch<R: Threads + Wait + Sync, P: Peer>(
    rt: &R,
    alloc: Global,
    shared: &SharedRepository,
    pass: Pass,
    remote: &Remote,
    peer: &mut P,
    options: FetchOptions,
    worktrees: Vec<Worktree>,
) -> (Pass, Receipt, Result<Outcome, SharedError>)
    requires { pass.shared ≡ shared.now }
    ensures { IsDone (record {
      answers = P.answers;
      told = P.told;
      faults = P.faults;
      trees = worktrees.items;
      opening = shared.now.opening;
    })
        (record { remote = remote.now; peer = peer.old; options = options }) peer.new pass result.0 result.1 result.2 }
{
    let mut interrupt = ScriptedInterrupt::new(Vec::new(alloc));
    let mut files = MemoryFiles::new(alloc, Vec::new(alloc));
    let mut trees = ScriptedWorktrees::new(worktrees, Vec::new(alloc));
    let answer = fetch_shared(
        rt,
        alloc,
        shared,
        pass,
        remote,
        peer,
        &mut interrupt,
        &mut files,
        &mut trees,
        options,
    );
    match answer {
        Ok((pass, receipt, outcome)) => (pass, receipt, Ok(outcome)),
        Err((pass, receipt, e)) => (pass, receipt, Err(e)),
    }
}

/// Copies of the options and of the work trees.
fn copies(
    alloc: Global,
    options: &FetchOptions,
    worktrees: &[Worktree],
) -> Result<(FetchOptions, Vec<Worktree>), NoMemory>
    ensures options { IfOk result (λ c. c.0 ≡ options.now) }
    ensures worktrees { IfOk result (λ c. c.1.items ≡ worktrees.now) }
{
    Ok((options.try_clone()?, copies_of(alloc, worktrees)?))
}

fn copies_of(alloc: Global, worktrees: &[Worktree]) -> Result<Vec<Worktree>, NoMemory>
    ensures { IfOk result (λ copies. copies.items ≡ worktrees.now) }
{
    let mut copies = Vec::with_capacity(alloc, worktrees.len())?;
    for tree in worktrees {
        copies.push(tree.try_clone()?)?;
    }
    Ok(copies)
}
