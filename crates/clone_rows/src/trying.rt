//! The closures of a clone, its tries, what stands after each, and its end.

use crate::clone_case::{CloneCase, Closures};
use crate::refusals;
use crate::standing::say_file;
use fetch_cli::append_state;
use fetch_clone::{ConfigureFault, PrepareFetch};
use fetch_remote::connect::Connect;
use fetch_remote::phases::NoProgress;
use fetch_remote::{Remote, Repository};
use fetch_store::{Files, List, NoMemory, Text};
use fetch_update::{ScriptedWorktrees, WorktreeFault};
use fetch_wire::ScriptedInterrupt;
use rows::{say, say_lines};
use std::alloc::Global;
use std::thread::Threads;

/// How a clone ends.
#[derive(Clone, Copy, PartialEq, Eq)]
pub(crate) enum Ending {
    GivenUp,
    Dropped,
    Persisted,
}

/// How often is tried, and what is done with the clone then.
#[derive(Clone, Copy)]
pub(crate) struct Course {
    pub(crate) tries: u64,
    pub(crate) ending: Ending,
}

fn refusal(alloc: Global) -> Result<ConfigureFault, NoMemory> {
    Ok(ConfigureFault::Refused {
        text: Text::new(alloc, b"no")?,
    })
}

/// A remote with these addresses, and the tags of another.
fn at(alloc: Global, remote: Remote, addresses: List<Text>) -> Remote {
    Remote::new(addresses, List::new(alloc), remote.fetch_tags())
}

/// A remote whose address no configuration can have.
fn unsaveable(alloc: Global, remote: Remote) -> Result<Remote, NoMemory> {
    let mut addresses = List::new(alloc);
    addresses.push(Text::new(alloc, b"a\0")?)?;
    Ok(at(alloc, remote, addresses))
}

/// What the closure for the remote answers.
pub(crate) fn remote_by(
    alloc: Global,
    closures: Closures,
    remote: Remote,
) -> Result<Remote, ConfigureFault> {
    match closures {
        Closures::Usual | Closures::Remote | Closures::RefusesPeer => Ok(remote),
        Closures::RefusesRemote => Err(refusal(alloc)?),
        Closures::Nowhere => Ok(at(alloc, remote, List::new(alloc))),
        Closures::Unsaveable => Ok(unsaveable(alloc, remote)?),
    }
}

/// What the closure for the peer answers.
pub(crate) fn peer_by(alloc: Global, closures: Closures) -> Result<(), ConfigureFault> {
    if closures == Closures::RefusesPeer {
        Err(refusal(alloc)?)
    } else {
        Ok(())
    }
}

/// Work trees that aren't listed at the calls with these numbers.
fn worktrees_of(alloc: Global, failing: &[u64]) -> Result<ScriptedWorktrees, NoMemory> {
    let mut faults = Vec::new(alloc);
    for call in failing {
        faults.push((*call, WorktreeFault::Listing))?;
    }
    Ok(ScriptedWorktrees::new(Vec::new(alloc), faults))
}

/// Tries once, and tells what stands then.
fn tell_try<T: Threads + Sync, F: Files + Drop, C: Connect + Drop, R, G>(
    rt: &T,
    alloc: Global,
    clone: &mut PrepareFetch<F, C, R, G>,
    interrupt: &mut ScriptedInterrupt,
    worktrees: &mut ScriptedWorktrees,
    out: &mut Vec<u8>,
) -> Result<(), NoMemory>
where
    R: FnMut(Remote) -> Result<Remote, ConfigureFault> + Drop,
    G: FnMut(&mut C::Peer) -> Result<(), ConfigureFault> + Drop,
    requires remote { (f : _) (x : _) → R.pre f x }
    requires connection { (f : _) (x : _) → G.pre f x }
{
    match clone.fetch_only(rt, &mut NoProgress, interrupt, worktrees) {
        Ok((repo, _)) => tell_repository(alloc, &repo, out),
        Err(e) => refusals::of_clone(out, &e),
    }
}

/// Tries so often, and ends the clone.
// Many arguments: the row, its clone and the place, and what each row is told with.
pub(crate) fn tell_tries<T: Threads + Sync, F: Files + Drop, C: Connect + Drop, R, G>(
    rt: &T,
    alloc: Global,
    clone_case: &CloneCase,
    clone: PrepareFetch<F, C, R, G>,
    place: &[u8],
    course: Course,
    out: &mut Vec<u8>,
) -> Result<(), NoMemory>
where
    R: FnMut(Remote) -> Result<Remote, ConfigureFault> + Drop,
    G: FnMut(&mut C::Peer) -> Result<(), ConfigureFault> + Drop,
    requires remote { (f : _) (x : _) → R.pre f x }
    requires connection { (f : _) (x : _) → G.pre f x }
{
    let mut clone = clone;
    let mut interrupt = ScriptedInterrupt::new(Vec::from_slice(alloc, &clone_case.yes)?);
    let mut worktrees = worktrees_of(alloc, &clone_case.worktrees)?;
    for _ in 0..course.tries {
        tell_try(rt, alloc, &mut clone, &mut interrupt, &mut worktrees, out)?;
    }
    tell_end(alloc, clone, place, course.ending, out)
}

/// Ends a clone. What stands in the file `config` is told where it is given up.
fn tell_end<F: Files + Drop, C: Connect + Drop, R: Drop, G: Drop>(
    alloc: Global,
    clone: PrepareFetch<F, C, R, G>,
    place: &[u8],
    ending: Ending,
    out: &mut Vec<u8>,
) -> Result<(), NoMemory> {
    match ending {
        Ending::GivenUp => {
            let mut files = clone.abandon();
            say_config(alloc, &mut files, place, out)
        }
        Ending::Dropped => {
            drop(clone);
            say(out, &[b"dropped"])
        }
        Ending::Persisted => tell_persisted(clone.persist(), out),
    }
}

fn tell_persisted(repo: Option<Repository>, out: &mut Vec<u8>) -> Result<(), NoMemory> {
    match repo {
        Some(_) => say(out, &[b"persisted", b"a", b"repository"]),
        None => say(out, &[b"persisted", b"nothing"]),
    }
}

/// Tells the file `config` at a place, with a work tree and without.
fn say_config<F: Files>(
    alloc: Global,
    files: &mut F,
    place: &[u8],
    out: &mut Vec<u8>,
) -> Result<(), NoMemory> {
    say_below(alloc, files, place, b"/.git/config", out)?;
    say_below(alloc, files, place, b"/config", out)
}

/// Tells a file under a place.
fn say_below<F: Files>(
    alloc: Global,
    files: &mut F,
    place: &[u8],
    rest: &[u8],
    out: &mut Vec<u8>,
) -> Result<(), NoMemory> {
    let mut path = Vec::from_slice(alloc, place)?;
    path.extend_from_slice(rest)?;
    say_file(files, &path, out)
}

/// References, reflogs, border and ids, and the configuration in memory.
fn tell_repository(alloc: Global, repo: &Repository, out: &mut Vec<u8>) -> Result<(), NoMemory> {
    say(out, &[b"done"])?;
    append_state(out, repo)?;
    say(out, &[b"in memory"])?;
    match repo.local().write(alloc, None) {
        Ok(text) => say_lines(out, text.as_bytes()),
        Err(_) => Err(NoMemory),
    }
}
