//! A mirror of what any peers tell.

ghost use Rattle.std.specs.Prelude.{◌≡◌, ◌↔◌, ◌≤◌, [], None, length, IfOk, IfErr, IfSome, IsTrue, OnOk};
ghost use Rattle.fetch_race.specs.Passes.{IsRest};
ghost use Rattle.fetch_journal.specs.Machine.{held};
ghost use Rattle.fetch_store.specs.Missing.{unclosed};
ghost use Rattle.fetch_mirror.specs.Mirroring.{AreUnrefused, HasListed, HasMirrored, IsFew, IsRefusalOf, IsToldOf, IsUnmirrored, IsUnnamed};
ghost use Rattle.fetch_mirror.specs.Mirroring.{IsUnrefused, TellsFirst, asking_by, given_for};
ghost use Rattle.fetch_race.specs.Passes.{answer_in};

use crate::error::MirrorError;
use crate::listing::{list, names_of};
use crate::opening::empty_mirror;
use crate::options::{MirrorOptions, Mirrored};
use crate::working::{fetch_in, workers_for};
use fetch_conversation::prepare;
use fetch_race::{JobRun, opened};
use fetch_remote::Repository;
use fetch_shared::{Entry, Pass, SharedError, SharedRepository};
use fetch_specs::FullName;
use fetch_store::{Kind, List, NoMemory};
use fetch_wire::{Peer, ReplyBound};
use std::alloc::Global;
use std::sync::Wait;
use std::thread::Threads;

/// Mirrors what the lister lists under `refs/`: an empty bare repository, into which as many workers as there are peers fetch
/// at once, each its share of the names from the peer at its place. There are as many peers as workers. A peer that hangs,
/// hangs it.
///
/// `Workers` comes exactly where there are fewer workers than one or more than eight, `List` where the references weren't
/// listed, and `Worker` tells the least worker that was refused. Out of memory is told by itself.
pub fn mirror_from<R: Threads + Wait + Sync, P: Peer + Send>(
    rt: &R,
    alloc: Global,
    kind: Kind,
    lister: &mut P,
    peers: &mut [P],
    options: MirrorOptions,
) -> Result<Mirrored, MirrorError>
    requires peers { length peers.old ≡ options.workers }
    ensures few { IfOk result (λ _. IsFew options.workers) }
    ensures mirrored { IfOk result (λ m. HasMirrored (given_for
        (asking_by P.answers P.told P.faults lister.old lister.new options.max_reply_bytes) peers.old peers.new kind options)
        m.repo m.journal) }
    ensures refused { IfErr result (λ e. IsUnmirrored (given_for
        (asking_by P.answers P.told P.faults lister.old lister.new options.max_reply_bytes) peers.old peers.new kind options) e) }
{
    let MirrorOptions {
        workers,
        committer,
        max_reply_bytes,
    } = options;
    if !is_few(workers) {
        return Err(MirrorError::Workers { count: workers });
    }
    let names = listed_names(alloc, lister, max_reply_bytes)?;
    let repo = empty_mirror(alloc, kind, committer)?;
    let mut job_runs = workers_for(alloc, &names, workers, max_reply_bytes)?;
    let (shared, pass) = share_closed(alloc, repo)?;
    let (asked, _) = peers.split_at_mut(job_runs.len());
    let (repo, journal) = fetch_in(rt, alloc, shared, pass, job_runs.as_mut_slice(), asked);
    told(repo, List::from(journal), job_runs.as_slice())
}

/// Shares a closed repository, and gives the pass that holds every number. Memory alone may refuse it.
fn share_closed(alloc: Global, repo: Repository) -> Result<(SharedRepository, Pass), NoMemory>
    requires closed { unclosed (held repo) ≡ [] }
    ensures opening { IfOk result (λ r. r.0.opening ≡ repo) }
    ensures all { IfOk result (λ r. IsRest r.0 0 r.1) }
{
    match opened(alloc, repo) {
        Ok(parts) => Ok(parts),
        Err(SharedError::NoMemory) => Err(NoMemory),
        // A closed repository is shared.
        Err(_) => unreachable!(),
    }
}

/// Whether there are one to eight workers.
pub(crate) fn is_few(workers: u32) -> bool
    ensures { IsTrue result ↔ IsFew workers }
{
    1 <= workers && workers <= 8
}

/// The names that the lister tells.
fn listed_names<P: Peer>(
    alloc: Global,
    lister: &mut P,
    bound: ReplyBound,
) -> Result<Vec<FullName>, MirrorError>
    ensures names { IfOk result (λ names. HasListed (asking_by P.answers P.told P.faults lister.old lister.new bound) names.items) }
    ensures refused { IfErr result (λ e. IsUnnamed (asking_by P.answers P.told P.faults lister.old lister.new bound) e) }
{
    match list(alloc, lister, bound) {
        Ok(listed) => Ok(names_of(alloc, listed.ref_map.remote_refs.as_slice())?),
        Err(prepare::Error::RefMap(e)) => Err(MirrorError::List(e)),
        Err(prepare::Error::NoMemory) => Err(MirrorError::NoMemory),
        // A refspec is given.
        Err(prepare::Error::MissingRefSpecs) => unreachable!(),
    }
}

/// The mirror, or why the first worker that was refused was.
fn told(
    repo: Repository,
    journal: List<Entry>,
    job_runs: &[JobRun<()>],
) -> Result<Mirrored, MirrorError>
    requires few { length job_runs.now ≤ 8 }
    ensures mirror { IfOk result (λ m. (m.repo ≡ repo) × (m.journal ≡ journal)) }
    ensures unrefused { OnOk result (AreUnrefused job_runs.now) }
    ensures refused { IfErr result (λ e. TellsFirst job_runs.now e) }
{
    match first_refused(job_runs) {
        Some(e) => Err(e),
        None => Ok(Mirrored { repo, journal }),
    }
}

/// The refusal of the first worker that was refused.
fn first_refused(job_runs: &[JobRun<()>]) -> Option<MirrorError>
    requires few { length job_runs.now ≤ 8 }
    ensures some { IfSome result (λ e. TellsFirst job_runs.now e) }
    ensures none { result ≡ None → AreUnrefused job_runs.now }
{
    for (i, job_run) in job_runs.iter().enumerate() {
        if let Some(e) = refused(i as u32, job_run) {
            return Some(e);
        }
    }
    None
}

/// A worker's refusal, where it was refused.
fn refused(index: u32, job_run: &JobRun<()>) -> Option<MirrorError>
    ensures some { IfSome result (λ e. IsToldOf index (answer_in job_run.now) e) }
    ensures none { result ≡ None → IsUnrefused (answer_in job_run.now) }
{
    match &job_run.answer {
        Some((_, Err(error))) => Some(refusal(index, error)),
        Some((_, Ok(_))) => None,
        None => None,
    }
}

/// A worker's refusal. Out of memory stays out of memory.
fn refusal(index: u32, error: &SharedError) -> MirrorError
    ensures { IsRefusalOf index error.now result }
{
    match error.try_clone() {
        Ok(SharedError::NoMemory) => MirrorError::NoMemory,
        Ok(error) => MirrorError::Worker { index, error },
        Err(_) => MirrorError::NoMemory,
    }
}
