//! Workers that fetch at once, each with a peer that is lent.

ghost use Rattle.std.specs.Prelude.{◌≡◌, ℕ, ◌<◌, ◌≤◌, All, [], IfOk, IfSome, length, map, slice_index_or};
ghost use Rattle.fetch_race.specs.Racing.{IsRun};
ghost use Rattle.fetch_race.specs.Passes.{HaveRaced, IsRest};
ghost use Rattle.fetch_journal.specs.Journals.{pass_of};
ghost use Rattle.fetch_journal.specs.Shared.{IsKept};
ghost use Rattle.fetch_mirror.specs.Lent.{all_owning, owning};
ghost use Rattle.fetch_mirror.specs.Mirroring as spec;
ghost use Rattle.fetch_mirror.specs.Mirroring.{AreWorkers};

use crate::listing::map_options;
use crate::pairs::for_each_pair_mut;
use crate::sharing::share;
use fetch_race::{Job, JobRun, arrive, closed, fetch_by_pass, gather, give_passes};
use fetch_remote::{FetchOptions, Remote, Repository};
use fetch_shared::{Entry, Pass, SharedRepository};
use fetch_specs::{FullName, RefSpec, Tags};
use fetch_store::{List, NoMemory, Text};
use fetch_wire::{Peer, ReplyBound};
use std::alloc::Global;
use std::sync::Wait;
use std::thread::Threads;

/// The workers that have a share of these names, without passes and peers.
pub(crate) fn workers_for(
    alloc: Global,
    names: &[FullName],
    workers: u32,
    bound: ReplyBound,
) -> Result<Vec<JobRun<()>>, NoMemory>
    requires some { 1 ≤ workers }
    ensures { IfOk result (λ job_runs. AreWorkers workers bound names.now job_runs.items) }
{
    let mut shares = share(alloc, names, workers)?.into_vec();
    shares.truncate(names.len());
    Ok(job_runs_of(alloc, shares, bound)?)
}

fn job_runs_of(
    alloc: Global,
    shares: Vec<List<RefSpec>>,
    bound: ReplyBound,
) -> Result<Vec<JobRun<()>>, NoMemory>
    ensures { IfOk result (λ job_runs. job_runs.items ≡ map (spec.worker bound) shares.items) }
{
    let mut job_runs = Vec::with_capacity(alloc, shares.len())?;
    for specs in shares {
        job_runs.push(worker(alloc, specs, bound)?)?;
    }
    Ok(job_runs)
}

/// A worker that fetches by these refspecs.
fn worker(alloc: Global, specs: List<RefSpec>, bound: ReplyBound) -> Result<JobRun<()>, NoMemory>
    ensures { IfOk result (λ job_run. job_run ≡ spec.worker bound specs) }
{
    let mut urls = List::new(alloc);
    urls.push(Text::new(alloc, b".")?)?;
    let mut options = FetchOptions::new(alloc);
    options.map = map_options(alloc, bound);
    let job = Job {
        remote: Remote::new(urls, specs, Tags::None),
        peer: (),
        options,
    };
    Ok(JobRun {
        job,
        pass: None,
        answer: None,
    })
}

/// Lets the workers fetch into a shared repository by parts of the pass that holds every number, each from the peer at its
/// place, and closes it: what their journal leaves, and the journal.
pub(crate) fn fetch_in<R: Threads + Wait + Sync, P: Peer + Send>(
    rt: &R,
    alloc: Global,
    shared: SharedRepository,
    pass: Pass,
    job_runs: &mut [JobRun<()>],
    peers: &mut [P],
) -> (Repository, Vec<Entry>)
    requires all { IsRest shared 0 pass }
    requires few { length job_runs.old ≤ 8 }
    requires same { length job_runs.old ≡ length peers.old }
    ensures kept { IsKept (record { opening = shared.opening; repository = result.0; journal = result.1.items }) }
    ensures numbered { All (λ e. pass_of e < 18446744073709551615) result.1.items }
    ensures raced { HaveRaced (record { answers = P.answers; told = P.told; faults = P.faults; trees = []; opening = shared.opening })
        result.1.items (map (λ r. r.job) (all_owning job_runs.old peers.old)) (all_owning job_runs.new peers.new) }
{
    let rest = give_passes(&shared, pass, job_runs);
    fetch_all(rt, alloc, &shared, job_runs, peers);
    let pass = gather(&shared, rest, job_runs);
    closed(rt, shared, pass)
}

/// Lets each worker that has a pass fetch by it, all at once, each from the peer at its place.
fn fetch_all<R: Threads + Wait + Sync, P: Peer + Send>(
    rt: &R,
    alloc: Global,
    shared: &SharedRepository,
    job_runs: &mut [JobRun<()>],
    peers: &mut [P],
)
    requires same { length job_runs.old ≡ length peers.old }
    requires shared { All (λ r. IfSome r.pass (λ p. p.shared ≡ shared.now)) job_runs.old }
    ensures ran { (i : ℕ) (d : _) → i < length (all_owning job_runs.old peers.old)
        → IfSome (slice_index_or (all_owning job_runs.old peers.old) i d).pass (λ pass. IsRun
        (record { answers = P.answers; told = P.told; faults = P.faults; trees = []; opening = shared.now.opening }) pass
        (slice_index_or (all_owning job_runs.old peers.old) i d) (slice_index_or (all_owning job_runs.new peers.new) i d)) }
    ensures job_run_count { length job_runs.new ≡ length job_runs.old }
    ensures peer_count { length peers.new ≡ length peers.old }
{
    for_each_pair_mut(
        rt,
        &|job_run, peer|
            requires { IfSome job_run.old.pass (λ p. p.shared ≡ shared.now) }
        { fetch_one(rt, alloc, shared, job_run, peer) },
        job_runs,
        peers,
    );
}

/// Lets a worker that has a pass fetch by it.
fn fetch_one<R: Threads + Wait + Sync, P: Peer>(
    rt: &R,
    alloc: Global,
    shared: &SharedRepository,
    job_run: &mut JobRun<()>,
    peer: &mut P,
)
    requires shared { IfSome job_run.old.pass (λ p. p.shared ≡ shared.now) }
    ensures ran { IfSome job_run.old.pass (λ pass. IsRun
        (record { answers = P.answers; told = P.told; faults = P.faults; trees = []; opening = shared.now.opening }) pass
        (owning job_run.old peer.old) (owning job_run.new peer.new)) }
{
    let Some(pass) = job_run.pass.take() else {
        return;
    };
    let (pass, receipt, answer) = fetch_by_pass(
        rt,
        alloc,
        shared,
        pass,
        &job_run.job.remote,
        peer,
        &job_run.job.options,
        &[],
    );
    arrive(job_run, pass, receipt, answer)
}
