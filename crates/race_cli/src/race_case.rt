//! What the scene of a race sets up.

ghost use Rattle.std.specs.Prelude.{◌≡◌, map, IfOk};
ghost use Rattle.fetch_store.specs.Stores.{AreOf};
ghost use Rattle.fetch_remote.specs.Repositories.{state_of, setup_of};
ghost use Rattle.race_cli.specs.RaceCases as spec;

use crate::scene::RaceScene;
use crate::scene::jobs::RaceJob;
use fetch_cli::{open_local, open_remote};
use fetch_remote::{FetchOptions, Remote, Repository};
use fetch_store::{List, NoMemory, Text};
use fetch_update::Worktree;
use std::alloc::Global;

/// A job that is set up: a remote, how to fetch from it, and what its peer says.
// Not copied: it is set up of a scene, for one race.
#[derive(Drop)]
pub struct JobCase {
    /// The remote, with its one address.
    pub remote: Remote,
    /// How to fetch.
    pub options: FetchOptions,
    /// What the peer says, piece by piece.
    pub pieces: List<Text>,
}

/// A race that is set up: a repository, what is checked out of it, and the jobs.
// Not copied: it is set up of a scene, for one race.
#[derive(Drop)]
pub struct RaceCase {
    /// The repository.
    pub repo: Repository,
    /// Which branches are checked out, and where.
    pub worktrees: List<Worktree>,
    /// The jobs, in the scene's order.
    pub jobs: List<JobCase>,
}

fn open_job(alloc: Global, job: RaceJob) -> Result<JobCase, NoMemory>
    ensures { IfOk result (λ opened_case. opened_case ≡ spec.job_in job) }
{
    let (remote, options) = open_remote(alloc, job.remote)?;
    Ok(JobCase {
        remote,
        options,
        pieces: job.pieces,
    })
}

fn open_jobs(alloc: Global, jobs: List<RaceJob>) -> Result<List<JobCase>, NoMemory>
    ensures { IfOk result (λ job_cases. job_cases ≡ map spec.job_in jobs) }
{
    let mut job_cases = Vec::new(alloc);
    for job in jobs.into_vec() {
        job_cases.push(open_job(alloc, job)?)?;
    }
    Ok(List::from(job_cases))
}

/// Sets up what the scene of a race says. Its objects are of its hash, as those that are read are. It is refused only where
/// memory ran out.
pub fn open_race(alloc: Global, scene: RaceScene) -> Result<RaceCase, NoMemory>
    requires { AreOf scene.local.head.hash scene.objects }
    ensures state { IfOk result (λ race. state_of race.repo ≡ (spec.opening_of scene).state) }
    ensures setup { IfOk result (λ race. setup_of race.repo ≡ (spec.opening_of scene).setup) }
    ensures worktrees { IfOk result (λ race. race.worktrees ≡ scene.local.worktrees) }
    ensures jobs { IfOk result (λ race. race.jobs ≡ map spec.job_in scene.jobs) }
{
    let (repo, worktrees) = open_local(alloc, scene.local, scene.objects)?;
    Ok(RaceCase {
        repo,
        worktrees,
        jobs: open_jobs(alloc, scene.jobs)?,
    })
}
