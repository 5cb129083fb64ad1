//! Jobs that are done side by side, each by its pass.

ghost use Rattle.std.specs.Prelude.{◌≡◌, ℕ, ◌<◌, All, IfSome, None, Some, length, slice_index_or};
ghost use Rattle.fetch_race.specs.Racing.{IsRun};

use crate::fetching::fetch_by_pass;
use crate::job::JobRun;
use fetch_remote::Outcome;
use fetch_shared::{Pass, Receipt, SharedError, SharedRepository};
use fetch_update::Worktree;
use fetch_wire::Peer;
use std::alloc::Global;
use std::sync::Wait;
use std::thread;
use std::thread::Threads;

/// Does each job by its pass, side by side. The files of a job are in memory and begin with nothing, its work trees are
/// these, nothing interrupts it, and none of them fails. What became of a job stands beside it, with the pass as it came
/// back. A job without a pass is as before. It takes no memory of its own.
///
/// A race can't be stopped: a peer that hangs, hangs it. It is for a first copy and for tests; a service calls
/// `fetch_shared` in threads of its own.
pub fn race_over<R: Threads + Wait + Sync, P: Peer + Send>(
    rt: &R,
    alloc: Global,
    shared: &SharedRepository,
    job_runs: &mut [JobRun<P>],
    worktrees: &[Worktree],
)
    requires shared { All (λ r. IfSome r.pass (λ p. p.shared ≡ shared.now)) job_runs.old }
    ensures ran { (i : ℕ) (d : _) → i < length job_runs.old → IfSome (slice_index_or job_runs.old i d).pass (λ pass. IsRun
        (record { answers = P.answers; told = P.told; faults = P.faults; trees = worktrees.now; opening = shared.now.opening }) pass
        (slice_index_or job_runs.old i d) (slice_index_or job_runs.new i d)) }
    ensures left { (i : ℕ) (d : _) → i < length job_runs.old → (slice_index_or job_runs.old i d).pass ≡ None
        → slice_index_or job_runs.new i d ≡ slice_index_or job_runs.old i d }
{
    let threads = job_runs.len().max(1);
    thread::for_each_mut(
        rt,
        job_runs,
        threads,
        &|_, job_run|
            requires { IfSome job_run.old.pass (λ p. p.shared ≡ shared.now) }
        { run(rt, alloc, shared, job_run, worktrees) },
    );
}

/// Does a job by its pass.
fn run<R: Threads + Wait + Sync, P: Peer>(
    rt: &R,
    alloc: Global,
    shared: &SharedRepository,
    job_run: &mut JobRun<P>,
    worktrees: &[Worktree],
)
    requires shared { IfSome job_run.old.pass (λ p. p.shared ≡ shared.now) }
    ensures ran { IfSome job_run.old.pass (λ pass. IsRun
        (record { answers = P.answers; told = P.told; faults = P.faults; trees = worktrees.now; opening = shared.now.opening }) pass
        job_run.old job_run.new) }
    ensures left { job_run.old.pass ≡ None → job_run.new ≡ job_run.old }
{
    let Some(pass) = job_run.pass.take() else {
        return;
    };
    let (pass, receipt, answer) = fetch_by_pass(
        rt,
        alloc,
        shared,
        pass,
        &job_run.job.remote,
        &mut job_run.job.peer,
        &job_run.job.options,
        worktrees,
    );
    arrive(job_run, pass, receipt, answer)
}

/// Puts a pass that came back and what became of the job beside the job.
pub fn arrive<P>(
    job_run: &mut JobRun<P>,
    pass: Pass,
    receipt: Receipt,
    answer: Result<Outcome, SharedError>,
)
    ensures job { job_run.new.job ≡ job_run.old.job }
    ensures pass { job_run.new.pass ≡ Some pass }
    ensures answer { job_run.new.answer ≡ Some (receipt, answer) }
{
    drop(job_run.pass.replace(pass));
    drop(job_run.answer.replace((receipt, answer)));
}
