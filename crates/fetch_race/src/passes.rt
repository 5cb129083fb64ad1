//! Jobs that get passes, and give them back.

ghost use Rattle.std.specs.Prelude.{◌≡◌, ℕ, ◌<◌, ◌≤◌, ◌+◌, All, Err, IfOk, IsOkUnless, IfSome, IsSome, MatchOption, Some, length, map};
ghost use Rattle.std.specs.Prelude.{slice_get, vec_len};
ghost use Rattle.fetch_store.specs.Missing.{unclosed};
ghost use Rattle.fetch_race.specs.Racing.{IsRaced};
ghost use Rattle.fetch_race.specs.Rooms.{HasRoom};
ghost use Rattle.fetch_race.specs.Passes.{AreGathered, AreOver, HavePasses, HaveRaced, HoldsAll, IsJoined, IsOwn, IsRest, HasPass};
ghost use Rattle.fetch_race.specs.Passes.{answer_in};
ghost use Rattle.fetch_journal.specs.Journals.{pass_of};
ghost use Rattle.fetch_journal.specs.Machine.{held};
ghost use Rattle.fetch_shared.specs.Passes.{Holder};
ghost use Rattle.fetch_journal.specs.Shared.{IsKept};
ghost use Rattle.fetch_journal.specs.declared.error.SharedError.TheVariants as errors;

use crate::job::{Job, JobRun, Raced};
use crate::racing::race_over;
use fetch_remote::{Outcome, Repository};
use fetch_shared::{Entry, Pass, SharedError, SharedRepository};
use fetch_store::{List, NoMemory};
use fetch_update::Worktree;
use fetch_wire::Peer;
use std::alloc::Global;
use std::sync::Wait;
use std::thread::Threads;

/// Does the jobs side by side over a repository, with these work trees: job `i`, counted from 0, by the pass with the number
/// `i`. It answers what the journal leaves, the journal, what became of each job, and the jobs' peers, in the jobs' order.
/// `NotClosed` comes exactly where the repository isn't closed, with its first missing link, and else only out of memory,
/// before any job begins; what a job was refused for is its answer.
///
/// A race can't be stopped, and its files begin with nothing and are dropped: a peer that hangs, hangs it. It is for a first
/// copy and for tests; a service calls `fetch_shared` in threads of its own.
pub fn race_with<R: Threads + Wait + Sync, P: Peer + Drop + Send>(
    rt: &R,
    alloc: Global,
    repo: Repository,
    jobs: Vec<Job<P>>,
    worktrees: &[Worktree],
) -> Result<Raced<P>, SharedError>
    requires few { (1 ≤ vec_len jobs) × (vec_len jobs ≤ 8) }
    ensures closed { MatchOption (slice_get (unclosed (held repo)) 0) (IsOkUnless result errors.NoMemory)
        (λ link. result ≡ Err (errors.NotClosed link)) }
    ensures raced { IfOk result (λ r. IsRaced
        (record { answers = P.answers; told = P.told; faults = P.faults; trees = worktrees.now; opening = repo }) jobs.items r) }
{
    match opened(alloc, repo) {
        Ok((shared, pass)) => Ok(race_in(rt, alloc, shared, pass, jobs, worktrees)?),
        Err(e) => Err(e),
    }
}

/// Shares a repository, and gives the pass that holds every number. `NotClosed` comes exactly where the repository isn't
/// closed, with its first missing link, and else only out of memory.
pub fn opened(alloc: Global, repo: Repository) -> Result<(SharedRepository, Pass), SharedError>
    ensures closed { MatchOption (slice_get (unclosed (held repo)) 0) (IsOkUnless result errors.NoMemory)
        (λ link. result ≡ Err (errors.NotClosed link)) }
    ensures opening { IfOk result (λ r. r.0.opening ≡ repo) }
    ensures all { IfOk result (λ r. IsRest r.0 0 r.1) }
{
    SharedRepository::new(alloc, repo)
}

/// Does the jobs over a shared repository, by parts of the pass that holds every number, and closes it.
fn race_in<R: Threads + Wait + Sync, P: Peer + Drop + Send>(
    rt: &R,
    alloc: Global,
    shared: SharedRepository,
    pass: Pass,
    jobs: Vec<Job<P>>,
    worktrees: &[Worktree],
) -> Result<Raced<P>, NoMemory>
    requires few { vec_len jobs ≤ 8 }
    requires all { IsRest shared 0 pass }
    ensures raced { IfOk result (λ r. IsRaced
        (record { answers = P.answers; told = P.told; faults = P.faults; trees = worktrees.now; opening = shared.opening }) jobs.items r) }
{
    let room = room_for(alloc, jobs.len())?;
    match job_runs_of(alloc, jobs) {
        Ok(job_runs) => Ok(raced(rt, alloc, shared, pass, job_runs, worktrees, room)),
        Err(e) => Err(e),
    }
}

/// Room for what becomes of the jobs.
#[derive(Drop)]
struct Room<P> {
    answers: Vec<Result<Outcome, SharedError>>,
    peers: Vec<P>,
}

fn room_for<P: Drop>(alloc: Global, count: usize) -> Result<Room<P>, NoMemory>
    ensures { IfOk result (HasRoom count) }
{
    Ok(Room {
        answers: Vec::with_capacity(alloc, count)?,
        peers: Vec::with_capacity(alloc, count)?,
    })
}

/// The jobs, of which none has a pass yet.
fn job_runs_of<P: Drop>(alloc: Global, jobs: Vec<Job<P>>) -> Result<Vec<JobRun<P>>, NoMemory>
    ensures jobs { IfOk result (λ job_runs. map (λ r. r.job) job_runs.items ≡ jobs.items) }
    ensures count { IfOk result (λ job_runs. vec_len job_runs ≡ vec_len jobs) }
{
    let mut job_runs = Vec::with_capacity(alloc, jobs.len())?;
    for job in jobs {
        job_runs.push(JobRun {
            job,
            pass: None,
            answer: None,
        })?;
    }
    Ok(job_runs)
}

/// Does the jobs, closes the repository, and tells what became of them.
// Many arguments: the shared repository with its pass, and all that the race has.
fn raced<R: Threads + Wait + Sync, P: Peer + Drop + Send>(
    rt: &R,
    alloc: Global,
    shared: SharedRepository,
    pass: Pass,
    mut job_runs: Vec<JobRun<P>>,
    worktrees: &[Worktree],
    room: Room<P>,
) -> Raced<P>
    requires few { vec_len job_runs ≤ 8 }
    requires all { IsRest shared 0 pass }
    requires room { HasRoom (vec_len job_runs) room }
    ensures raced { IsRaced (record {
      answers = P.answers;
      told = P.told;
      faults = P.faults;
      trees = worktrees.now;
      opening = shared.opening;
    }) (map (λ r. r.job) job_runs.items) result }
{
    let pass = race_among(rt, alloc, &shared, pass, job_runs.as_mut_slice(), worktrees);
    let (repo, journal) = closed(rt, shared, pass);
    told(repo, journal, job_runs, room)
}

/// What became of a race, by what became of each job.
fn told<P: Drop>(
    repo: Repository,
    journal: Vec<Entry>,
    job_runs: Vec<JobRun<P>>,
    room: Room<P>,
) -> Raced<P>
    requires answered { (i : ℕ) (job_run : _) → slice_get job_runs.items i ≡ Some job_run → IsSome job_run.answer }
    requires room { HasRoom (vec_len job_runs) room }
    ensures repo { result.repo ≡ repo }
    ensures journal { result.journal ≡ journal.items }
    ensures answers { map Some result.answers ≡ map answer_in job_runs.items }
    ensures peers { result.peers ≡ map (λ r. r.job.peer) job_runs.items }
{
    let (answers, peers) = parts_of(job_runs, room);
    Raced {
        repo,
        journal: List::from(journal),
        answers: List::from(answers),
        peers: List::from(peers),
    }
}

/// The answers and the peers, in the jobs' order. It takes no memory.
fn parts_of<P: Drop>(
    job_runs: Vec<JobRun<P>>,
    room: Room<P>,
) -> (Vec<Result<Outcome, SharedError>>, Vec<P>)
    requires answered { (i : ℕ) (job_run : _) → slice_get job_runs.items i ≡ Some job_run → IsSome job_run.answer }
    requires room { HasRoom (vec_len job_runs) room }
    ensures answers { map Some result.0.items ≡ map answer_in job_runs.items }
    ensures peers { result.1.items ≡ map (λ r. r.job.peer) job_runs.items }
{
    let Room {
        mut answers,
        mut peers,
    } = room;
    for job_run in job_runs {
        let JobRun { job, answer, .. } = job_run;
        let (_, answer) = answer.unwrap();
        answers.push_reserved(answer);
        peers.push_reserved(job.peer);
    }
    (answers, peers)
}

/// Closes a shared repository by the pass that holds every number, and gives it with its journal.
pub fn closed<R: Wait>(rt: &R, shared: SharedRepository, pass: Pass) -> (Repository, Vec<Entry>)
    requires shared { pass.shared ≡ shared }
    requires all { HoldsAll pass }
    ensures kept { IsKept (record { opening = shared.opening; repository = result.0; journal = result.1.items }) }
    ensures journal { result.1.items ≡ pass.front }
    ensures numbered { All (λ e. pass_of e < 18446744073709551615) result.1.items }
{
    match shared.close(rt, pass) {
        Ok(left) => left,
        Err(_) => unreachable!(),
    }
}

/// Does the jobs by parts of a pass, and gives one pass for all. It takes no memory of its own.
fn race_among<R: Threads + Wait + Sync, P: Peer + Drop + Send>(
    rt: &R,
    alloc: Global,
    shared: &SharedRepository,
    pass: Pass,
    job_runs: &mut [JobRun<P>],
    worktrees: &[Worktree],
) -> Pass
    requires few { length job_runs.old ≤ 8 }
    requires all { IsRest shared.now 0 pass }
    ensures shared { result.shared ≡ shared.now }
    ensures all { HoldsAll result }
    ensures raced { HaveRaced (record {
      answers = P.answers;
      told = P.told;
      faults = P.faults;
      trees = worktrees.now;
      opening = shared.now.opening;
    }) result.front (map (λ r. r.job) job_runs.old) job_runs.new }
{
    let rest = give_passes(shared, pass, job_runs);
    race_over(rt, alloc, shared, job_runs, worktrees);
    gather(shared, rest, job_runs)
}

/// Gives each job a pass of its own, job `i` that with the number `i`, and answers a pass for the numbers that are left.
/// The jobs may be anything: who lends peers has jobs without them.
pub fn give_passes<P: Drop>(
    shared: &SharedRepository,
    pass: Pass,
    job_runs: &mut [JobRun<P>],
) -> Pass
    requires few { length job_runs.old ≤ 8 }
    requires all { IsRest shared.now 0 pass }
    ensures given_passes { HavePasses shared.now (map (λ r. r.job) job_runs.old) job_runs.new }
    ensures rest { IsRest shared.now (length job_runs.old) result }
{
    let mut rest = pass;
    for i in 0..job_runs.len() {
        rest = give_pass(shared, rest, &mut job_runs[i]);
    }
    rest
}

/// Gives a job the least number of a pass, and answers a pass for the others.
fn give_pass<P: Drop>(shared: &SharedRepository, rest: Pass, job_run: &mut JobRun<P>) -> Pass
    requires rest { IsRest shared.now rest.number rest }
    requires unused { rest.number + 1 < 18446744073709551615 }
    ensures job { job_run.new.job ≡ job_run.old.job }
    ensures own { HasPass shared.now rest.number job_run.new }
    ensures rest { IsRest shared.now (rest.number + 1) result }
{
    let (own, left) = split_pass(shared, rest);
    job_run.pass = Some(own);
    left
}

/// A pass for the least number alone, and one for the others.
fn split_pass(shared: &SharedRepository, pass: Pass) -> (Pass, Pass)
    requires rest { IsRest shared.now pass.number pass }
    requires unused { pass.number + 1 < 18446744073709551615 }
    ensures own { IsOwn shared.now pass.number result.0 }
    ensures rest { IsRest shared.now (pass.number + 1) result.1 }
{
    let numbers = pass.unused();
    match shared.split(pass, numbers) {
        Ok(parts) => parts,
        Err(_) => unreachable!(),
    }
}

/// Takes the jobs' passes, and answers one for all.
pub fn gather<P: Drop>(shared: &SharedRepository, rest: Pass, job_runs: &mut [JobRun<P>]) -> Pass
    requires rest { IsRest shared.now (length job_runs.old) rest }
    requires over { AreOver shared.now job_runs.old }
    ensures shared { result.shared ≡ shared.now }
    ensures answers { map (λ r. r.answer) job_runs.new ≡ map (λ r. r.answer) job_runs.old }
    ensures jobs { map (λ r. r.job) job_runs.new ≡ map (λ r. r.job) job_runs.old }
    ensures gathered { AreGathered job_runs.old (length job_runs.old) result }
{
    let mut all = rest;
    for i in 0..job_runs.len() {
        all = take_pass(shared, all, &mut job_runs[i]);
    }
    all
}

/// One pass for two, where the job has one.
fn take_pass<P: Drop>(shared: &SharedRepository, all: Pass, job_run: &mut JobRun<P>) -> Pass
    requires shared { all.shared ≡ shared.now }
    requires pass { IfSome job_run.old.pass (λ p. p.shared ≡ shared.now) }
    ensures shared { result.shared ≡ shared.now }
    ensures job { job_run.new.job ≡ job_run.old.job }
    ensures answer { job_run.new.answer ≡ job_run.old.answer }
    ensures joined { (other : Holder) → job_run.old.pass ≡ Some other → IsJoined all other result }
{
    match job_run.pass.take() {
        Some(pass) => shared.join(all, pass),
        None => all,
    }
}
