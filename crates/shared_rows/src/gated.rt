//! Peers of which each holds its reply until the other one was asked for a pack: so both fetches have to be under way at
//! once, and neither waits for the other's turn.

ghost use Rattle.std.specs.Prelude.{◌≤◌, IfOk, vec_len};

use fetch_race::{Job, Raced, race_with};
use fetch_remote::Repository;
use fetch_store::NoMemory;
use fetch_update::Worktree;
use fetch_wire::ScriptedPeer;
use peer_rows::{CountedPeer, Hold};
use race_cli::{JobCase, RaceCase};
use std::alloc::Global;
use std::sync::atomic::{AtomicBool, Ordering};
use std::sync::{Arc, Wait};
use std::thread::{Threads, yield_now};

/// How often a peer looks whether the other one was asked, before it fails.
const TURNS: u64 = 10_000_000;

/// Whether each of two peers was asked for a pack.
#[derive(Drop)]
struct Asked {
    first: AtomicBool,
    second: AtomicBool,
}

/// Which of the two peers one is, and whether it was asked.
#[derive(Drop)]
struct Waiting {
    asked: Arc<Asked, Global>,
    is_first: bool,
    was_asked: bool,
}

/// One of two peers.
type GatedPeer = CountedPeer<ScriptedPeer, Waiting>;

impl Waiting {
    /// Whether the other one was asked, or is while it waits.
    fn sees_other(&self) -> bool {
        let other = if self.is_first {
            &self.asked.second
        } else {
            &self.asked.first
        };
        for _ in 0..TURNS {
            if other.load(Ordering::SeqCst) {
                return true;
            }
            yield_now();
        }
        false
    }
}

impl Hold for Waiting {
    /// Notes that the peer was asked for a pack, where these bytes ask for one.
    fn may_send(&mut self, bytes: &[u8]) -> bool {
        if bytes.starts_with(b"0012command=fetch\n") {
            self.was_asked = true;
            let mine = if self.is_first {
                &self.asked.first
            } else {
                &self.asked.second
            };
            mine.store(true, Ordering::SeqCst);
        }
        true
    }

    fn may_receive(&mut self) -> bool {
        !self.was_asked || self.sees_other()
    }
}

/// A job whose peer gives what it is set up to give, and holds its reply until the other one was asked.
fn gated(
    alloc: Global,
    opened_case: JobCase,
    asked: &Arc<Asked, Global>,
    is_first: bool,
) -> Result<Job<GatedPeer>, NoMemory> {
    let hold = Waiting {
        asked: Arc::try_clone(asked)?,
        is_first,
        was_asked: false,
    };
    let script = ScriptedPeer::new(alloc, opened_case.pieces.into_vec(), Vec::new(alloc));
    Ok(Job {
        remote: opened_case.remote,
        peer: CountedPeer::new(script, hold),
        options: opened_case.options,
    })
}

/// The first two jobs of a race, each with a peer that holds its reply.
fn both(alloc: Global, job_cases: Vec<JobCase>) -> Result<Vec<Job<GatedPeer>>, NoMemory>
    ensures { IfOk result (λ jobs. vec_len jobs ≤ 2) }
{
    let asked = Arc::new(
        alloc,
        Asked {
            first: AtomicBool::new(false),
            second: AtomicBool::new(false),
        },
    )?;
    let mut jobs = Vec::with_capacity(alloc, 2)?;
    for opened_case in job_cases {
        if jobs.len() >= 2 {
            break;
        }
        let is_first = jobs.is_empty();
        jobs.push(gated(alloc, opened_case, &asked, is_first)?)?;
    }
    Ok(jobs)
}

/// How many entries a race made, where all its jobs were done.
fn entries_of(raced: &Raced<GatedPeer>) -> Option<usize> {
    for answer in raced.answers.as_slice() {
        if answer.is_err() {
            return None;
        }
    }
    Some(raced.journal.len())
}

/// Races these jobs, and tells how many entries were made where all were done.
fn race_jobs<R: Threads + Wait + Sync>(
    rt: &R,
    alloc: Global,
    repo: Repository,
    jobs: Vec<Job<GatedPeer>>,
    worktrees: &[Worktree],
) -> Option<usize>
    requires { (1 ≤ vec_len jobs) × (vec_len jobs ≤ 8) }
{
    match race_with(rt, alloc, repo, jobs, worktrees) {
        Ok(raced) => entries_of(&raced),
        Err(_) => None,
    }
}

/// Races the first two jobs of a race by such peers, and tells how many entries they made where both were done.
pub(crate) fn race_gated<R: Threads + Wait + Sync>(
    rt: &R,
    alloc: Global,
    opened_case: RaceCase,
) -> Result<Option<usize>, NoMemory> {
    let jobs = both(alloc, opened_case.jobs.into_vec())?;
    if jobs.is_empty() {
        return Ok(None);
    }
    Ok(race_jobs(
        rt,
        alloc,
        opened_case.repo,
        jobs,
        opened_case.worktrees.as_slice(),
    ))
}
