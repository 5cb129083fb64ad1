//! What is fetched side by side, and what became of it.

use fetch_remote::{FetchOptions, Outcome, Remote, Repository};
use fetch_shared::{Entry, Pass, Receipt, SharedError};
use fetch_store::List;

/// What is fetched, from whom, and how.
// Not copied: it owns its caller's peer.
#[derive(Drop)]
pub struct Job<P> {
    /// The remote.
    pub remote: Remote,
    /// Who is asked.
    pub peer: P,
    /// How it is fetched.
    pub options: FetchOptions,
}

/// A job with the pass by which it is done.
// Not copied: it owns its caller's peer.
#[derive(Drop)]
pub struct JobRun<P> {
    /// The job.
    pub job: Job<P>,
    /// Its pass. A job without one isn't done.
    pub pass: Option<Pass>,
    /// What its pass saw, and what became of it. None before it was done.
    pub answer: Option<(Receipt, Result<Outcome, SharedError>)>,
}

/// What became of a race.
// Not copied: it gives its caller's peers back.
#[derive(Drop)]
pub struct Raced<P> {
    /// The repository that the journal leaves.
    pub repo: Repository,
    /// What was entered, in its order. Job `i` has the number `i`.
    pub journal: List<Entry>,
    /// What became of each job.
    pub answers: List<Result<Outcome, SharedError>>,
    /// The jobs' peers.
    pub peers: List<P>,
}
