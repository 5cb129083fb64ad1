//! What a service does about an error.

use crate::serving::{self, Asked};
use crate::setting::{client, fetch};
use anyhow::Result;
use fetch_host::{Failure, FailureKind};
use fetch_remote::{Remote, Repository};
use fetch_wire::Peer;
use std::alloc::Global;
use std::fmt::Display;
use std::thread::Threads;

/// What is to be done about a failure.
fn advice(kind: FailureKind) -> &'static str {
    match kind {
        FailureKind::Peer | FailureKind::Others => "try again",
        FailureKind::Stop => "end",
        FailureKind::Local => "have it mended here",
        FailureKind::Server => "have it looked at there",
        FailureKind::Size => "fetch in slices",
        FailureKind::Caller => "ask otherwise",
        FailureKind::Memory => "do less at once",
    }
}

/// Tells what is to be done about an error, and whether that is to try again.
fn is_worth_another<R: Print, E: Failure + Display + Drop>(rt: &R, e: E) -> Result<bool> {
    let kind = e.failure_kind();
    println!(rt; "{e}: {}", advice(kind))?;
    Ok(matches!(kind, FailureKind::Peer | FailureKind::Others))
}

/// Fetches, and tells whether it is done with.
fn is_done<R: Threads + Sync + Print, P: Peer>(
    rt: &R,
    alloc: Global,
    remote: &Remote,
    repo: &mut Repository,
    peer: &mut P,
) -> Result<bool> {
    match fetch(rt, alloc, remote, repo, peer) {
        Ok(()) => Ok(true),
        Err(e) => Ok(!is_worth_another(rt, e)?),
    }
}

/// Fetches, by up to three peers where another one is of use. The first two of these fail at some call.
fn failing<R: Threads + Sync + Print>(
    rt: &R,
    alloc: Global,
    remote: &Remote,
    repo: &mut Repository,
) -> Result<()> {
    for call in [0, 2, 4] {
        let mut peer = serving::failing_peer(alloc, Asked::Whole, call)?;
        if is_done(rt, alloc, remote, repo, &mut peer)? {
            break;
        }
    }
    println!(rt; "{} objects", repo.store().len())?;
    Ok(())
}

pub(crate) fn run<R: Threads + Sync + Print>(rt: &R, alloc: Global) -> Result<()> {
    let (mut repo, remote) = client(alloc, b"+refs/heads/*:refs/remotes/origin/*")?;
    failing(rt, alloc, &remote, &mut repo)
}
