//! Mirrors in which a call of one peer fails, each of its calls in turn: of the lister, or of one of two workers.

ghost use Rattle.std.specs.Prelude.{◌≡◌, IfOk, vec_len};

use crate::mirrors::{mirror_by_two, tell_outcome};
use fetch_remote::Repository;
use fetch_serve::{Server, ServerPeer};
use fetch_store::NoMemory;
use peer_rows::{CountedPeer, Hold};
use rows::say_number;
use std::alloc::Global;
use std::sync::Wait;
use std::thread::Threads;

/// How many calls of a peer are tried at most.
const CALLS: usize = 16;

/// How many calls of a peer are to come before it fails.
#[derive(Drop)]
struct Countdown {
    left: usize,
}

impl Countdown {
    /// Counts a call. Whether it was to come.
    fn count(&mut self) -> bool {
        match self.left.checked_sub(1) {
            Some(left) => {
                self.left = left;
                true
            }
            None => false,
        }
    }
}

impl Hold for Countdown {
    fn may_send(&mut self, _bytes: &[u8]) -> bool {
        self.count()
    }

    fn may_receive(&mut self) -> bool {
        self.count()
    }
}

/// A server as a peer that fails from a call on.
type FailingPeer<'a> = CountedPeer<ServerPeer<'a>, Countdown>;

/// Which of the three peers fails.
#[derive(Clone, Copy, PartialEq, Eq)]
pub(crate) enum Who {
    Lister,
    First,
    Second,
}

impl Who {
    fn name(self) -> &'static [u8] {
        match self {
            Who::Lister => b"== lister",
            Who::First => b"== first",
            Who::Second => b"== second",
        }
    }
}

/// The peer that this one is, which fails behind so many calls where it is the one that fails.
fn peer<'a>(server: &Server<'a>, is: Who, fails: Who, calls: usize) -> FailingPeer<'a> {
    let left = if is == fails { calls } else { usize::MAX };
    CountedPeer::new(ServerPeer::new(server.fresh()), Countdown { left })
}

/// The peers of two workers.
fn two_peers<'a>(
    alloc: Global,
    server: &Server<'a>,
    fails: Who,
    calls: usize,
) -> Result<Vec<FailingPeer<'a>>, NoMemory>
    ensures { IfOk result (λ peers. vec_len peers ≡ 2) }
{
    let mut peers = Vec::with_capacity(alloc, 2)?;
    peers.push(peer(server, Who::First, fails, calls))?;
    peers.push(peer(server, Who::Second, fails, calls))?;
    Ok(peers)
}

/// Puts down how a mirror ends in which this peer fails behind so many calls. Whether it is done.
// Many arguments: what fails and when, the repository with its server, and what each row is told with.
fn tell_one(
    rt: &(impl Threads + Wait + Sync),
    alloc: Global,
    repo: &Repository,
    server: &Server<'_>,
    fails: Who,
    calls: usize,
    out: &mut Vec<u8>,
) -> Result<bool, NoMemory> {
    let mut lister = Box::new(alloc, peer(server, Who::Lister, fails, calls))?;
    let mut peers = two_peers(alloc, server, fails, calls)?;
    let mirror = mirror_by_two(rt, alloc, repo, &mut *lister, peers.as_mut_slice());
    say_number(out, fails.name(), calls)?;
    tell_outcome(alloc, mirror, out)
}

/// Puts down the same for each of its calls, until the mirror is done.
pub(crate) fn tell(
    rt: &(impl Threads + Wait + Sync),
    alloc: Global,
    repo: &Repository,
    server: &Server<'_>,
    fails: Who,
    out: &mut Vec<u8>,
) -> Result<(), NoMemory> {
    for calls in 0..CALLS {
        if tell_one(rt, alloc, repo, server, fails, calls, out)? {
            return Ok(());
        }
    }
    Ok(())
}
