//! Two workers whose peers hold each reply until the other one was asked for the same, a listing or a pack: so both have to
//! be under way at once, and neither waits for the other's turn.

ghost use Rattle.std.specs.Prelude.{◌≡◌, IfOk, vec_len};

use crate::mirrors::{mirror_by_two, tell_mirror};
use fetch_remote::Repository;
use fetch_serve::{Server, ServerPeer};
use fetch_store::NoMemory;
use peer_rows::{CountedPeer, Hold};
use rows::say_number;
use std::alloc::Global;
use std::sync::atomic::{AtomicBool, Ordering};
use std::sync::{Arc, Wait};
use std::thread::{Threads, yield_now};

/// How often a peer looks whether the other one was asked, before it fails.
const TURNS: u64 = 10_000_000;

/// What a peer was asked for last.
#[derive(Clone, Copy)]
enum Stage {
    Greeting,
    Listing,
    Pack,
}

/// Whether a peer was asked for a listing, and for a pack.
#[derive(Drop)]
struct Asked {
    listing: AtomicBool,
    pack: AtomicBool,
}

/// The same of two peers.
#[derive(Drop)]
struct Both {
    first: Asked,
    second: Asked,
}

/// By what one of two peers sees the other one.
#[derive(Drop)]
struct Gate {
    both: Arc<Both, Global>,
    is_first: bool,
}

/// What a peer was asked for last, and the gate before which it waits for another one, where it has one.
#[derive(Drop)]
struct Waiting {
    gate: Option<Gate>,
    stage: Stage,
}

/// A server as a peer that waits so.
type GatedPeer<'a> = CountedPeer<ServerPeer<'a>, Waiting>;

/// What these bytes ask for, if they begin a request behind the greeting.
fn stage_of(bytes: &[u8]) -> Option<Stage> {
    if bytes.starts_with(b"0014command=ls-refs\n") {
        return Some(Stage::Listing);
    }
    if bytes.starts_with(b"0012command=fetch\n") {
        return Some(Stage::Pack);
    }
    None
}

/// The flag of a stage. Each peer is greeted at once.
fn flag(asked: &Asked, stage: Stage) -> Option<&AtomicBool> {
    match stage {
        Stage::Greeting => None,
        Stage::Listing => Some(&asked.listing),
        Stage::Pack => Some(&asked.pack),
    }
}

impl Gate {
    /// Notes what this peer was asked for.
    fn note(&self, stage: Stage) {
        let mine = if self.is_first {
            &self.both.first
        } else {
            &self.both.second
        };
        if let Some(flag) = flag(mine, stage) {
            flag.store(true, Ordering::SeqCst);
        }
    }

    /// Whether the other one was asked for the same, or is while it waits.
    fn sees_other(&self, stage: Stage) -> bool {
        let other = if self.is_first {
            &self.both.second
        } else {
            &self.both.first
        };
        let Some(flag) = flag(other, stage) else {
            return true;
        };
        for _ in 0..TURNS {
            if flag.load(Ordering::SeqCst) {
                return true;
            }
            yield_now();
        }
        false
    }
}

impl Hold for Waiting {
    /// Notes what these bytes ask for.
    fn may_send(&mut self, bytes: &[u8]) -> bool {
        if let Some(stage) = stage_of(bytes) {
            self.stage = stage;
            if let Some(gate) = &self.gate {
                gate.note(stage);
            }
        }
        true
    }

    fn may_receive(&mut self) -> bool {
        match &self.gate {
            Some(gate) => gate.sees_other(self.stage),
            None => true,
        }
    }
}

/// A peer by a server of its own of the same repository.
fn peer<'a>(server: &Server<'a>, gate: Option<Gate>) -> GatedPeer<'a> {
    let hold = Waiting {
        gate,
        stage: Stage::Greeting,
    };
    CountedPeer::new(ServerPeer::new(server.fresh()), hold)
}

fn unasked() -> Asked {
    Asked {
        listing: AtomicBool::new(false),
        pack: AtomicBool::new(false),
    }
}

/// Two peers of a server, each of which waits for the other one.
fn two_peers<'a>(alloc: Global, server: &Server<'a>) -> Result<Vec<GatedPeer<'a>>, NoMemory>
    ensures { IfOk result (λ peers. vec_len peers ≡ 2) }
{
    let both = Both {
        first: unasked(),
        second: unasked(),
    };
    let both = Arc::new(alloc, both)?;
    let first = Gate {
        both: Arc::try_clone(&both)?,
        is_first: true,
    };
    let second = Gate {
        both,
        is_first: false,
    };
    let mut peers = Vec::with_capacity(alloc, 2)?;
    peers.push(peer(server, Some(first)))?;
    peers.push(peer(server, Some(second)))?;
    Ok(peers)
}

/// Puts down the mirror of what a server has by such peers, and how many entries were made.
pub(crate) fn tell(
    rt: &(impl Threads + Wait + Sync),
    alloc: Global,
    repo: &Repository,
    server: &Server<'_>,
    out: &mut Vec<u8>,
) -> Result<(), NoMemory> {
    let mut lister = Box::new(alloc, peer(server, None))?;
    let mut peers = two_peers(alloc, server)?;
    let mirror = mirror_by_two(rt, alloc, repo, &mut *lister, peers.as_mut_slice());
    let entries = tell_mirror(alloc, mirror, out)?;
    say_number(out, b"== entries", entries)
}
