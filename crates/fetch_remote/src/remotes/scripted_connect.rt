//! A maker of peers that follows a script.

ghost use Rattle.std.specs.Prelude.{◌≡◌, ◌+◌, ◌<◌, ◌↔◌, ℕ, [], true, nat_lt, length, IfOk, IsErrOf, Some, Contains};
ghost use Rattle.std.specs.List.{list_all};
ghost use Rattle.fetch_base.specs.Faults.{Rose, Counts};
ghost use Rattle.fetch_base.specs.Calls.{one_more, faults_of};
ghost use Rattle.fetch_wire.specs.Scripts.{sends_failed};
ghost use Rattle.fetch_remote.specs.Connecting.{Makes, MakesAt, TakesBack, is_fresh, lost_in, out_after, with_lost};

use crate::connect::Connect;
use fetch_store::{Calls, Text};
use fetch_wire::{Peer, ScriptedPeer, SendFault};
use std::alloc::Global;
use std::collections::VecDeque;
use std::marker::Model;

/// A maker that hands out these peers in order, and peers without pieces after the last one. The calls whose numbers
/// are listed fail, where numbers count the calls of `make` from 0.
// Not copied: its peers are handed out, each once.
#[derive(Drop)]
pub struct ScriptedConnect {
    alloc: Global,
    left: VecDeque<ScriptedPeer>,
    taken: Vec<ScriptedPeer>,
    addresses: Vec<Text>,
    out: usize,
    calls: Calls,
    failed: u64,
}

impl Model for ScriptedConnect {
    ghost use Rattle.std.specs.Prelude.{◌≡◌, ◌+◌, ◌≤◌, true, vec_len, vec_capacity};
    ghost use Rattle.std.specs.List.{list_all};
    ghost use Rattle.fetch_remote.specs.Connecting.{Making, is_fresh};

    ghost Value = { Making };

    ghost view = { λ c. record {
      left = c.left.items;
      taken = c.taken.items;
      addresses = c.addresses.items;
      out = c.out;
      calls = c.calls;
      failed = c.failed;
    } };

    ghost invariant = { λ c. (vec_len c.taken + c.out ≤ vec_capacity c.taken) × (list_all is_fresh c.left.items ≡ true) };
}

impl ScriptedConnect {
    /// A maker of these peers, none of which has failed yet, that fails at the calls with these numbers, in any order.
    pub fn new(alloc: Global, peers: Vec<ScriptedPeer>, failing: Vec<u64>) -> ScriptedConnect
        requires { list_all is_fresh peers.items ≡ true }
        ensures left { result.left ≡ peers.items }
        ensures taken { result.taken ≡ [] }
        ensures addresses { result.addresses ≡ [] }
        ensures out { result.out ≡ 0 }
        ensures failing { (n : ℕ) → Contains result.calls.listed n ↔ Contains failing.items n }
        ensures first { result.calls.next ≡ 0 }
        ensures faults { ⟦<ScriptedConnect as Connect>⟧.faults result ≡ record { count = 0; possible = nat_lt 0 (length failing.items) } }
    {
        ScriptedConnect {
            alloc,
            left: VecDeque::from(peers),
            taken: Vec::new(alloc),
            addresses: Vec::new(alloc),
            out: 0,
            calls: Calls::new(failing),
            failed: 0,
        }
    }
}

impl Connect for ScriptedConnect {
    type Peer = ScriptedPeer;

    ghost faults = { λ c. faults_of c.calls c.failed };

    ghost out = { λ c. c.out };

    ghost lost = { λ c. lost_in c.taken };

    ghost left = { λ c. Some c.left };

    ghost taken = { λ c. Some c.taken };

    ghost addresses = { λ c. Some c.addresses };

    /// Hands out the next peer, or one without pieces, or fails where this call is listed.
    fn make(&mut self, address: &[u8]) -> Result<ScriptedPeer, SendFault>
        ensures counts { Counts (faults_of self.old.calls self.old.failed) (faults_of self.new.calls self.new.failed) }
        ensures cause { IsErrOf result SendFault.Failed
            → Rose (faults_of self.old.calls self.old.failed) (faults_of self.new.calls self.new.failed) }
        ensures fresh { IfOk result (λ peer. peer.failed ≡ 0) }
        ensures out { self.new.out ≡ out_after result self.old.out }
        ensures left { Makes (Some self.old.left) (Some self.new.left) result }
        ensures address { MakesAt address.now (Some self.old.addresses) (Some self.new.addresses) result }
        ensures taken { self.new.taken ≡ self.old.taken }
        ensures fails { IsErrOf result SendFault.Failed ↔ Contains self.old.calls.listed self.old.calls.next }
        ensures failed { self.new.failed ≡ sends_failed self.old.failed result }
        ensures next { self.new.calls.next ≡ one_more self.old.calls.next }
        ensures listed { self.new.calls.listed ≡ self.old.calls.listed }
        ensures behind { IfOk result (λ peer. self.old.left ≡ [] → peer.pieces ≡ []) }
    {
        if self.calls.count() {
            self.failed = self.failed.saturating_add(1);
            return Err(SendFault::Failed);
        }
        let Some(out) = self.out.checked_add(1) else {
            return Err(SendFault::NoMemory);
        };
        if self.taken.reserve(out).is_err() {
            return Err(SendFault::NoMemory);
        }
        let Ok(address) = Text::new(self.alloc, address) else {
            return Err(SendFault::NoMemory);
        };
        if self.addresses.push(address).is_err() {
            return Err(SendFault::NoMemory);
        }
        self.out = out;
        match self.left.pop_front() {
            Some(peer) => Ok(peer),
            None => Ok(ScriptedPeer::new(self.alloc, Vec::new(self.alloc), Vec::new(self.alloc))),
        }
    }

    /// Keeps the peer as it stands.
    #[tactic(auto, using(crate::proofs::Lost::one_more_lost))]
    fn take_back(&mut self, peer: ScriptedPeer)
        requires { 0 < self.old.out }
        ensures out { self.new.out + 1 ≡ self.old.out }
        ensures lost { lost_in self.new.taken ≡ with_lost (faults_of peer.calls peer.failed) (lost_in self.old.taken) }
        ensures taken { TakesBack (Some self.old.taken) (Some self.new.taken) peer }
        ensures left { self.new.left ≡ self.old.left }
        ensures addresses { self.new.addresses ≡ self.old.addresses }
        ensures calls { self.new.calls ≡ self.old.calls }
        ensures failed { self.new.failed ≡ self.old.failed }
    {
        self.out -= 1;
        self.taken.push_reserved(peer);
    }
}
