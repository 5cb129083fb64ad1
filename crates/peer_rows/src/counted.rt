//! Peers that count how often they failed, and may be held before each call.

ghost use Rattle.std.specs.Prelude.{◌≡◌};
ghost use Rattle.fetch_base.specs.Faults.{Rose, Counts, counted};

use fetch_store::Failed;
use fetch_wire::{Peer, SendFault};

/// What a peer waits for before it is asked, and when it fails.
pub trait Hold {
    /// Notes what is to be sent to the peer. Whether it takes that.
    fn may_send(&mut self, bytes: &[u8]) -> bool;

    /// Whether the peer gives something, maybe after a while.
    fn may_receive(&mut self) -> bool;
}

/// The hold of a peer that waits for nothing.
#[derive(Clone, Copy)]
pub struct Free;

impl Hold for Free {
    fn may_send(&mut self, _bytes: &[u8]) -> bool {
        true
    }

    fn may_receive(&mut self) -> bool {
        true
    }
}

/// A peer that tells nothing of its bytes, counts its faults, and fails where its hold says so.
#[derive(Drop)]
pub struct CountedPeer<P: Drop, H: Drop> {
    peer: P,
    hold: H,
    /// How often it failed.
    pub failed: u64,
}

impl<P: Peer + Drop, H: Hold + Drop> CountedPeer<P, H> {
    /// This peer with this hold, without a fault.
    pub fn new(peer: P, hold: H) -> CountedPeer<P, H>
        ensures { result.failed ≡ 0 }
    {
        CountedPeer {
            peer,
            hold,
            failed: 0,
        }
    }

    fn fail(&mut self)
        ensures counts { Counts (counted self.old.failed) (counted self.new.failed) }
        ensures rose { Rose (counted self.old.failed) (counted self.new.failed) }
    {
        self.failed = self.failed.saturating_add(1);
    }
}

impl<P: Peer + Drop, H: Hold + Drop> Peer for CountedPeer<P, H> {
    ghost use Rattle.std.specs.Prelude.{false, None};
    ghost use Rattle.fetch_base.specs.Faults.{counted};

    ghost told = { λ _. None };

    ghost faults = { λ p. counted p.failed };

    ghost answers = { false };

    fn send(&mut self, bytes: &[u8]) -> Result<(), SendFault> {
        if !self.hold.may_send(bytes) {
            self.fail();
            return Err(SendFault::Failed);
        }
        match self.peer.send(bytes) {
            Ok(()) => Ok(()),
            Err(SendFault::NoMemory) => Err(SendFault::NoMemory),
            Err(SendFault::Failed) => {
                self.fail();
                Err(SendFault::Failed)
            }
        }
    }

    fn receive(&mut self, into: &mut [u8]) -> Result<usize, Failed> {
        if !self.hold.may_receive() {
            self.fail();
            return Err(Failed);
        }
        match self.peer.receive(into) {
            Ok(count) => Ok(count),
            Err(Failed) => {
                self.fail();
                Err(Failed)
            }
        }
    }
}
