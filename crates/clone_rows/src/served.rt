//! Peers that are made by a server of a repository.

use fetch_remote::connect::Connect;
use fetch_serve::{Server, ServerPeer};
use fetch_wire::SendFault;
use peer_rows::{CountedPeer, Free};

/// A server as a peer.
pub(crate) type ServedPeer<'a> = CountedPeer<ServerPeer<'a>, Free>;

/// A maker of peers, each with a server of its own of one repository, whatever the address.
#[derive(Drop)]
pub(crate) struct ServedConnect<'a> {
    server: Server<'a>,
    /// How many peers were made and aren't taken back yet.
    out: u64,
    /// How many were taken back and had failed.
    lost: u64,
}

impl<'a> ServedConnect<'a> {
    /// A maker that has made no peer.
    pub(crate) fn new(server: Server<'a>) -> ServedConnect<'a> {
        ServedConnect {
            server,
            out: 0,
            lost: 0,
        }
    }
}

impl<'a> Connect for ServedConnect<'a> {
    ghost use Rattle.std.specs.Prelude.{false, None};
    ghost use Rattle.fetch_base.specs.Faults.{counted};

    type Peer = ServedPeer<'a>;

    ghost faults = { λ _. record { count = 0; possible = false } };

    ghost out = { λ m. m.out };

    ghost lost = { λ m. counted m.lost };

    ghost left = { λ _. None };

    ghost taken = { λ _. None };

    ghost addresses = { λ _. None };

    fn make(&mut self, _address: &[u8]) -> Result<ServedPeer<'a>, SendFault> {
        let Some(out) = self.out.checked_add(1) else {
            return Err(SendFault::NoMemory);
        };
        self.out = out;
        Ok(CountedPeer::new(ServerPeer::new(self.server.fresh()), Free))
    }

    fn take_back(&mut self, peer: ServedPeer<'a>) {
        self.out -= 1;
        if peer.failed > 0 {
            self.lost = self.lost.saturating_add(1);
        }
    }
}
