//! A maker of peers over streams.

ghost use Rattle.std.specs.Prelude.{◌≡◌, None, Some};
ghost use Rattle.fetch_base.specs.Faults.{counted};
ghost use Rattle.fetch_host.specs.Streams.{IsCounted};

use crate::stream_peer::StreamPeer;
use fetch_remote::connect::Connect;
use fetch_wire::SendFault;
use std::io::{self, ErrorKind, Read, Write};
use std::marker::Model;

/// One who opens connections.
pub trait Dial {
    /// What is read from a server.
    type Reader: Read + Drop;

    /// What is written to it.
    type Writer: Write + Drop;

    /// Opens the two ends of a connection to this address.
    fn dial(&mut self, address: &[u8]) -> io::Result<(Self::Reader, Self::Writer)>;
}

/// A maker of peers over the connections that `Dial` opens. It keeps the kind of the last error: of opening one, or of a peer
/// that was taken back. A peer that is taken back is dropped, and its ends with it. Contracts are told how many peers are out
/// and how many were lost, and nothing of the peers.
// Not copied: it owns its caller's way to connect.
#[derive(Drop)]
pub struct StreamConnect<D> {
    dial: D,
    /// How many peers were made and aren't taken back yet.
    out: u64,
    /// How many were taken back and had failed.
    lost: u64,
    failed: u64,
    last_fault: Option<ErrorKind>,
}

impl<D> Model for StreamConnect<D> {
    ghost use Rattle.fetch_host.specs.Streams.{Making};

    ghost Value = { Making D };

    ghost view = { λ m. record { dial = m.dial; out = m.out; lost = m.lost; failed = m.failed; last_fault = m.last_fault } };
}

impl<D: Dial> StreamConnect<D> {
    /// A maker over what this one opens, that has made no peer.
    pub fn new(dial: D) -> StreamConnect<D>
        ensures { result ≡ record { dial = dial; out = 0; lost = 0; failed = 0; last_fault = None } }
    {
        StreamConnect {
            dial,
            out: 0,
            lost: 0,
            failed: 0,
            last_fault: None,
        }
    }

    /// The kind of the last error, if there was one.
    pub fn last_fault(&self) -> Option<ErrorKind>
        ensures { result ≡ self.now.last_fault }
    {
        self.last_fault
    }

    /// Keeps the kind of an error, and counts it, unless memory ran out.
    fn refuse(&mut self, kind: ErrorKind) -> SendFault
        ensures counted { IsCounted self.old.failed self.new.failed result }
        ensures kept { self.new.last_fault ≡ Some kind }
        ensures rest { (self.new.out ≡ self.old.out) × (self.new.lost ≡ self.old.lost) }
    {
        self.last_fault = Some(kind);
        if kind == ErrorKind::OutOfMemory {
            return SendFault::NoMemory;
        }
        self.failed = self.failed.saturating_add(1);
        SendFault::Failed
    }
}

impl<D: Dial> Connect for StreamConnect<D> {
    type Peer = StreamPeer<D::Reader, D::Writer>;

    ghost faults = { λ m. counted m.failed };

    ghost out = { λ m. m.out };

    ghost lost = { λ m. counted m.lost };

    ghost left = { λ _. None };

    ghost taken = { λ _. None };

    ghost addresses = { λ _. None };

    /// Opens a connection to the address. It fails where that does, and where no more peers can be counted.
    fn make(&mut self, address: &[u8]) -> Result<StreamPeer<D::Reader, D::Writer>, SendFault> {
        let Some(out) = self.out.checked_add(1) else {
            return Err(self.refuse(ErrorKind::Other));
        };
        match self.dial.dial(address) {
            Ok((reader, writer)) => {
                self.out = out;
                Ok(StreamPeer::new(reader, writer))
            }
            Err(e) => Err(self.refuse(e.kind())),
        }
    }

    /// Drops the peer, and keeps why it failed last.
    fn take_back(&mut self, peer: StreamPeer<D::Reader, D::Writer>) {
        self.out -= 1;
        if peer.faults() > 0 {
            self.lost = self.lost.saturating_add(1);
            self.last_fault = peer.last_fault();
        }
    }
}

/// A maker that is lent, so that it can be asked for its last error after a clone.
impl<D: Dial> Connect for &mut StreamConnect<D> {
    type Peer = StreamPeer<D::Reader, D::Writer>;

    ghost faults = { λ m. counted m.now.failed };

    ghost out = { λ m. m.now.out };

    ghost lost = { λ m. counted m.now.lost };

    ghost left = { λ _. None };

    ghost taken = { λ _. None };

    ghost addresses = { λ _. None };

    fn make(&mut self, address: &[u8]) -> Result<StreamPeer<D::Reader, D::Writer>, SendFault> {
        Connect::make(&mut **self, address)
    }

    fn take_back(&mut self, peer: StreamPeer<D::Reader, D::Writer>) {
        Connect::take_back(&mut **self, peer)
    }
}
