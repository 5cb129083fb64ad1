//! A peer over a reader and a writer.

ghost use Rattle.std.specs.Prelude.{◌≡◌, ◌<◌, ◌≤◌, [], ◌∷◌, length, IfOk, OnOk, OnErr, IsErrOf, None, Some, IsSome, false};
ghost use Rattle.fetch_base.specs.Faults.{Rose, Counts, counted};
ghost use Rattle.fetch_lines.specs.Talks.{Makes, Receives, Sends, at_once};
ghost use Rattle.fetch_host.specs.Streams.{more_by};

use fetch_store::Failed;
use fetch_wire::{Peer, SendFault};
use std::io::{self, ErrorKind, Read, Write};
use std::marker::Model;

/// A peer that gives what a reader reads, and hands what it hears to a writer: the two ends of a socket, or of two pipes. It
/// keeps the kind of the last error, and counts its faults and the bytes that passed.
///
/// What is read or written again after a signal is no fault. The end of what can be read is one, of the kind
/// `UnexpectedEof`: a fetch receives only where a reply is due. Contracts are told nothing of the bytes that passed.
// Not copied: it owns its caller's streams.
#[derive(Drop)]
pub struct StreamPeer<R, W> {
    reader: R,
    writer: W,
    sent: u64,
    received: u64,
    failed: u64,
    last_fault: Option<ErrorKind>,
}

impl<R, W> Model for StreamPeer<R, W> {
    ghost use Rattle.fetch_host.specs.Streams.{Stream};

    ghost Value = { Stream R W };

    ghost view = { λ p. record {
      reader = p.reader;
      writer = p.writer;
      sent = p.sent;
      received = p.received;
      failed = p.failed;
      last_fault = p.last_fault;
    } };
}

impl<R: Read, W: Write> StreamPeer<R, W> {
    /// A peer that gives what this reader reads, and hands what it hears to this writer. No byte has passed yet.
    pub fn new(reader: R, writer: W) -> StreamPeer<R, W>
        ensures faults { ⟦<StreamPeer<R, W> as Peer>⟧.faults result ≡ counted 0 }
        ensures counts { (result.sent ≡ 0) × (result.received ≡ 0) }
        ensures last_fault { result.last_fault ≡ None }
        ensures ends { (result.reader ≡ reader) × (result.writer ≡ writer) }
    {
        StreamPeer {
            reader,
            writer,
            sent: 0,
            received: 0,
            failed: 0,
            last_fault: None,
        }
    }

    /// How many bytes were sent to the peer, in sends that were done. The count stands still at its type's end.
    pub fn sent(&self) -> u64
        ensures { result ≡ self.now.sent }
    {
        self.sent
    }

    /// How many bytes were received from the peer. The count stands still at its type's end.
    pub fn received(&self) -> u64
        ensures { result ≡ self.now.received }
    {
        self.received
    }

    /// How often it failed. The count stands still at its type's end.
    pub fn faults(&self) -> u64
        ensures { counted result ≡ ⟦<StreamPeer<R, W> as Peer>⟧.faults self.now }
    {
        self.failed
    }

    /// The kind of the last error, if there was one.
    pub fn last_fault(&self) -> Option<ErrorKind>
        ensures { result ≡ self.now.last_fault }
    {
        self.last_fault
    }

    /// Reader and writer, to be closed or looked at.
    pub fn into_parts(self) -> (R, W)
        ensures { (result.0 ≡ self.reader) × (result.1 ≡ self.writer) }
    {
        (self.reader, self.writer)
    }

    /// Counts a fault of this kind, and keeps the kind.
    fn fail(&mut self, kind: ErrorKind) -> Failed
        ensures rose { Rose (counted self.old.failed) (counted self.new.failed) }
        ensures counts { Counts (counted self.old.failed) (counted self.new.failed) }
        ensures kept { self.new.last_fault ≡ Some kind }
        ensures passed { (self.new.sent ≡ self.old.sent) × (self.new.received ≡ self.old.received) }
    {
        self.failed = self.failed.saturating_add(1);
        self.last_fault = Some(kind);
        Failed
    }
}

/// Writes all of the bytes, and hands on what the writer holds back.
fn write_through<W: Write>(writer: &mut W, bytes: &[u8]) -> io::Result<()> {
    writer.write_all(bytes)?;
    writer.flush()
}

/// Reads once, and again where a signal came between.
fn read_through<R: Read>(reader: &mut R, into: &mut [u8]) -> io::Result<usize>
    ensures bound { IfOk result (λ count. count ≤ length into.new) }
{
    'reads: for _ in 0..u64::MAX {
        match reader.read(into) {
            Err(e) if e.kind() == ErrorKind::Interrupted => {}
            answer => return answer,
        }
    }
    Err(io::Error::from(ErrorKind::Interrupted))
}

impl<R: Read, W: Write> Peer for StreamPeer<R, W> {
    ghost told = { λ _. None };

    ghost faults = { λ p. counted p.failed };

    ghost answers = { false };

    /// Writes the bytes, and flushes the writer, so that all of them are on their way.
    fn send(&mut self, bytes: &[u8]) -> Result<(), SendFault>
        ensures talk { Sends false None None result bytes.now }
        ensures receives { Makes None None [] }
        ensures counts { Counts (counted self.old.failed) (counted self.new.failed) }
        ensures cause { IsErrOf result SendFault.Failed → Rose (counted self.old.failed) (counted self.new.failed) }
        ensures kept { IsErrOf result SendFault.Failed → IsSome self.new.last_fault }
        ensures quiet { ¬ IsErrOf result SendFault.Failed
            → (self.new.failed ≡ self.old.failed) × (self.new.last_fault ≡ self.old.last_fault) }
        ensures sent { OnOk result (self.new.sent ≡ more_by self.old.sent (length bytes.now)) }
        ensures unsent { OnErr result (self.new.sent ≡ self.old.sent) }
        ensures received { self.new.received ≡ self.old.received }
    {
        match write_through(&mut self.writer, bytes) {
            Ok(()) => {
                self.sent = self.sent.saturating_add(bytes.len() as u64);
                Ok(())
            }
            Err(e) if e.kind() == ErrorKind::OutOfMemory => Err(SendFault::NoMemory),
            Err(e) => {
                self.fail(e.kind());
                Err(SendFault::Failed)
            }
        }
    }

    /// Reads once. It answers 0 only where `into` is empty.
    fn receive(&mut self, into: &mut [u8]) -> Result<usize, Failed>
        ensures bound { IfOk result (λ count. count ≤ length into.new) }
        ensures talk { Receives None None result into.new }
        ensures receives { Makes None None (at_once ∷ []) }
        ensures counts { Counts (counted self.old.failed) (counted self.new.failed) }
        ensures cause { OnErr result (Rose (counted self.old.failed) (counted self.new.failed)) }
        ensures kept { OnErr result (IsSome self.new.last_fault) }
        ensures quiet { OnOk result ((self.new.failed ≡ self.old.failed) × (self.new.last_fault ≡ self.old.last_fault)) }
        ensures never_ends { IfOk result (λ count. 0 < length into.new → 0 < count) }
        ensures received { IfOk result (λ count. self.new.received ≡ more_by self.old.received count) }
        ensures unreceived { OnErr result (self.new.received ≡ self.old.received) }
        ensures sent { self.new.sent ≡ self.old.sent }
    {
        match read_through(&mut self.reader, into) {
            Ok(0) if !into.is_empty() => Err(self.fail(ErrorKind::UnexpectedEof)),
            Ok(count) => {
                self.received = self.received.saturating_add(count as u64);
                Ok(count)
            }
            Err(e) => Err(self.fail(e.kind())),
        }
    }
}
