//! A source and a sink in memory.

ghost use Rattle.std.specs.Prelude.{◌≡◌, ◌≤◌, ◌<◌, ◌+◌, ◌↔◌, ℕ, [], min, nat_lt, length, Some, drop, IfSome, IfOk, OnOk, OnErr, IsErr};
ghost use Rattle.std.specs.Prelude.{IsErrOf, Contains};
ghost use Rattle.std.specs.Io.KnownBytes.{ReadConsumes};
ghost use Rattle.fetch_base.specs.Calls.{one_more, faults_of};
ghost use Rattle.fetch_base.specs.Faults.{Faults, Rose, Counts};
ghost use Rattle.fetch_cli.specs.Io.{Takes};

use crate::program::io::{Sink, Source};
use fetch_store::{Calls, Failed, Text, copy_from};
use fetch_wire::SendFault;
use std::alloc::Global;
use std::marker::Model;

/// Bytes in memory. The calls whose numbers are listed fail, counted from 0.
// Not copied: a source is read once.
#[derive(Debug, Drop)]
pub struct MemorySource {
    bytes: Text,
    position: usize,
    calls: Calls,
    failed: u64,
}

impl Model for MemorySource {
    ghost use Rattle.std.specs.Prelude.{◌≤◌, length, drop};
    ghost use Rattle.fetch_cli.specs.Memory.{SourceValue};

    ghost Value = { SourceValue };

    ghost view = { λ s. record { left = drop s.position s.bytes; calls = s.calls; failed = s.failed } };

    ghost invariant = { λ s. s.position ≤ length s.bytes };
}

impl MemorySource {
    /// A source of these bytes, whose calls with these numbers fail.
    pub fn new(bytes: Text, failing: Vec<u64>) -> MemorySource
        ensures left { ⟦<MemorySource as Source>⟧.left result ≡ Some bytes }
        ensures faults { ⟦<MemorySource as Source>⟧.faults result ≡ record { count = 0; possible = nat_lt 0 (length failing.items) } }
        ensures failing { (n : ℕ) → Contains result.calls.listed n ↔ Contains failing.items n }
        ensures first { result.calls.next ≡ 0 }
    {
        MemorySource {
            bytes,
            position: 0,
            calls: Calls::new(failing),
            failed: 0,
        }
    }
}

impl Source for MemorySource {
    ghost left = { λ s. Some s.left };

    ghost faults = { λ s. faults_of s.calls s.failed };

    /// Gives what fits, or fails where this call is listed.
    fn read(&mut self, into: &mut [u8]) -> Result<usize, Failed>
        ensures bound { IfOk result (λ count. count ≤ length into.new) }
        ensures bytes { ReadConsumes (Some self.old.left) (Some self.new.left) result into.new }
        ensures counts { Counts (faults_of self.old.calls self.old.failed) (faults_of self.new.calls self.new.failed) }
        ensures cause { OnErr result (Rose (faults_of self.old.calls self.old.failed) (faults_of self.new.calls self.new.failed)) }
        ensures quiet { OnOk result ((faults_of self.new.calls self.new.failed).count ≡ (faults_of self.old.calls self.old.failed).count) }
        ensures fits { IfOk result (λ count. count ≡ min (length into.new) (length self.old.left)) }
        ensures failed { OnErr result (self.new.failed ≡ one_more self.old.failed) }
        ensures fails { IsErr result ↔ Contains self.old.calls.listed self.old.calls.next }
        ensures next { self.new.calls.next ≡ one_more self.old.calls.next }
        ensures listed { self.new.calls.listed ≡ self.old.calls.listed }
    {
        if self.calls.count() {
            self.failed = self.failed.saturating_add(1);
            return Err(Failed);
        }
        let count = copy_from(self.bytes.as_bytes(), self.position, into);
        self.position += count;
        Ok(count)
    }
}

/// A sink that keeps what it takes. The calls whose numbers are listed fail, counted from 0.
// Not copied: a sink has what one program wrote.
#[derive(Debug, Drop)]
pub struct MemorySink {
    bytes: Vec<u8>,
    calls: Calls,
    failed: u64,
}

impl Model for MemorySink {
    ghost use Rattle.fetch_cli.specs.Memory.{SinkValue};

    ghost Value = { SinkValue };

    ghost view = { λ s. record { taken = s.bytes.items; calls = s.calls; failed = s.failed } };
}

impl MemorySink {
    /// A sink that has taken nothing, whose calls with these numbers fail.
    pub fn new(alloc: Global, failing: Vec<u64>) -> MemorySink
        ensures taken { ⟦<MemorySink as Sink>⟧.taken result ≡ Some [] }
        ensures faults { ⟦<MemorySink as Sink>⟧.faults result ≡ record { count = 0; possible = nat_lt 0 (length failing.items) } }
        ensures failing { (n : ℕ) → Contains result.calls.listed n ↔ Contains failing.items n }
        ensures first { result.calls.next ≡ 0 }
    {
        MemorySink {
            bytes: Vec::new(alloc),
            calls: Calls::new(failing),
            failed: 0,
        }
    }

    /// What was taken so far.
    pub fn bytes(&self) -> &[u8]
        ensures { self.now.taken ≡ result.now }
    {
        &self.bytes
    }
}

impl Sink for MemorySink {
    ghost taken = { λ s. Some s.taken };

    ghost faults = { λ s. faults_of s.calls s.failed };

    /// Takes all bytes, or fails where this call is listed.
    fn write_all(&mut self, bytes: &[u8]) -> Result<(), SendFault>
        ensures bytes { Takes (Some self.old.taken) (Some self.new.taken) result bytes.now }
        ensures counts { Counts (faults_of self.old.calls self.old.failed) (faults_of self.new.calls self.new.failed) }
        ensures cause { IsErrOf result SendFault.Failed
            → Rose (faults_of self.old.calls self.old.failed) (faults_of self.new.calls self.new.failed) }
        ensures quiet { ¬ IsErrOf result SendFault.Failed
            → (faults_of self.new.calls self.new.failed).count ≡ (faults_of self.old.calls self.old.failed).count }
        ensures failed { IsErrOf result SendFault.Failed → self.new.failed ≡ one_more self.old.failed }
        ensures fails { IsErrOf result SendFault.Failed ↔ Contains self.old.calls.listed self.old.calls.next }
        ensures next { self.new.calls.next ≡ one_more self.old.calls.next }
        ensures listed { self.new.calls.listed ≡ self.old.calls.listed }
    {
        if self.calls.count() {
            self.failed = self.failed.saturating_add(1);
            return Err(SendFault::Failed);
        }
        match self.bytes.extend_from_slice(bytes) {
            Ok(()) => Ok(()),
            Err(_) => Err(SendFault::NoMemory),
        }
    }
}
