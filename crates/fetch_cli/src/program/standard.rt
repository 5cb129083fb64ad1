//! The real ends: they count their faults, and tell of the bytes what the reader and the writer tell.

ghost use Rattle.std.specs.Prelude.{◌≡◌, true};
ghost use Rattle.fetch_base.specs.Faults.{Faults};
ghost use Rattle.fetch_cli.specs.Io.{Takes};

use crate::program::io::{Sink, Source};
use fetch_store::Failed;
use fetch_wire::SendFault;
use std::io::{Read, Write};

/// A source over a reader, as standard input is.
// Not copied: it owns its caller's reader.
#[derive(Drop)]
pub struct StdSource<R> {
    reader: R,
    faults: u64,
}

impl<R: Read> StdSource<R> {
    /// A source of what the reader gives.
    pub fn new(reader: R) -> StdSource<R>
        ensures left { ⟦<StdSource<R> as Source>⟧.left result ≡ R.remaining reader }
        ensures faults { ⟦<StdSource<R> as Source>⟧.faults result ≡ record { count = 0; possible = true } }
    {
        StdSource { reader, faults: 0 }
    }
}

impl<R: Read> Source for StdSource<R> {
    ghost left = { λ s. R.remaining s.reader };

    ghost faults = { λ s. record { count = s.faults; possible = true } };

    fn read(&mut self, into: &mut [u8]) -> Result<usize, Failed> {
        match self.reader.read(into) {
            Ok(count) => Ok(count),
            Err(_) => {
                self.faults = self.faults.saturating_add(1);
                Err(Failed)
            }
        }
    }
}

/// A sink over a writer, as standard output is.
// Not copied: it owns its caller's writer.
#[derive(Drop)]
pub struct StdSink<W> {
    writer: W,
    faults: u64,
}

impl<W: Write> StdSink<W> {
    /// A sink that hands all to the writer.
    pub fn new(writer: W) -> StdSink<W>
        ensures taken { ⟦<StdSink<W> as Sink>⟧.taken result ≡ W.contents writer }
        ensures faults { ⟦<StdSink<W> as Sink>⟧.faults result ≡ record { count = 0; possible = true } }
    {
        StdSink { writer, faults: 0 }
    }
}

impl<W: Write> Sink for StdSink<W> {
    ghost taken = { λ s. W.contents s.writer };

    ghost faults = { λ s. record { count = s.faults; possible = true } };

    fn write_all(&mut self, bytes: &[u8]) -> Result<(), SendFault> {
        match write_each(&mut self.writer, bytes) {
            Ok(()) => Ok(()),
            Err(Failed) => {
                self.faults = self.faults.saturating_add(1);
                Err(SendFault::Failed)
            }
        }
    }
}

/// Hands the bytes to the writer, piece by piece as it takes them. At a refusal it took a prefix.
fn write_each<W: Write>(writer: &mut W, bytes: &[u8]) -> Result<(), Failed>
    ensures { Takes (W.contents writer.old) (W.contents writer.new) result bytes.now }
{
    let mut rest = bytes;
    while !rest.is_empty() {
        match writer.write(rest) {
            Ok(count) if count > 0 => rest = &rest[count..],
            _ => return Err(Failed),
        }
    }
    Ok(())
}
