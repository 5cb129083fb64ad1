//! Lines, read while their bytes come in pieces.

ghost use Rattle.std.specs.Prelude.{◌≡◌, ◌≤◌, [], OnOk, OnErr, IfOk, IfErr};
ghost use Rattle.fetch_lines.specs.declared.error.WireError.TheVariants as errors;
ghost use Rattle.fetch_lines.specs.Feeding.{next_in, next_told, fed, seen};
ghost use Rattle.fetch_lines.specs.FeedingLends.{RestsBehind};
ghost use Rattle.std.specs.Borrow.{sem};

use crate::error::WireError;
use crate::lines::bound::ReplyBound;
use crate::lines::line::LineRef;
use crate::lines::section::{LineError, line_in};
use fetch_base::NoMemory;
use std::alloc::Global;
use std::marker::Model;

/// What a reader gives.
#[derive(Clone, Copy, Debug, PartialEq, Eq)]
pub enum Need<'a> {
    /// The next line.
    Line(LineRef<'a>),
    /// More bytes: those that were fed and not yet read are the beginning of a line.
    More,
}

/// The lines of one reply, whose bytes are fed in pieces. Contracts see how many bytes the reply may have, how many the
/// lines that were read have, and the bytes that were fed and not yet read.
#[derive(Debug, Drop)]
pub struct LineReader {
    bytes: Vec<u8>,
    start: usize,
    place: usize,
    bound: ReplyBound,
}

impl Model for LineReader {
    ghost use Rattle.std.specs.Prelude.{◌≤◌, drop, vec_len};
    ghost use Rattle.fetch_lines.specs.Feeding.{Feeding};

    ghost Value = { Feeding };

    ghost view = { λ reader. record { bound = reader.bound; place = reader.place; pending = drop reader.start reader.bytes.items } };

    ghost invariant = { λ reader. (reader.start ≤ vec_len reader.bytes) × (reader.place ≤ reader.bound) };
}

impl LineReader {
    /// A reader to which nothing was fed yet.
    pub fn new(alloc: Global, bound: ReplyBound) -> LineReader
        ensures { result ≡ record { bound = bound; place = 0; pending = [] } }
    {
        LineReader {
            bytes: Vec::new(alloc),
            start: 0,
            place: 0,
            bound,
        }
    }

    /// The allocator that the reader was made with.
    pub fn allocator(&self) -> Global {
        *self.bytes.allocator()
    }

    /// How many bytes the reply may have.
    pub fn bound(&self) -> ReplyBound
        ensures { result ≡ self.now.bound }
    {
        self.bound
    }

    /// How many bytes the lines that were read have.
    pub fn place(&self) -> usize
        ensures place { result ≡ self.now.place }
        ensures within { result ≤ self.now.bound }
    {
        self.place
    }

    /// The bytes that were fed and not yet read.
    pub fn pending(&self) -> &[u8]
        ensures { result.now ≡ self.now.pending }
    {
        &self.bytes[self.start..]
    }

    /// An equal reader: what was read already isn't copied.
    pub fn try_clone(&self) -> Result<LineReader, NoMemory>
        ensures { IfOk result (λ copy. copy ≡ self.now) }
    {
        Ok(LineReader {
            bytes: Vec::from_slice(self.allocator(), self.pending())?,
            start: 0,
            place: self.place,
            bound: self.bound,
        })
    }

    /// Takes the next bytes. Out of memory is the only error, and leaves the reader as it was.
    pub fn feed(&mut self, piece: &[u8]) -> Result<(), WireError>
        ensures ok { OnOk result (self.new ≡ fed self.old piece.now) }
        ensures err { OnErr result (self.new ≡ self.old) }
        ensures memory { IfErr result (λ e. e ≡ errors.NoMemory) }
    {
        let _ = self.bytes.drain(..self.start);
        self.start = 0;
        self.bytes.extend_from_slice(piece)?;
        Ok(())
    }

    /// The next line, where all of it was fed. A line that breaks the grammar is `Malformed` at its place, and one whose
    /// digits pass the bound is `ReplyTooLong`, as soon as its digits show it, and by each later call too. Takes no memory.
    /// Of what the reader is afterwards a proof knows nothing here, since the error may own a text: `next_line` tells it.
    pub fn next(&mut self) -> Result<Need<'_>, WireError>
        ensures given { seen result ≡ next_told self.old }
    {
        let bound = self.bound;
        match self.next_line() {
            Ok(need) => Ok(need),
            Err(trouble) => Err(trouble.to_error(bound)),
        }
    }

    /// As `next`, with a refusal that owns nothing: the line is read once it was given, and what is refused stays.
    pub fn next_line(&mut self) -> Result<Need<'_>, LineError>
        ensures given { seen result ≡ next_in self.old }
        ensures* left { sem 𝓛 (RestsBehind self.entry) }
    {
        let (start, place) = (self.start, self.place);
        match line_in(self.bound.get() as usize, place, &self.bytes[start..]) {
            Ok((line, count)) => {
                self.start = start + count;
                self.place = place + count;
                Ok(Need::Line(line))
            }
            Err(LineError::Short { .. }) => Ok(Need::More),
            Err(trouble) => Err(trouble),
        }
    }

    /// Forgets what was fed and not yet read, and begins anew.
    pub fn clear(&mut self)
        ensures { self.new ≡ record self.old { place = 0; pending = [] } }
    {
        self.bytes.clear();
        self.start = 0;
        self.place = 0;
    }

    /// Begins the next reply: its place is 0, and it may have as many bytes as the one before.
    pub fn next_reply(&mut self)
        ensures { self.new ≡ record self.old { place = 0 } }
    {
        self.place = 0;
    }
}
