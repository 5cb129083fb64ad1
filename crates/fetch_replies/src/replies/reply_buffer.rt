//! What a peer sent and wasn't read yet, and the reply that is awaited of it.

ghost use Rattle.std.specs.Prelude.{◌≡◌, IfSome};
ghost use Rattle.std.specs.Option.{option_copied};

use crate::replies::parser::ReplyParser;
use crate::replies::progress::{ReplyProgress, read_on};
use crate::replies::reply::{ParsedReply, ReplyError, ReplyKind};
use fetch_base::{List, NoMemory, Text, TryClone};
use fetch_lines::{LineReader, ReplyBound, WireError};
use std::alloc::Global;
use std::marker::Model;

/// What was found of the reply that is awaited.
#[derive(Drop)]
pub enum FoundReply {
    /// It goes on, or none is awaited.
    Nothing,
    /// It is whole, and told this.
    Whole(ParsedReply),
    /// It can't become whole.
    Refused(ReplyError),
}

impl TryClone for FoundReply {
    fn try_clone(&self) -> Result<FoundReply, NoMemory> {
        match self {
            FoundReply::Nothing => Ok(FoundReply::Nothing),
            FoundReply::Whole(told) => Ok(FoundReply::Whole(told.try_clone()?)),
            FoundReply::Refused(fault) => Ok(FoundReply::Refused(fault.try_clone()?)),
        }
    }
}

/// What a peer sent and wasn't read yet, and what the reply that is awaited told so far.
pub struct ReplyBuffer {
    lines: LineReader,
    reading: Option<ReplyParser>,
    /// The texts of progress of a pack that was refused, or is awaited no more.
    progress: Option<List<Text>>,
}

impl Model for ReplyBuffer {
    ghost use Rattle.std.specs.Prelude.{◌≡◌, true};
    ghost use Rattle.fetch_replies.specs.Intakes as spec;

    ghost Value = { spec.ReplyBuffer };

    ghost view = { λ i. record { bound = i.lines.bound; place = i.lines.place; pending = i.lines.pending; reading = i.reading } };

    ghost invariant = { λ i. spec.is_read i.lines.bound i.lines.place i.lines.pending i.reading ≡ true };
}

impl ReplyBuffer {
    ghost use Rattle.std.specs.Prelude.{◌≡◌, [], true, Some, None, Err, IfOk, IfErr, IfSome, OnErr, is_some};
    ghost use Rattle.std.specs.Option.{option_and_then};
    ghost use Rattle.fetch_replies.specs.Intakes as spec;
    ghost use Rattle.fetch_replies.specs.Awaited.{start_of, progress_in};
    ghost use Rattle.fetch_replies.specs.declared.replies.reply.ReplyError.TheVariants as faults;
    ghost use Rattle.fetch_lines.specs.declared.error.WireError.TheVariants as errors;

    /// Nothing was fed yet, and this reply is awaited.
    pub fn new(alloc: Global, bound: ReplyBound, awaited: ReplyKind) -> ReplyBuffer
        ensures { result ≡ record { bound = bound; place = 0; pending = []; reading = Some (start_of awaited) } }
    {
        ReplyBuffer {
            lines: LineReader::new(alloc, bound),
            reading: Some(ReplyParser::start(alloc, awaited)),
            progress: None,
        }
    }

    /// Whether a reply is awaited.
    pub fn is_awaiting(&self) -> bool
        ensures awaiting { result ≡ is_some self.now.reading }
        ensures short { result ≡ true → spec.told_with self.now [] ≡ Some (Err (faults.Short self.now.place)) }
    {
        self.reading.is_some()
    }

    /// How many bytes a reply may have.
    pub fn bound(&self) -> ReplyBound
        ensures { result ≡ self.now.bound }
    {
        self.lines.bound()
    }

    /// How many bytes the lines that were read of the awaited reply have: it is short there.
    pub fn place(&self) -> usize
        ensures place { result ≡ self.now.place }
        ensures short { is_some self.now.reading ≡ true → spec.told_with self.now [] ≡ Some (Err (faults.Short self.now.place)) }
    {
        self.lines.place()
    }

    /// The bytes that were fed and not yet read.
    pub(crate) fn pending(&self) -> &[u8]
        ensures { result.now ≡ self.now.pending }
    {
        self.lines.pending()
    }

    /// The texts of progress of the reply that is awaited, as far as it was read, or of one that was refused.
    pub fn progress(&self) -> &[Text]
        ensures { IfSome (option_and_then progress_in self.now.reading) (λ texts. result.now ≡ texts) }
    {
        if let Some(reading) = &self.reading {
            return texts_of(reading.progress());
        }
        match &self.progress {
            Some(progress) => progress.as_slice(),
            None => &[],
        }
    }

    /// Forgets what wasn't read but for texts of progress, and awaits nothing.
    pub fn clear(&mut self)
        ensures { self.new ≡ spec.resting [] self.old }
    {
        if let Some(reading) = self.reading.take() {
            self.progress = reading.into_progress();
        }
        self.lines.clear();
    }

    /// What wasn't read, and nothing awaited.
    pub fn copy_resting(&self) -> Result<ReplyBuffer, WireError>
        ensures copied { IfOk result (λ copy. copy ≡ spec.resting self.now.pending self.now) }
        ensures memory { IfErr result (λ e. e ≡ errors.NoMemory) }
    {
        let mut lines = LineReader::new(self.lines.allocator(), self.lines.bound());
        lines.feed(self.lines.pending())?;
        Ok(ReplyBuffer {
            lines,
            reading: None,
            progress: None,
        })
    }

    /// An equal buffer.
    pub fn try_clone(&self) -> Result<ReplyBuffer, NoMemory>
        ensures { IfOk result (λ copy. copy ≡ self.now) }
    {
        Ok(ReplyBuffer {
            lines: self.lines.try_clone()?,
            reading: self.reading.try_clone()?,
            progress: self.progress.try_clone()?,
        })
    }

    /// Reads on from what was told so far.
    fn read(&mut self, reading: ReplyParser) -> Result<FoundReply, NoMemory>
        requires { self.old.reading ≡ None }
        ensures read { IfOk result (λ found. spec.ReadsOn (record self.old { reading = Some reading }) self.new found) }
        ensures bound { self.new.bound ≡ self.old.bound }
        ensures lost { OnErr result (self.new.reading ≡ None) }
    {
        let alloc = self.lines.allocator();
        match read_on(alloc, &mut self.lines, reading)? {
            ReplyProgress::On(reading) => {
                self.reading = Some(reading);
                Ok(FoundReply::Nothing)
            }
            ReplyProgress::Whole(told) => {
                self.lines.next_reply();
                Ok(FoundReply::Whole(told))
            }
            ReplyProgress::Refused(fault, progress) => {
                self.lines.clear();
                self.progress = progress;
                Ok(FoundReply::Refused(fault))
            }
        }
    }

    /// Takes the next bytes, and reads on where a reply is awaited. Where memory runs out, none is awaited any more.
    pub fn feed(&mut self, piece: &[u8]) -> Result<FoundReply, WireError>
        ensures read { IfOk result (λ found. spec.ReadsOn (spec.taking piece.now self.old) self.new found) }
        ensures bound { self.new.bound ≡ self.old.bound }
        ensures lost { OnErr result (self.new.reading ≡ None) }
        ensures memory { IfErr result (λ e. e ≡ errors.NoMemory) }
    {
        let reading = self.reading.take();
        self.lines.feed(piece)?;
        match reading {
            Some(reading) => Ok(self.read(reading)?),
            None => Ok(FoundReply::Nothing),
        }
    }

    /// Awaits a reply, and reads it as far as its bytes are there. Where memory runs out, none is awaited any more.
    pub fn start(&mut self, awaited: ReplyKind) -> Result<FoundReply, NoMemory>
        ensures read { IfOk result (λ found. spec.ReadsOn (spec.awaiting awaited self.old) self.new found) }
        ensures bound { self.new.bound ≡ self.old.bound }
        ensures lost { OnErr result (self.new.reading ≡ None) }
    {
        let alloc = self.lines.allocator();
        self.reading = None;
        self.progress = None;
        self.lines.next_reply();
        self.read(ReplyParser::start(alloc, awaited))
    }
}

/// These texts, or none.
fn texts_of(texts: Option<&[Text]>) -> &[Text]
    ensures { IfSome (option_copied texts.entry) (λ all. result.now ≡ all) }
{
    match texts {
        Some(texts) => texts,
        None => &[],
    }
}

impl Drop for ReplyBuffer {
    fn drop(self) {
        let ReplyBuffer {
            lines: _,
            reading: _,
            progress: _,
        } = self;
    }
}
