//! One reply, read while its bytes come in pieces.

ghost use Rattle.std.specs.Prelude.{◌≡◌};
ghost use Rattle.fetch_replies.specs.ReplyReadings.{first_found};

use crate::replies::reply::{ParsedReply, ReplyError, ReplyKind};
use crate::replies::reply_buffer::{FoundReply, ReplyBuffer};
use fetch_base::{NoMemory, TryClone};
use fetch_lines::{ReplyBound, WireError};
use std::alloc::Global;
use std::marker::Model;
use std::mem;

/// A reader of one reply, whose bytes are fed in pieces. It reads as soon as a line is whole. Contracts see what all
/// that was fed tells, with any bytes after it.
pub struct ReplyReader {
    intake: ReplyBuffer,
    found: FoundReply,
}

impl Model for ReplyReader {
    ghost use Rattle.std.specs.Prelude.{◌≡◌, true};
    ghost use Rattle.fetch_replies.specs.ReplyReadings.{ReplyReading, is_kept};

    ghost Value = { ReplyReading };

    ghost view = { λ r. record { intake = r.intake; found = r.found } };

    ghost invariant = { λ r. is_kept r.intake r.found ≡ true };
}

impl ReplyReader {
    ghost use Rattle.std.specs.Prelude.{◌≡◌, ◌++◌, [], List, ℕ, Some, None, Ok, Err, IfOk, OnOk, OnErr, IfErr, IsErr};
    ghost use Rattle.std.specs.Option.{option_copied};
    ghost use Rattle.fetch_replies.specs.Awaited.{told_at};
    ghost use Rattle.fetch_replies.specs.ReplyReadings.{tells, is_lost, whole_in, refusal_in};
    ghost use Rattle.fetch_replies.specs.declared.replies.reply.ReplyError.TheVariants as faults;
    ghost use Rattle.fetch_replies.specs.declared.replies.reply.ParsedReply.{ParsedReply};
    ghost use Rattle.fetch_lines.specs.declared.error.WireError.TheVariants as errors;

    /// A reader of the reply that is awaited, to which nothing was fed yet.
    pub fn new(alloc: Global, bound: ReplyBound, awaited: ReplyKind) -> ReplyReader
        ensures { (more : List ℕ) → tells result more ≡ Some (told_at bound awaited more) }
    {
        ReplyReader {
            intake: ReplyBuffer::new(alloc, bound, awaited),
            found: FoundReply::Nothing,
        }
    }

    /// An equal reader, which goes on apart from this one.
    pub fn try_clone(&self) -> Result<ReplyReader, NoMemory>
        ensures { IfOk result (λ copy. copy ≡ self.now) }
    {
        Ok(ReplyReader {
            intake: self.intake.try_clone()?,
            found: self.found.try_clone()?,
        })
    }

    /// Whether nothing is known of the reply, since memory ran out.
    fn is_lost(&self) -> bool
        ensures { result ≡ is_lost self.now }
    {
        match &self.found {
            FoundReply::Nothing => !self.intake.is_awaiting(),
            FoundReply::Whole(_) | FoundReply::Refused(_) => false,
        }
    }

    /// Takes the next bytes, and reads on as far as lines are whole. Out of memory is the only error: nothing is known
    /// of the reply then, and each later call answers it again.
    pub fn feed(&mut self, piece: &[u8]) -> Result<(), WireError>
        ensures fed { OnOk result ((more : List ℕ) → tells self.new more ≡ tells self.old (piece.now ++ more)) }
        ensures lost { OnErr result ((more : List ℕ) → tells self.new more ≡ None) }
        ensures again { tells self.old [] ≡ None → IsErr result }
        ensures memory { IfErr result (λ e. e ≡ errors.NoMemory) }
    {
        if self.is_lost() {
            return Err(WireError::NoMemory);
        }
        let before = mem::replace(&mut self.found, FoundReply::Nothing);
        let found = self.intake.feed(piece)?;
        self.found = first_found(before, found);
        Ok(())
    }

    /// What the reply tells, once it is whole.
    pub fn told(&self) -> Option<&ParsedReply>
        ensures { option_copied result ≡ whole_in (tells self.now []) }
    {
        match &self.found {
            FoundReply::Whole(told) => Some(told),
            FoundReply::Nothing | FoundReply::Refused(_) => None,
        }
    }

    /// Why the reply can't become whole, however its bytes go on. The first trouble decides.
    pub fn refusal(&self) -> Option<&ReplyError>
        ensures { option_copied result ≡ refusal_in (tells self.now []) }
    {
        match &self.found {
            FoundReply::Refused(fault) => Some(fault),
            FoundReply::Nothing | FoundReply::Whole(_) => None,
        }
    }

    /// Where more bytes are needed, the place of the line that isn't whole yet. The reply is short there if it ends.
    pub fn place(&self) -> usize
        ensures { (place : ℕ) → tells self.now [] ≡ Some (Err (faults.Short place)) → result ≡ place }
    {
        self.intake.place()
    }

    /// The bytes after the reply, once it is whole. They belong to the next one.
    pub fn rest(&self) -> &[u8]
        ensures { (told : ParsedReply) (rest : List ℕ) → tells self.now [] ≡ Some (Ok (told, rest)) → result.now ≡ rest }
    {
        self.intake.pending()
    }
}

/// What was found first.
fn first_found(before: FoundReply, now: FoundReply) -> FoundReply
    ensures { result ≡ first_found before now }
{
    match before {
        FoundReply::Nothing => now,
        FoundReply::Whole(told) => FoundReply::Whole(told),
        FoundReply::Refused(fault) => FoundReply::Refused(fault),
    }
}

impl Drop for ReplyReader {
    fn drop(self) {
        let ReplyReader {
            intake: _,
            found: _,
        } = self;
    }
}
