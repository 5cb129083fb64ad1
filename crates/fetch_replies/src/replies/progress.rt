//! How far a reply was read, and reading on as far as its lines are there.

ghost use Rattle.std.specs.Prelude.{◌≡◌, IfOk};
ghost use Rattle.fetch_replies.specs.Progressing.{Goes};
ghost use Rattle.fetch_replies.specs.Stepping.{fault_of};

use crate::replies::parser::{Parsed, ReplyParser};
use crate::replies::reply::{ParsedReply, ReplyError};
use fetch_base::{List, NoMemory, Text};
use fetch_lines::{LineError, LineReader, Need};
use std::alloc::Global;

/// How far a reply was read.
#[derive(Drop)]
pub(crate) enum ReplyProgress {
    /// As far as its lines are there. This much was told.
    On(ReplyParser),
    /// To its end.
    Whole(ParsedReply),
    /// It can't become whole, however the bytes go on. In a pack the server told these texts of its progress before.
    Refused(ReplyError, Option<List<Text>>),
}

/// Why a line can't be read is why the reply can't.
fn fault(trouble: LineError) -> ReplyError
    ensures { result ≡ fault_of trouble }
{
    match trouble {
        LineError::Short { place } => ReplyError::Short { place },
        LineError::Broken { place } => ReplyError::Broken { place },
        LineError::TooLong => ReplyError::TooLong,
    }
}

/// Reads on, line by line. What isn't a whole line stays in the reader.
pub(crate) fn read_on(
    alloc: Global,
    lines: &mut LineReader,
    reading: ReplyParser,
) -> Result<ReplyProgress, NoMemory>
    ensures read { IfOk result (λ progress. Goes lines.old reading lines.new progress) }
    ensures bound { lines.new.bound ≡ lines.old.bound }
{
    let mut reading = reading;
    'lines: loop {
        let place = lines.place();
        let read = match lines.next_line() {
            Ok(Need::Line(line)) => reading.line(alloc, line)?,
            Ok(Need::More) => return Ok(ReplyProgress::On(reading)),
            Err(trouble) => {
                return Ok(ReplyProgress::Refused(fault(trouble), reading.into_progress()));
            }
        };
        match read {
            Parsed::On(next) => reading = next,
            Parsed::Whole(told) => return Ok(ReplyProgress::Whole(told)),
            Parsed::Broken => return Ok(ReplyProgress::Refused(ReplyError::Broken { place }, None)),
            Parsed::Said(text) => return Ok(ReplyProgress::Refused(
                ReplyError::Said { text },
                None,
            )),
            Parsed::BrokenBehind(progress) => {
                return Ok(ReplyProgress::Refused(ReplyError::Broken { place }, Some(progress)));
            }
            Parsed::SaidBehind(text, progress) => {
                return Ok(ReplyProgress::Refused(ReplyError::Said { text }, Some(progress)));
            }
        }
    }
}
