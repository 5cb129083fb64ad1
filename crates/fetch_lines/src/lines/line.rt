//! The lines of a conversation.

ghost use Rattle.std.specs.Prelude.{◌≡◌, IfOk};
ghost use Rattle.fetch_lines.specs.LineViews.{line_of};

use fetch_base::{NoMemory, Text};
use std::alloc::Global;

/// A pkt-line whose payload is lent.
#[derive(Clone, Copy, Debug, PartialEq, Eq)]
pub enum LineRef<'a> {
    /// The bytes after the four digits.
    Payload(&'a [u8]),
    /// The end of a reply or a request.
    Flush,
    /// What divides the parts of a reply or a request.
    Delim,
    /// The end of a response, which no reply has here.
    End,
}

impl LineRef<'_> {
    /// The line, its payload copied.
    pub fn to_line(self, alloc: Global) -> Result<Line, NoMemory>
        ensures { IfOk result (λ line. line ≡ line_of self.entry) }
    {
        match self {
            LineRef::Payload(payload) => Ok(Line::Payload(Text::new(alloc, payload)?)),
            LineRef::Flush => Ok(Line::Flush),
            LineRef::Delim => Ok(Line::Delim),
            LineRef::End => Ok(Line::End),
        }
    }
}

/// A pkt-line.
#[derive(Debug, Drop, PartialEq, Eq)]
pub enum Line {
    /// The bytes after the four digits.
    Payload(Text),
    /// `0000`: the end of a reply or a request.
    Flush,
    /// `0001`: what divides the parts of a reply or a request.
    Delim,
    /// `0002`: the end of a response, which no reply has here.
    End,
}

impl Line {
    /// The line, its payload lent.
    pub fn as_ref(&self) -> LineRef<'_>
        ensures { line_of result ≡ self.now }
    {
        match self {
            Line::Payload(payload) => LineRef::Payload(payload.as_bytes()),
            Line::Flush => LineRef::Flush,
            Line::Delim => LineRef::Delim,
            Line::End => LineRef::End,
        }
    }

    /// An equal line.
    pub fn try_clone(&self) -> Result<Line, NoMemory>
        ensures { IfOk result (λ copy. copy ≡ self.now) }
    {
        match self {
            Line::Payload(payload) => Ok(Line::Payload(payload.try_clone()?)),
            Line::Flush => Ok(Line::Flush),
            Line::Delim => Ok(Line::Delim),
            Line::End => Ok(Line::End),
        }
    }
}
