//! Replies that are awaited, what they tell, and why one is refused.

ghost use Rattle.std.specs.Prelude.{◌≡◌, IfOk};

use crate::replies::haves::Haves;
use fetch_base::{Kind, List, NoMemory, Text, TryClone};
use fetch_lines::{FetchReply, Handshake, Ref};

/// What the reply to a fetch request depends on.
#[derive(Debug, Drop)]
pub struct ReplyContext {
    /// The kind of the ids, which the greeting names.
    pub kind: Kind,
    /// The haves of the request. An `ACK` of another id is malformed.
    pub haves: Haves,
    /// Whether the request ends the rounds, so that the reply has no acknowledgments.
    pub done: bool,
    /// Whether the pack is read. Where it isn't, the reply ends with the line `packfile`.
    pub read_pack: bool,
}

impl ReplyContext {
    /// An equal value.
    pub fn try_clone(&self) -> Result<ReplyContext, NoMemory>
        ensures { IfOk result (λ copy. copy ≡ self.now) }
    {
        Ok(ReplyContext {
            kind: self.kind,
            haves: self.haves.try_clone()?,
            done: self.done,
            read_pack: self.read_pack,
        })
    }
}

/// A reply that is awaited.
#[derive(Debug, Drop)]
pub enum ReplyKind {
    /// What a server says first, in either version.
    Greeting,
    /// The references of a server whose ids have this kind.
    Listing(Kind),
    /// What a server answers to a fetch request.
    Reply(ReplyContext),
}

impl ReplyKind {
    /// An equal value.
    pub fn try_clone(&self) -> Result<ReplyKind, NoMemory>
        ensures { IfOk result (λ copy. copy ≡ self.now) }
    {
        match self {
            ReplyKind::Greeting => Ok(ReplyKind::Greeting),
            ReplyKind::Listing(kind) => Ok(ReplyKind::Listing(*kind)),
            ReplyKind::Reply(asked) => Ok(ReplyKind::Reply(asked.try_clone()?)),
        }
    }
}

/// What a whole reply tells.
#[derive(Debug, Drop)]
pub enum ParsedReply {
    /// The greeting of version 2.
    Greeting(Handshake),
    /// The greeting of version 1, which lists the references too.
    Advertisement(Handshake, List<Ref>),
    /// The references.
    Listing(List<Ref>),
    /// The answer to a fetch request.
    Reply(FetchReply),
}

impl ParsedReply {
    /// An equal value.
    pub fn try_clone(&self) -> Result<ParsedReply, NoMemory>
        ensures { IfOk result (λ copy. copy ≡ self.now) }
    {
        match self {
            ParsedReply::Greeting(handshake) => Ok(ParsedReply::Greeting(handshake.try_clone()?)),
            ParsedReply::Advertisement(handshake, refs) => Ok(ParsedReply::Advertisement(
                handshake.try_clone()?,
                refs.try_clone()?,
            )),
            ParsedReply::Listing(refs) => Ok(ParsedReply::Listing(refs.try_clone()?)),
            ParsedReply::Reply(reply) => Ok(ParsedReply::Reply(reply.try_clone()?)),
        }
    }
}

/// Why bytes don't begin with the reply that is awaited. Places count from the reply's first byte.
#[derive(Debug, Drop, PartialEq, Eq)]
pub enum ReplyError {
    /// The bytes end in the line that begins at this place, or before it. More bytes may make a reply of them.
    Short { place: usize },
    /// The line that begins at this place breaks the grammar.
    Broken { place: usize },
    /// The digits of a line announce more bytes than the reply may have.
    TooLong,
    /// The server says that it fails, with this text.
    Said { text: Text },
}

impl ReplyError {
    /// An equal value.
    pub fn try_clone(&self) -> Result<ReplyError, NoMemory>
        ensures { IfOk result (λ copy. copy ≡ self.now) }
    {
        match self {
            ReplyError::Short { place } => Ok(ReplyError::Short { place: *place }),
            ReplyError::Broken { place } => Ok(ReplyError::Broken { place: *place }),
            ReplyError::TooLong => Ok(ReplyError::TooLong),
            ReplyError::Said { text } => Ok(ReplyError::Said {
                text: text.try_clone()?,
            }),
        }
    }
}
