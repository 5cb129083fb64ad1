//! A reply that is being read, line by line.

ghost use Rattle.std.specs.Prelude.{◌≡◌, IfOk};
ghost use Rattle.std.specs.Option.{option_copied};
ghost use Rattle.fetch_replies.specs.Awaited.{start_of, step_of, progress_in};
ghost use Rattle.fetch_lines.specs.LineViews.{line_of};
ghost use Rattle.fetch_replies.specs.ReadSteps.{step_in};
ghost use Rattle.fetch_replies.specs.Stepping.{says};

use crate::greetings::advertisement::{read_advertised, read_first};
use crate::greetings::opening::{read_capability, read_greeting, read_listed};
use crate::listing::PartialListing;
use crate::replies::fetch_reply::read_reply;
use crate::replies::reply::{ParsedReply, ReplyContext, ReplyKind};
use crate::replies::saying::said_by;
use fetch_base::{Kind, List, NoMemory, Text, TryClone};
use fetch_lines::{Capability, FetchReply, Handshake, LineRef};
use std::alloc::Global;

/// What may come next in an advertisement of version 1.
#[derive(Clone, Copy, Debug, PartialEq, Eq)]
pub(crate) enum Advertised {
    /// A reference, or what the reference before peels to.
    Reference,
    /// A reference.
    Peeled,
    /// No reference: only commits of the server's border.
    Shallow,
}

/// What may come next in the reply to a fetch request.
#[derive(Clone, Copy, Debug, PartialEq, Eq)]
pub(crate) enum Part {
    /// The reply begins.
    Beginning,
    /// An acknowledgment, `ready`, or the flush.
    Acknowledgments,
    /// The delimiter after `ready`.
    Ready,
    /// `shallow-info` or `packfile`.
    Rest,
    /// A change of the border, or the delimiter after them.
    ShallowInfo,
    /// `packfile`.
    Packfile,
    /// A band of the pack, or the flush.
    Bands,
}

/// A reply that is being read: what was told so far, and by that what may come next.
pub(crate) enum ReplyParser {
    /// Nothing of a greeting.
    Greeting,
    /// `version 2`, and these capabilities.
    Capabilities(List<Capability>),
    /// `version 1`.
    Version,
    /// Version 1, these references, and what may come next.
    Advertisement(Handshake, PartialListing, Advertised),
    /// These references, with ids of this kind.
    Listing(Kind, PartialListing),
    /// This much of a reply to a fetch request, and what may come next.
    Reply(ReplyContext, Part, FetchReply),
}

/// What a line does to a parser.
#[derive(Drop)]
pub(crate) enum Parsed {
    /// ReplyParser goes on.
    On(ReplyParser),
    /// The reply is whole.
    Whole(ParsedReply),
    /// The line breaks the grammar.
    Broken,
    /// The server says that it fails, with this text.
    Said(Text),
    /// The line breaks the grammar, and the server told these texts of its progress before it.
    BrokenBehind(List<Text>),
    /// The server says that it fails, with this text, and told these texts of its progress before.
    SaidBehind(Text, List<Text>),
}

impl Parsed {
    /// The server says that it fails.
    pub(crate) fn said(alloc: Global, text: &[u8]) -> Result<Parsed, NoMemory>
        ensures { IfOk result (λ read. step_in read ≡ says text.now) }
    {
        Ok(Parsed::Said(Text::new(alloc, text)?))
    }
}

impl ReplyParser {
    /// The parser of a reply of which no line was read.
    pub(crate) fn start(alloc: Global, awaited: ReplyKind) -> ReplyParser
        ensures { result ≡ start_of awaited }
    {
        match awaited {
            ReplyKind::Greeting => ReplyParser::Greeting,
            ReplyKind::Listing(kind) => ReplyParser::Listing(kind, PartialListing::new(alloc)),
            ReplyKind::Reply(asked) => ReplyParser::Reply(
                asked,
                Part::Beginning,
                FetchReply::new(alloc),
            ),
        }
    }

    /// An equal parser.
    pub(crate) fn try_clone(&self) -> Result<ReplyParser, NoMemory>
        ensures { IfOk result (λ copy. copy ≡ self.now) }
    {
        match self {
            ReplyParser::Greeting => Ok(ReplyParser::Greeting),
            ReplyParser::Capabilities(found) => Ok(ReplyParser::Capabilities(found.try_clone()?)),
            ReplyParser::Version => Ok(ReplyParser::Version),
            ReplyParser::Advertisement(handshake, listed, allowed) => Ok(ReplyParser::Advertisement(
                handshake.try_clone()?,
                listed.try_clone()?,
                *allowed,
            )),
            ReplyParser::Listing(kind, listed) => Ok(ReplyParser::Listing(
                *kind,
                listed.try_clone()?,
            )),
            ReplyParser::Reply(asked, part, reply) => Ok(ReplyParser::Reply(
                asked.try_clone()?,
                *part,
                reply.try_clone()?,
            )),
        }
    }

    /// The texts of the server's progress that were told so far.
    pub(crate) fn progress(&self) -> Option<&[Text]>
        ensures { option_copied result ≡ progress_in self.now }
    {
        match self {
            ReplyParser::Reply(_, _, reply) => Some(reply.progress.as_slice()),
            ReplyParser::Greeting
            | ReplyParser::Capabilities(_)
            | ReplyParser::Version
            | ReplyParser::Advertisement(_, _, _)
            | ReplyParser::Listing(_, _) => None,
        }
    }

    /// Those texts alone.
    pub(crate) fn into_progress(self) -> Option<List<Text>>
        ensures { result ≡ progress_in self }
    {
        match self {
            ReplyParser::Reply(_, _, reply) => Some(reply.progress),
            ReplyParser::Greeting
            | ReplyParser::Capabilities(_)
            | ReplyParser::Version
            | ReplyParser::Advertisement(_, _, _)
            | ReplyParser::Listing(_, _) => None,
        }
    }

    /// Reads the next line.
    #[tactic(auto, unfolding(crate::specs::Awaited::step_of))]
    pub(crate) fn line(self, alloc: Global, line: LineRef<'_>) -> Result<Parsed, NoMemory>
        ensures { IfOk result (λ read. step_in read ≡ step_of self (line_of line.entry)) }
    {
        match self {
            ReplyParser::Greeting => read_greeting(alloc, said_by(line)),
            ReplyParser::Capabilities(before) => read_capability(alloc, before, said_by(line)),
            ReplyParser::Version => read_first(alloc, said_by(line)),
            ReplyParser::Advertisement(handshake, listed, allowed) => {
                read_advertised(alloc, handshake, listed, allowed, said_by(line))
            }
            ReplyParser::Listing(kind, listed) => read_listed(alloc, kind, listed, said_by(line)),
            ReplyParser::Reply(asked, part, reply) => read_reply(alloc, asked, part, reply, line),
        }
    }
}

impl TryClone for ReplyParser {
    fn try_clone(&self) -> Result<ReplyParser, NoMemory> {
        self.try_clone()
    }
}

impl Drop for ReplyParser {
    fn drop(self) {
        match self {
            ReplyParser::Greeting => {}
            ReplyParser::Capabilities(_) => {}
            ReplyParser::Version => {}
            ReplyParser::Advertisement(_, _, _) => {}
            ReplyParser::Listing(_, _) => {}
            ReplyParser::Reply(_, _, _) => {}
        }
    }
}
