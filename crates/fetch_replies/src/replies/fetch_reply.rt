//! The lines of a reply to a fetch request.

ghost use Rattle.std.specs.Prelude.{◌≡◌, Some, IfOk, false};
ghost use Rattle.std.specs.Option.{option_copied};
ghost use Rattle.fetch_replies.specs.FetchReplies.{is_acknowledgments, is_nak, is_ready, acknowledged_in, shallow_in, unshallow_in};
ghost use Rattle.fetch_replies.specs.FetchReplies.{at_beginning, at_rest, at_packfile, at_acknowledgment, behind_ready, at_change};
ghost use Rattle.fetch_replies.specs.FetchReplies.{with_bytes};
ghost use Rattle.fetch_replies.specs.FetchReplies.{by_band, at_band, reply_step, is_packfile, is_shallow_info};
ghost use Rattle.fetch_lines.specs.KnownIds.{each_once};
ghost use Rattle.fetch_lines.specs.LineViews.{line_of};
ghost use Rattle.fetch_replies.specs.ReadSteps.{step_in, by_saying, at_text};
ghost use Rattle.fetch_replies.specs.Stepping.{ends, breaks, goes};
ghost use Rattle.fetch_replies.specs.declared.replies.reply.ParsedReply.TheVariants as told;
ghost use Rattle.fetch_replies.specs.declared.replies.parser.Part.TheVariants as parts;
ghost use Rattle.fetch_replies.specs.declared.replies.parser.ReplyParser.TheVariants as reading;

use crate::replies::haves::each_once;
use crate::replies::parser::{Parsed, Part, ReplyParser};
use crate::replies::reply::{ParsedReply, ReplyContext};
use crate::replies::saying::{Saying, said_by};
use fetch_base::{Kind, List, NoMemory, ObjectId, Text, after};
use fetch_lines::{FetchReply, LineRef};
use std::alloc::Global;

#[tactic(auto, unfolding(crate::specs::FetchReplies::is_acknowledgments))]
fn says_acknowledgments(text: &[u8]) -> bool
    ensures { result ≡ is_acknowledgments text.now }
{
    text == b"acknowledgments".as_slice()
}

#[tactic(auto, unfolding(crate::specs::FetchReplies::is_nak))]
fn says_nak(text: &[u8]) -> bool
    ensures { result ≡ is_nak text.now }
{
    text == b"NAK".as_slice()
}

#[tactic(auto, unfolding(crate::specs::FetchReplies::is_ready))]
fn says_ready(text: &[u8]) -> bool
    ensures { result ≡ is_ready text.now }
{
    text == b"ready".as_slice()
}

#[tactic(auto, unfolding(crate::specs::FetchReplies::is_packfile))]
fn says_packfile(text: &[u8]) -> bool
    ensures { result ≡ is_packfile text.now }
{
    text == b"packfile".as_slice()
}

#[tactic(auto, unfolding(crate::specs::FetchReplies::is_shallow_info))]
fn says_shallow_info(text: &[u8]) -> bool
    ensures { result ≡ is_shallow_info text.now }
{
    text == b"shallow-info".as_slice()
}

/// The have that `ACK <id>` acknowledges.
#[tactic(auto, unfolding(crate::specs::FetchReplies::acknowledged_in))]
fn acknowledged(asked: &ReplyContext, text: &[u8]) -> Option<ObjectId>
    ensures { result ≡ acknowledged_in asked.now text.now }
{
    let hex = after(b"ACK ", text)?;
    let id = ObjectId::in_hex(asked.kind, hex)?;
    if asked.haves.contains(&id) {
        Some(id)
    } else {
        None
    }
}

/// The id of `shallow <id>`.
#[tactic(auto, unfolding(crate::specs::FetchReplies::shallow_in))]
pub(crate) fn shallow(kind: Kind, text: &[u8]) -> Option<ObjectId>
    ensures { result ≡ shallow_in kind text.now }
{
    match after(b"shallow ", text) {
        Some(hex) => ObjectId::in_hex(kind, hex),
        None => None,
    }
}

/// The id of `unshallow <id>`.
#[tactic(auto, unfolding(crate::specs::FetchReplies::unshallow_in))]
fn unshallow(kind: Kind, text: &[u8]) -> Option<ObjectId>
    ensures { result ≡ unshallow_in kind text.now }
{
    match after(b"unshallow ", text) {
        Some(hex) => ObjectId::in_hex(kind, hex),
        None => None,
    }
}

/// Reads `packfile`.
fn packfile(alloc: Global, asked: ReplyContext, reply: FetchReply, text: &[u8]) -> Parsed
    ensures { step_in result ≡ at_packfile asked reply text.now }
{
    if !says_packfile(text) {
        return Parsed::Broken;
    }
    if !asked.read_pack {
        return Parsed::Whole(ParsedReply::Reply(reply));
    }
    let mut reply = reply;
    reply.pack = Some(Text::from(Vec::new(alloc)));
    Parsed::On(ReplyParser::Reply(asked, Part::Bands, reply))
}

/// Reads `shallow-info` or `packfile`.
fn rest(alloc: Global, asked: ReplyContext, reply: FetchReply, text: &[u8]) -> Parsed
    ensures { step_in result ≡ at_rest asked reply text.now }
{
    if says_shallow_info(text) {
        return Parsed::On(ReplyParser::Reply(asked, Part::ShallowInfo, reply));
    }
    packfile(alloc, asked, reply, text)
}

/// Reads the first text.
fn beginning(alloc: Global, asked: ReplyContext, reply: FetchReply, text: &[u8]) -> Parsed
    ensures { step_in result ≡ at_beginning asked reply text.now }
{
    if asked.done {
        return rest(alloc, asked, reply, text);
    }
    if says_acknowledgments(text) {
        return Parsed::On(ReplyParser::Reply(asked, Part::Acknowledgments, reply));
    }
    Parsed::Broken
}

/// The reply with each acknowledged id once.
fn told_once(reply: FetchReply) -> Result<FetchReply, NoMemory>
    ensures { IfOk result (λ told. told ≡ record reply { acknowledged = each_once reply.acknowledged }) }
{
    let mut reply = reply;
    let once = each_once(
        reply.acknowledged.allocator(),
        reply.acknowledged.as_slice(),
    )?;
    reply.acknowledged = List::from(once);
    Ok(reply)
}

/// Reads `NAK`, `ready`, or `ACK <id>`.
fn acknowledgment(asked: ReplyContext, reply: FetchReply, text: &[u8]) -> Result<Parsed, NoMemory>
    ensures { IfOk result (λ read. step_in read ≡ at_acknowledgment asked reply text.now) }
{
    if says_nak(text) {
        return Ok(Parsed::On(ReplyParser::Reply(asked, Part::Acknowledgments, reply)));
    }
    if says_ready(text) {
        return Ok(Parsed::On(ReplyParser::Reply(asked, Part::Ready, reply)));
    }
    let mut reply = reply;
    match acknowledged(&asked, text) {
        Some(id) => {
            reply.acknowledged.push(id)?;
            Ok(Parsed::On(ReplyParser::Reply(asked, Part::Acknowledgments, reply)))
        }
        None => Ok(Parsed::Broken),
    }
}

/// Reads a change of the border.
fn change(asked: ReplyContext, reply: FetchReply, text: &[u8]) -> Result<Parsed, NoMemory>
    ensures { IfOk result (λ read. step_in read
        ≡ at_change asked reply (shallow_in asked.kind text.now) (unshallow_in asked.kind text.now)) }
{
    let mut reply = reply;
    match (shallow(asked.kind, text), unshallow(asked.kind, text)) {
        (Some(id), _) => reply.shallow.push(id)?,
        (None, Some(id)) => reply.unshallow.push(id)?,
        (None, None) => return Ok(Parsed::Broken),
    }
    Ok(Parsed::On(ReplyParser::Reply(asked, Part::ShallowInfo, reply)))
}

/// The pack with more bytes after it.
fn with_bytes(alloc: Global, pack: Option<Text>, bytes: &[u8]) -> Result<Text, NoMemory>
    ensures { IfOk result (λ text. Some text ≡ with_bytes pack bytes.now) }
{
    match pack {
        Some(pack) => {
            let mut pack = pack.into_bytes();
            pack.extend_from_slice(bytes)?;
            Ok(Text::from(pack))
        }
        None => Text::new(alloc, bytes),
    }
}

/// Reads a band of the pack or of progress, or why the server fails.
fn band(
    alloc: Global,
    asked: ReplyContext,
    reply: FetchReply,
    band: u8,
    bytes: &[u8],
) -> Result<Parsed, NoMemory>
    ensures { IfOk result (λ read. step_in read ≡ by_band asked reply band bytes.now) }
{
    let mut reply = reply;
    match band {
        1 => reply.pack = Some(with_bytes(alloc, reply.pack, bytes)?),
        2 => reply.progress.push(Text::new(alloc, bytes)?)?,
        3 => {
            let text = Text::new(alloc, bytes)?;
            return Ok(Parsed::SaidBehind(text, reply.progress));
        }
        _ => return Ok(Parsed::BrokenBehind(reply.progress)),
    }
    Ok(Parsed::On(ReplyParser::Reply(asked, Part::Bands, reply)))
}

/// Reads a line of the pack.
fn read_band(
    alloc: Global,
    asked: ReplyContext,
    reply: FetchReply,
    line: LineRef<'_>,
) -> Result<Parsed, NoMemory>
    ensures { IfOk result (λ read. step_in read ≡ at_band asked reply (line_of line.entry)) }
{
    match line {
        LineRef::Payload([first, bytes @ ..]) => band(alloc, asked, reply, *first, bytes),
        LineRef::Flush => Ok(Parsed::Whole(ParsedReply::Reply(reply))),
        LineRef::Payload([]) | LineRef::Delim | LineRef::End => {
            Ok(Parsed::BrokenBehind(reply.progress))
        }
    }
}

/// Reads a line after `acknowledgments`.
fn read_acknowledgment(
    alloc: Global,
    asked: ReplyContext,
    reply: FetchReply,
    saying: Saying<'_>,
) -> Result<Parsed, NoMemory>
    ensures { IfOk result (λ read. step_in read
        ≡ by_saying (ends (told.Reply (record reply { acknowledged = each_once reply.acknowledged; last = false }))) breaks
        (at_acknowledgment asked reply) saying.entry) }
{
    match saying {
        Saying::Text(text) => acknowledgment(asked, reply, text),
        Saying::Error(text) => Parsed::said(alloc, text),
        Saying::Flush => {
            let mut reply = told_once(reply)?;
            reply.last = false;
            Ok(Parsed::Whole(ParsedReply::Reply(reply)))
        }
        Saying::Delim | Saying::End => Ok(Parsed::Broken),
    }
}

/// Reads a line after `shallow-info`.
fn read_change(
    alloc: Global,
    asked: ReplyContext,
    reply: FetchReply,
    saying: Saying<'_>,
) -> Result<Parsed, NoMemory>
    ensures { IfOk result (λ read. step_in read ≡ by_saying breaks (goes (reading.Reply asked parts.Packfile reply))
        (λ text. at_change asked reply (shallow_in asked.kind text) (unshallow_in asked.kind text)) saying.entry) }
{
    match saying {
        Saying::Text(text) => change(asked, reply, text),
        Saying::Error(text) => Parsed::said(alloc, text),
        Saying::Delim => Ok(Parsed::On(ReplyParser::Reply(asked, Part::Packfile, reply))),
        Saying::Flush | Saying::End => Ok(Parsed::Broken),
    }
}

/// Reads the line after `ready`.
fn read_ready(asked: ReplyContext, reply: FetchReply, line: LineRef<'_>) -> Result<Parsed, NoMemory>
    ensures { IfOk result (λ read. step_in read ≡ behind_ready asked reply (line_of line.entry)) }
{
    match line {
        LineRef::Delim => {
            let reply = told_once(reply)?;
            Ok(Parsed::On(ReplyParser::Reply(asked, Part::Rest, reply)))
        }
        LineRef::Payload(_) | LineRef::Flush | LineRef::End => Ok(Parsed::Broken),
    }
}

/// Reads a line where only a text may stand.
fn read_text(
    alloc: Global,
    asked: ReplyContext,
    part: Part,
    reply: FetchReply,
    saying: Saying<'_>,
) -> Result<Parsed, NoMemory>
    ensures { IfOk result (λ read. step_in read ≡ by_saying breaks breaks (at_text asked part reply) saying.entry) }
{
    match saying {
        Saying::Text(text) => Ok(match part {
            Part::Beginning => beginning(alloc, asked, reply, text),
            Part::Rest => rest(alloc, asked, reply, text),
            Part::Packfile => packfile(alloc, asked, reply, text),
            Part::Acknowledgments | Part::Ready | Part::ShallowInfo | Part::Bands => Parsed::Broken,
        }),
        Saying::Error(text) => Parsed::said(alloc, text),
        Saying::Flush | Saying::Delim | Saying::End => Ok(Parsed::Broken),
    }
}

/// Reads the next line.
pub(crate) fn read_reply(
    alloc: Global,
    asked: ReplyContext,
    part: Part,
    reply: FetchReply,
    line: LineRef<'_>,
) -> Result<Parsed, NoMemory>
    ensures { IfOk result (λ read. step_in read ≡ reply_step asked part reply (line_of line.entry)) }
{
    match part {
        Part::Acknowledgments => read_acknowledgment(alloc, asked, reply, said_by(line)),
        Part::Ready => read_ready(asked, reply, line),
        Part::ShallowInfo => read_change(alloc, asked, reply, said_by(line)),
        Part::Bands => read_band(alloc, asked, reply, line),
        Part::Beginning | Part::Rest | Part::Packfile => {
            read_text(alloc, asked, part, reply, said_by(line))
        }
    }
}
