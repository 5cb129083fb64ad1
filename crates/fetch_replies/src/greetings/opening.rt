//! The lines of a greeting of version 2, and those of a listing.

ghost use Rattle.std.specs.Prelude.{◌≡◌, [], IfOk};
ghost use Rattle.fetch_replies.specs.Advertisements.{is_version_1};
ghost use Rattle.fetch_replies.specs.Awaited.{at_greeting, at_capability, at_listed};
ghost use Rattle.fetch_lines.specs.Greetings.{handshake_of};
ghost use Rattle.fetch_replies.specs.ReadSteps.{step_in, by_saying};
ghost use Rattle.fetch_replies.specs.Stepping.{ends, breaks};
ghost use Rattle.fetch_replies.specs.declared.replies.reply.ParsedReply.TheVariants as told;

use crate::greetings::advertisement::first_reference;
use crate::listing::{PartialListing, add_text};
use crate::replies::parser::{Parsed, ReplyParser};
use crate::replies::reply::ParsedReply;
use crate::replies::saying::Saying;
use fetch_base::{Kind, List, NoMemory};
use fetch_lines::{Capability, Handshake, Version, hash_of, known_capability, says_version_2};
use std::alloc::Global;

#[tactic(auto, unfolding(crate::specs::Advertisements::is_version_1))]
fn says_version_1(text: &[u8]) -> bool
    ensures { result ≡ is_version_1 text.now }
{
    text == b"version 1".as_slice()
}

/// Reads the first text of a greeting.
fn read_opening(alloc: Global, text: &[u8]) -> Result<Parsed, NoMemory>
    ensures { IfOk result (λ read. step_in read ≡ at_greeting text.now) }
{
    if says_version_2(text) {
        return Ok(Parsed::On(ReplyParser::Capabilities(List::new(alloc))));
    }
    if says_version_1(text) {
        return Ok(Parsed::On(ReplyParser::Version));
    }
    first_reference(alloc, text)
}

/// Reads the first line of a greeting.
pub(crate) fn read_greeting(alloc: Global, saying: Saying<'_>) -> Result<Parsed, NoMemory>
    ensures { IfOk result (λ read. step_in read ≡ by_saying breaks breaks at_greeting saying.entry) }
{
    match saying {
        Saying::Text(text) => read_opening(alloc, text),
        Saying::Error(text) => Parsed::said(alloc, text),
        Saying::Flush | Saying::Delim | Saying::End => Ok(Parsed::Broken),
    }
}

/// What these capabilities make.
fn handshake(capabilities: List<Capability>) -> Handshake
    ensures { result ≡ handshake_of capabilities }
{
    let object_hash = hash_of(capabilities.as_slice());
    Handshake {
        version: Version::V2,
        capabilities,
        object_hash,
    }
}

/// Adds the capability that a text tells.
fn add_capability(alloc: Global, before: List<Capability>, text: &[u8]) -> Result<Parsed, NoMemory>
    ensures { IfOk result (λ read. step_in read ≡ at_capability before text.now) }
{
    let mut capabilities = before;
    match known_capability(alloc, text)? {
        Some(capability) => {
            capabilities.push(capability)?;
            Ok(Parsed::On(ReplyParser::Capabilities(capabilities)))
        }
        None => Ok(Parsed::Broken),
    }
}

/// Reads a line after `version 2`.
pub(crate) fn read_capability(
    alloc: Global,
    before: List<Capability>,
    saying: Saying<'_>,
) -> Result<Parsed, NoMemory>
    ensures { IfOk result (λ read. step_in read
        ≡ by_saying (ends (told.Greeting (handshake_of before))) breaks (at_capability before) saying.entry) }
{
    match saying {
        Saying::Text(text) => add_capability(alloc, before, text),
        Saying::Error(text) => Parsed::said(alloc, text),
        Saying::Flush => Ok(Parsed::Whole(ParsedReply::Greeting(handshake(before)))),
        Saying::Delim | Saying::End => Ok(Parsed::Broken),
    }
}

/// Adds the reference that a text lists.
fn add_listed(
    alloc: Global,
    kind: Kind,
    before: PartialListing,
    text: &[u8],
) -> Result<Parsed, NoMemory>
    ensures { IfOk result (λ read. step_in read ≡ at_listed kind before text.now) }
{
    let mut listed = before;
    if add_text(alloc, kind, &mut listed, text)? {
        Ok(Parsed::On(ReplyParser::Listing(kind, listed)))
    } else {
        Ok(Parsed::Broken)
    }
}

/// Reads a line of a listing.
pub(crate) fn read_listed(
    alloc: Global,
    kind: Kind,
    before: PartialListing,
    saying: Saying<'_>,
) -> Result<Parsed, NoMemory>
    ensures { IfOk result (λ read. step_in read ≡ by_saying (ends (told.Listing before)) breaks (at_listed kind before) saying.entry) }
{
    match saying {
        Saying::Text(text) => add_listed(alloc, kind, before, text),
        Saying::Error(text) => Parsed::said(alloc, text),
        Saying::Flush => Ok(Parsed::Whole(ParsedReply::Listing(List::from(before.into_refs())))),
        Saying::Delim | Saying::End => Ok(Parsed::Broken),
    }
}
