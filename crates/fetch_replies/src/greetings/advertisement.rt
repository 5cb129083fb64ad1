//! The lines of a greeting of version 1.

ghost use Rattle.std.specs.Prelude.{◌≡◌, ◌∷◌, ◌++◌, [], if◌then◌else◌, Some, None, IfOk, option_and_then};
ghost use Rattle.std.specs.Option.{option_copied, option_map};
ghost use Rattle.fetch_replies.specs.Advertisements.{with_word, with_words, handshake_1, is_symref, target_if, target_in, target_among};
ghost use Rattle.fetch_replies.specs.Advertisements.{id_and_name, before_peel, is_no_name, is_null, advertised, peeled_to, at_name};
ghost use Rattle.fetch_replies.specs.Advertisements.{at_reference, at_advertised, first_named, at_first};
ghost use Rattle.fetch_replies.specs.ReadSteps.{step_in, by_saying};
ghost use Rattle.fetch_replies.specs.Stepping.{ends, breaks, goes, or_breaks};
ghost use Rattle.fetch_lines.specs.Words.{words, words_in};
ghost use Rattle.fetch_replies.specs.declared.replies.reply.ParsedReply.TheVariants as told;
ghost use Rattle.fetch_replies.specs.declared.replies.parser.Advertised.TheVariants as allows;

use crate::listing::{PartialListing, make_ref};
use crate::replies::fetch_reply::shallow;
use crate::replies::parser::{Advertised, Parsed, ReplyParser};
use crate::replies::reply::ParsedReply;
use crate::replies::saying::Saying;
use fetch_base::{Kind, List, NoMemory, ObjectId, split_first};
use fetch_lines::{Capability, Handshake, Ref, Version, hash_of, known_capability, next_word};
use std::alloc::Global;

/// One capability more. An empty word is none.
fn with_word(
    alloc: Global,
    found: List<Capability>,
    word: &[u8],
) -> Result<Option<List<Capability>>, NoMemory>
    ensures { IfOk result (λ more. more ≡ with_word found word.now) }
{
    if word.is_empty() {
        return Ok(Some(found));
    }
    let mut found = found;
    match known_capability(alloc, word)? {
        Some(capability) => {
            found.push(capability)?;
            Ok(Some(found))
        }
        None => Ok(None),
    }
}

/// The capabilities of the words of a text.
fn capabilities(alloc: Global, text: &[u8]) -> Result<Option<List<Capability>>, NoMemory>
    ensures { IfOk result (λ found. found ≡ with_words [] (words text.now)) }
{
    let mut found = List::new(alloc);
    let mut rest = Some(text);
    'words: while let Some(text) = rest {
        let (word, behind) = next_word(text);
        match with_word(alloc, found, word)? {
            Some(more) => found = more,
            None => return Ok(None),
        }
        rest = behind;
    }
    Ok(Some(found))
}

/// What these capabilities make.
fn handshake(capabilities: List<Capability>) -> Handshake
    ensures { result ≡ handshake_1 capabilities }
{
    let object_hash = hash_of(capabilities.as_slice());
    Handshake {
        version: Version::V1,
        capabilities,
        object_hash,
    }
}

/// The target that a capability tells of a name.
#[tactic(auto, unfolding(crate::specs::Advertisements::target_in, crate::specs::Advertisements::is_symref))]
fn target_in<'a>(name: &[u8], capability: &'a Capability) -> Option<&'a [u8]>
    ensures { option_copied result ≡ target_in name.now capability.now }
{
    if capability.name.as_bytes() != b"symref".as_slice() {
        return None;
    }
    let (from, target) = split_first(b':', capability.value()?)?;
    if from == name && !target.is_empty() {
        Some(target)
    } else {
        None
    }
}

/// The last target that capabilities tell of a name.
fn target_among<'a>(name: &[u8], capabilities: &'a [Capability]) -> Option<&'a [u8]>
    ensures { option_copied result ≡ target_among name.now capabilities.now }
{
    let mut found = None;
    for capability in capabilities {
        if let Some(target) = target_in(name, capability) {
            found = Some(target);
        }
    }
    found
}

/// An id and a name, which a space divides.
fn id_and_name(kind: Kind, text: &[u8]) -> Option<(ObjectId, &[u8])>
    ensures { option_map (λ x. (x.0, x.1.now)) result ≡ id_and_name kind text.now }
{
    let (hex, name) = split_first(b' ', text)?;
    let id = ObjectId::in_hex(kind, hex)?;
    Some((id, name))
}

/// The name before `^{}`.
#[tactic(auto, unfolding(crate::specs::Advertisements::before_peel))]
fn before_peel(name: &[u8]) -> Option<&[u8]>
    ensures { option_copied result ≡ before_peel name.now }
{
    let end = name.len().saturating_sub(3);
    if &name[end..] == b"^{}".as_slice() {
        Some(&name[..end])
    } else {
        None
    }
}

#[tactic(auto, unfolding(crate::specs::Advertisements::is_no_name))]
fn is_no_name(name: &[u8]) -> bool
    ensures { result ≡ is_no_name name.now }
{
    name == b"capabilities^{}".as_slice()
}

#[tactic(auto, unfolding(crate::specs::Advertisements::is_null))]
fn is_null(id: &ObjectId) -> bool
    ensures { result ≡ is_null id.now }
{
    id.as_bytes().iter().all(|byte| *byte == 0)
}

/// Adds the reference with this name, and says whether it was added: the name isn't empty, and new.
fn add_named(
    alloc: Global,
    handshake: &Handshake,
    listed: &mut PartialListing,
    id: ObjectId,
    name: &[u8],
) -> Result<bool, NoMemory>
    ensures { IfOk result (λ is_new. (if is_new then Some listed.new else None)
        ≡ option_map (λ reference. listed.old ++ reference ∷ []) (advertised handshake.now listed.old id name.now)) }
{
    if name.is_empty() {
        return Ok(false);
    }
    let target = target_among(name, handshake.capabilities.as_slice());
    match make_ref(alloc, name, Some(id), (target, None))? {
        Some(reference) => listed.add(reference),
        None => Ok(false),
    }
}

/// The reference, whose tag peels to this id.
pub(crate) fn peeled_to(id: ObjectId, reference: Ref) -> Ref
    ensures { result ≡ peeled_to id reference }
{
    match reference {
        Ref::Direct {
            full_ref_name,
            object,
        } => Ref::Peeled {
            full_ref_name,
            tag: object,
            object: id,
        },
        Ref::Symbolic {
            full_ref_name,
            target,
            tag: _,
            object,
        } => Ref::Symbolic {
            full_ref_name,
            target,
            tag: Some(object),
            object: id,
        },
        Ref::Peeled {
            full_ref_name,
            tag,
            object,
        } => Ref::Peeled {
            full_ref_name,
            tag,
            object,
        },
        Ref::Unborn {
            full_ref_name,
            target,
        } => Ref::Unborn {
            full_ref_name,
            target,
        },
    }
}

/// Reads a line of a name, or of a name and `^{}`.
fn read_name(
    alloc: Global,
    handshake: Handshake,
    before: PartialListing,
    allowed: Advertised,
    id: ObjectId,
    name: &[u8],
) -> Result<Option<ReplyParser>, NoMemory>
    ensures { IfOk result (λ found. found ≡ at_name handshake before allowed id name.now (before_peel name.now)) }
{
    let mut listed = before;
    match (allowed, before_peel(name)) {
        (Advertised::Shallow, _) | (Advertised::Peeled, Some(_)) => Ok(None),
        (Advertised::Reference, Some(short)) => {
            if listed.peel_last(id, short) {
                Ok(Some(ReplyParser::Advertisement(handshake, listed, Advertised::Peeled)))
            } else {
                Ok(None)
            }
        }
        (Advertised::Reference | Advertised::Peeled, None) => {
            if add_named(alloc, &handshake, &mut listed, id, name)? {
                Ok(Some(ReplyParser::Advertisement(handshake, listed, Advertised::Reference)))
            } else {
                Ok(None)
            }
        }
    }
}

/// Goes on with a reading, where there is one.
fn read_if(found: Option<ReplyParser>) -> Parsed
    ensures { step_in result ≡ or_breaks found (λ s. goes s) }
{
    match found {
        Some(reading) => Parsed::On(reading),
        None => Parsed::Broken,
    }
}

/// Reads a text after the first reference.
fn read_reference(
    alloc: Global,
    handshake: Handshake,
    before: PartialListing,
    allowed: Advertised,
    text: &[u8],
) -> Result<Parsed, NoMemory>
    ensures { IfOk result (λ read. step_in read ≡ at_advertised handshake before allowed text.now) }
{
    let kind = handshake.object_hash;
    if shallow(kind, text).is_some() {
        return Ok(Parsed::On(ReplyParser::Advertisement(handshake, before, Advertised::Shallow)));
    }
    match id_and_name(kind, text) {
        Some((id, name)) => Ok(read_if(read_name(alloc, handshake, before, allowed, id, name)?)),
        None => Ok(Parsed::Broken),
    }
}

/// Reads a line after the first reference.
pub(crate) fn read_advertised(
    alloc: Global,
    handshake: Handshake,
    before: PartialListing,
    allowed: Advertised,
    saying: Saying<'_>,
) -> Result<Parsed, NoMemory>
    ensures { IfOk result (λ read. step_in read
        ≡ by_saying (ends (told.Advertisement handshake before)) breaks (at_advertised handshake before allowed) saying.entry) }
{
    match saying {
        Saying::Text(text) => read_reference(alloc, handshake, before, allowed, text),
        Saying::Error(text) => Parsed::said(alloc, text),
        Saying::Flush => Ok(Parsed::Whole(ParsedReply::Advertisement(
            handshake,
            List::from(before.into_refs()),
        ))),
        Saying::Delim | Saying::End => Ok(Parsed::Broken),
    }
}

/// Reads the first reference, or the name that stands where there is none.
fn first_named(
    alloc: Global,
    handshake: Handshake,
    id: ObjectId,
    name: &[u8],
) -> Result<Option<ReplyParser>, NoMemory>
    ensures { IfOk result (λ found. found ≡ first_named handshake (id, name.now)) }
{
    let listed = PartialListing::new(alloc);
    if !is_no_name(name) {
        return read_name(alloc, handshake, listed, Advertised::Peeled, id, name);
    }
    if is_null(&id) {
        Ok(Some(ReplyParser::Advertisement(handshake, listed, Advertised::Shallow)))
    } else {
        Ok(None)
    }
}

/// Reads the text of the first reference, with the capabilities.
pub(crate) fn first_reference(alloc: Global, text: &[u8]) -> Result<Parsed, NoMemory>
    ensures { IfOk result (λ read. step_in read ≡ or_breaks (at_first text.now) (λ s. goes s)) }
{
    let Some((reference, words)) = split_first(0, text) else {
        return Ok(Parsed::Broken);
    };
    let Some(capabilities) = capabilities(alloc, words)? else {
        return Ok(Parsed::Broken);
    };
    let handshake = handshake(capabilities);
    match id_and_name(handshake.object_hash, reference) {
        Some((id, name)) => Ok(read_if(first_named(alloc, handshake, id, name)?)),
        None => Ok(Parsed::Broken),
    }
}

/// Reads the line after `version 1`.
pub(crate) fn read_first(alloc: Global, saying: Saying<'_>) -> Result<Parsed, NoMemory>
    ensures { IfOk result (λ read. step_in read ≡ by_saying breaks breaks (λ text. or_breaks (at_first text) (λ s. goes s)) saying.entry) }
{
    match saying {
        Saying::Text(text) => first_reference(alloc, text),
        Saying::Error(text) => Parsed::said(alloc, text),
        Saying::Flush | Saying::Delim | Saying::End => Ok(Parsed::Broken),
    }
}
