//! What a server says, as lines.

ghost use Rattle.std.specs.Prelude.{◌≡◌, ◌++◌, ◌∷◌, [], map, codes, IfOk, OnOk};
ghost use Rattle.std.specs.Option.{option_copied};
ghost use Rattle.hex.specs.Hex.{encode_lower};
ghost use Rattle.fetch_base.specs.Id.{bytes_of};
ghost use Rattle.fetch_lines.specs.References.{name_in, id_in, peeled_in, target_in};
ghost use Rattle.fetch_lines.specs.RequestLines.{id_lines};
ghost use Rattle.fetch_lines.specs.Requests.{sent};
ghost use Rattle.fetch_lines.specs.ServerLines.{capability_text, greeting_lines, id_text, target_words, peeled_words, spaced, ref_text};
ghost use Rattle.fetch_lines.specs.ServerLines.{listing_lines_of, acknowledged_texts, round_lines};
ghost use Rattle.fetch_lines.specs.declared.lines.line.Line.TheVariants as lines;

use crate::greetings::handshake::Capability;
use crate::lines::line::Line;
use crate::listings::reference::Ref;
use crate::requests::request_parts::{append_texts, joined};
use fetch_base::{NoMemory, ObjectId, Text};
use std::alloc::Global;

/// `name`, or `name=value`.
fn capability_text(alloc: Global, capability: &Capability) -> Result<Text, NoMemory>
    ensures { IfOk result (λ text. text ≡ capability_text capability.now) }
{
    let mut text = Vec::from_slice(alloc, capability.name.as_bytes())?;
    if let Some(value) = &capability.value {
        text.extend_from_slice(b"=")?;
        text.extend_from_slice(value.as_bytes())?;
    }
    Ok(Text::from(text))
}

pub(crate) fn append_capabilities(
    alloc: Global,
    texts: &mut Vec<Text>,
    capabilities: &[Capability],
) -> Result<(), NoMemory>
    ensures { OnOk result (texts.new.items ≡ texts.old.items ++ map capability_text capabilities.now) }
{
    for capability in capabilities {
        texts.push(capability_text(alloc, capability)?)?;
    }
    Ok(())
}

/// A line for each text, and the flush.
pub(crate) fn flushed(alloc: Global, texts: &[Text]) -> Result<Vec<Line>, NoMemory>
    ensures { IfOk result (λ found. found.items ≡ sent texts.now ++ lines.Flush ∷ []) }
{
    let mut lines = Vec::new(alloc);
    append_texts(alloc, &mut lines, texts)?;
    lines.push(Line::Flush)?;
    Ok(lines)
}

/// The greeting of a server of version 2 with these capabilities.
pub fn greeting_lines(alloc: Global, capabilities: &[Capability]) -> Result<Vec<Line>, NoMemory>
    ensures { IfOk result (λ found. found.items ≡ greeting_lines capabilities.now) }
{
    let mut texts = Vec::new(alloc);
    texts.push(Text::new(alloc, b"version 2")?)?;
    append_capabilities(alloc, &mut texts, capabilities)?;
    flushed(alloc, &texts)
}

/// `unborn`, or an id.
pub(crate) fn id_text(alloc: Global, id: Option<&ObjectId>) -> Result<Text, NoMemory>
    ensures { IfOk result (λ text. text ≡ id_text (option_copied id.entry)) }
{
    match id {
        Some(id) => {
            let digits = hex::encode(alloc, id.as_bytes())?;
            Text::new(alloc, digits.as_bytes())
        }
        None => Text::new(alloc, b"unborn"),
    }
}

/// Appends a space, a word and what follows it.
pub(crate) fn append_word(out: &mut Vec<u8>, word: &[u8], rest: &[u8]) -> Result<(), NoMemory>
    ensures { OnOk result (out.new.items ≡ out.old.items ++ 32 ∷ (word.now ++ rest.now)) }
{
    out.extend_from_slice(b" ")?;
    out.extend_from_slice(word)?;
    out.extend_from_slice(rest)?;
    Ok(())
}

fn append_target(out: &mut Vec<u8>, target: Option<&[u8]>) -> Result<(), NoMemory>
    ensures { OnOk result (out.new.items ≡ out.old.items ++ spaced (target_words (option_copied target.entry))) }
{
    if let Some(target) = target {
        append_word(out, b"symref-target:", target)?;
    }
    Ok(())
}

fn append_peeled(
    alloc: Global,
    out: &mut Vec<u8>,
    peeled: Option<&ObjectId>,
) -> Result<(), NoMemory>
    ensures { OnOk result (out.new.items ≡ out.old.items ++ spaced (peeled_words (option_copied peeled.entry))) }
{
    if let Some(id) = peeled {
        let digits = hex::encode(alloc, id.as_bytes())?;
        append_word(out, b"peeled:", digits.as_bytes())?;
    }
    Ok(())
}

/// The text that lists a reference.
fn ref_text(alloc: Global, reference: &Ref) -> Result<Text, NoMemory>
    ensures { IfOk result (λ text. text ≡ ref_text reference.now) }
{
    let (name, id, peeled) = reference.unpack();
    let mut out = id_text(alloc, id)?.into_bytes();
    append_word(&mut out, b"", name)?;
    append_target(&mut out, reference.target())?;
    append_peeled(alloc, &mut out, peeled)?;
    Ok(Text::from(out))
}

fn ref_texts(alloc: Global, refs: &[Ref]) -> Result<Vec<Text>, NoMemory>
    ensures { IfOk result (λ texts. texts.items ≡ map ref_text refs.now) }
{
    let mut texts = Vec::new(alloc);
    for reference in refs {
        texts.push(ref_text(alloc, reference)?)?;
    }
    Ok(texts)
}

/// The listing of these references.
pub fn listing_lines(alloc: Global, refs: &[Ref]) -> Result<Vec<Line>, NoMemory>
    ensures { IfOk result (λ found. found.items ≡ listing_lines_of refs.now) }
{
    let texts = ref_texts(alloc, refs)?;
    flushed(alloc, &texts)
}

/// A word and an id.
fn worded_id(alloc: Global, word: &[u8], id: &ObjectId) -> Result<Text, NoMemory>
    ensures { IfOk result (λ text. text ≡ word.now ++ encode_lower (bytes_of id.now)) }
{
    let digits = hex::encode(alloc, id.as_bytes())?;
    joined(alloc, word, digits.as_bytes())
}

/// Appends a word and an id, for each id.
pub(crate) fn append_ids(
    alloc: Global,
    texts: &mut Vec<Text>,
    word: &[u8],
    ids: &[ObjectId],
) -> Result<(), NoMemory>
    ensures { OnOk result (texts.new.items ≡ texts.old.items ++ id_lines word.now ids.now) }
{
    for id in ids {
        texts.push(worded_id(alloc, word, id)?)?;
    }
    Ok(())
}

/// `ACK <id>` for each id, or `NAK` where there is none.
pub(crate) fn append_acknowledged(
    alloc: Global,
    texts: &mut Vec<Text>,
    ids: &[ObjectId],
) -> Result<(), NoMemory>
    ensures { OnOk result (texts.new.items ≡ texts.old.items ++ acknowledged_texts ids.now) }
{
    match ids {
        [] => {
            texts.push(Text::new(alloc, b"NAK")?)?;
            Ok(())
        }
        [_, ..] => append_ids(alloc, texts, b"ACK ", ids),
    }
}

/// The reply to a request that doesn't end the rounds, which acknowledges these haves.
pub fn round_lines(alloc: Global, ids: &[ObjectId]) -> Result<Vec<Line>, NoMemory>
    ensures { IfOk result (λ found. found.items ≡ round_lines ids.now) }
{
    let mut texts = Vec::new(alloc);
    texts.push(Text::new(alloc, b"acknowledgments")?)?;
    append_acknowledged(alloc, &mut texts, ids)?;
    flushed(alloc, &texts)
}
