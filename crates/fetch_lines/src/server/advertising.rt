//! What a server of version 1 says first, as lines.

ghost use Rattle.std.specs.Prelude.{◌≡◌, ◌++◌, ◌∷◌, map, IfOk, OnOk};
ghost use Rattle.std.specs.List.{flat_map};
ghost use Rattle.std.specs.Option.{option_copied};
ghost use Rattle.fetch_lines.specs.AdvertisementLines.{advertised_texts, advertisement_lines, first_texts, joined, named_text, peel_texts};
ghost use Rattle.fetch_lines.specs.References.{id_in, name_in, peeled_in};
ghost use Rattle.fetch_lines.specs.ServerLines.{capability_text, spaced};

use crate::greetings::handshake::Capability;
use crate::lines::line::Line;
use crate::listings::reference::Ref;
use crate::requests::request_parts::joined;
use crate::server::server_lines::{append_capabilities, append_ids, append_word, flushed, id_text};
use fetch_base::{NoMemory, ObjectId, Text};
use std::alloc::Global;

/// An id, a space, and a name.
fn named_text(alloc: Global, id: Option<&ObjectId>, name: &[u8]) -> Result<Text, NoMemory>
    ensures { IfOk result (λ text. text ≡ named_text (option_copied id.entry) name.now) }
{
    let mut out = id_text(alloc, id)?.into_bytes();
    append_word(&mut out, b"", name)?;
    Ok(Text::from(out))
}

/// Appends these words, each with a space before it.
fn append_spaced(out: &mut Vec<u8>, words: &[Text]) -> Result<(), NoMemory>
    ensures { OnOk result (out.new.items ≡ out.old.items ++ spaced words.now) }
{
    for word in words {
        append_word(out, b"", word.as_bytes())?;
    }
    Ok(())
}

/// Appends these words, which spaces divide.
fn append_joined(out: &mut Vec<u8>, words: &[Text]) -> Result<(), NoMemory>
    ensures { OnOk result (out.new.items ≡ out.old.items ++ joined words.now) }
{
    let [first, others @ ..] = words else {
        return Ok(());
    };
    out.extend_from_slice(first.as_bytes())?;
    append_spaced(out, others)
}

/// The first reference, or the name that stands where there is none, with the capabilities.
fn first_text(
    alloc: Global,
    id: Option<&ObjectId>,
    name: &[u8],
    capabilities: &[Capability],
) -> Result<Text, NoMemory>
    ensures { IfOk result (λ text. text ≡ named_text (option_copied id.entry) name.now
        ++ 0 ∷ joined (map capability_text capabilities.now)) }
{
    let mut words = Vec::new(alloc);
    append_capabilities(alloc, &mut words, capabilities)?;
    let mut out = named_text(alloc, id, name)?.into_bytes();
    out.extend_from_slice(b"\0")?;
    append_joined(&mut out, &words)?;
    Ok(Text::from(out))
}

/// Appends what the tag of this name peels to, where there is one.
fn append_peel(
    alloc: Global,
    texts: &mut Vec<Text>,
    name: &[u8],
    peeled: Option<&ObjectId>,
) -> Result<(), NoMemory>
    ensures { OnOk result (texts.new.items ≡ texts.old.items ++ peel_texts name.now (option_copied peeled.entry)) }
{
    if let Some(id) = peeled {
        let name = joined(alloc, name, b"^{}")?;
        texts.push(named_text(alloc, Some(id), name.as_bytes())?)?;
    }
    Ok(())
}

/// Appends a reference, and what its tag peels to.
fn append_reference(alloc: Global, texts: &mut Vec<Text>, reference: &Ref) -> Result<(), NoMemory>
    ensures { OnOk result (texts.new.items ≡ texts.old.items ++ advertised_texts reference.now) }
{
    let (name, id, peeled) = reference.unpack();
    texts.push(named_text(alloc, id, name)?)?;
    append_peel(alloc, texts, name, peeled)
}

fn append_references(alloc: Global, texts: &mut Vec<Text>, refs: &[Ref]) -> Result<(), NoMemory>
    ensures { OnOk result (texts.new.items ≡ texts.old.items ++ flat_map advertised_texts refs.now) }
{
    for reference in refs {
        append_reference(alloc, texts, reference)?;
    }
    Ok(())
}

/// Appends the references, the first of which tells the capabilities too.
fn append_first(
    alloc: Global,
    texts: &mut Vec<Text>,
    null: &ObjectId,
    capabilities: &[Capability],
    refs: &[Ref],
) -> Result<(), NoMemory>
    ensures { OnOk result (texts.new.items ≡ texts.old.items ++ first_texts null.now capabilities.now refs.now) }
{
    let [first, others @ ..] = refs else {
        texts.push(first_text(alloc, Some(null), b"capabilities^{}", capabilities)?)?;
        return Ok(());
    };
    let (name, id, peeled) = first.unpack();
    texts.push(first_text(alloc, id, name, capabilities)?)?;
    append_peel(alloc, texts, name, peeled)?;
    append_references(alloc, texts, others)
}

/// What a server of version 1 says first: its references, of which the first tells the capabilities, and its border.
/// The null id is that of the name which stands where there is no reference.
pub fn advertisement_lines(
    alloc: Global,
    null: &ObjectId,
    capabilities: &[Capability],
    refs: &[Ref],
    border: &[ObjectId],
) -> Result<Vec<Line>, NoMemory>
    ensures { IfOk result (λ found. found.items ≡ advertisement_lines null.now capabilities.now refs.now border.now) }
{
    let mut texts = Vec::new(alloc);
    texts.push(Text::new(alloc, b"version 1")?)?;
    append_first(alloc, &mut texts, null, capabilities, refs)?;
    append_ids(alloc, &mut texts, b"shallow ", border)?;
    flushed(alloc, &texts)
}
