//! Overrides: a section each, in one line.

ghost use Rattle.std.specs.Prelude.{◌≡◌, IfOk, option_map, position, [], ◌∷◌};
ghost use Rattle.fetch_config.specs.Kept as kept;
ghost use Rattle.fetch_config.specs.Overridden as seen;
ghost use Rattle.fetch_config.specs.Overrides as spec;

use crate::meta::{Meta, Origin};
use crate::section::Section;
use crate::text::{LF, NUL, is_key, is_name};
use fetch_base::{List, NoMemory, Text, split_first, split_last};
use std::alloc::Global;

fn path_and_value(text: &[u8]) -> (&[u8], Option<&[u8]>)
    ensures path { result.0.now ≡ (spec.path_and_value text.now).0 }
    ensures value { option_map (λ v. v.now) result.1 ≡ (spec.path_and_value text.now).1 }
{
    match split_first(b'=', text) {
        Some((path, value)) => (path, Some(value)),
        None => (text, None),
    }
}

fn text_from(alloc: Global, text: Option<&[u8]>) -> Result<Option<Text>, NoMemory>
    ensures { IfOk result (λ copy. copy ≡ option_map (λ t. t.now) text.entry) }
{
    match text {
        Some(text) => Ok(Some(Text::new(alloc, text)?)),
        None => Ok(None),
    }
}

/// What an override says, lent.
#[derive(Clone, Copy, Debug)]
pub(crate) struct Override<'a> {
    /// The name of the section.
    pub name: &'a [u8],
    /// The subsection, where there is one.
    pub sub: Option<&'a [u8]>,
    /// The key.
    pub key: &'a [u8],
    /// The value, where there is one.
    pub value: Option<&'a [u8]>,
}

fn with_key<'a>(
    name: &'a [u8],
    sub: Option<&'a [u8]>,
    key: &'a [u8],
    value: Option<&'a [u8]>,
) -> Option<Override<'a>>
    ensures { option_map seen.section_of result
        ≡ spec.override_section name.now (option_map (λ s. s.now) sub.entry) key.now (option_map (λ v. v.now) value.entry) }
{
    if !is_name(name) {
        return None;
    }
    if !is_key(key) {
        return None;
    }
    Some(Override {
        name,
        sub,
        key,
        value,
    })
}

fn at_path<'a>(path: &'a [u8], value: Option<&'a [u8]>) -> Option<Override<'a>>
    ensures { option_map seen.section_of result ≡ spec.section_at path.now (option_map (λ v. v.now) value.entry) }
{
    let Some((name, behind)) = split_first(b'.', path) else {
        return None;
    };
    match split_last(b'.', behind) {
        Some((sub, key)) => with_key(name, Some(sub), key, value),
        None => with_key(name, None, behind, value),
    }
}

/// What an override says. None where it has no section and key.
#[tactic(auto, unfolding(crate::specs::Overrides::override_of))]
pub(crate) fn override_of(text: &[u8]) -> Option<Override<'_>>
    ensures { option_map seen.section_of result ≡ spec.override_of text.now }
{
    let (path, value) = path_and_value(text);
    at_path(path, value)
}

fn one_entry(
    alloc: Global,
    key: &[u8],
    value: Option<&[u8]>,
) -> Result<List<(Text, Option<Text>)>, NoMemory>
    ensures { IfOk result (λ entries. entries ≡ (key.now, option_map (λ v. v.now) value.entry) ∷ []) }
{
    let mut entries = Vec::new(alloc);
    entries.push((Text::new(alloc, key)?, text_from(alloc, value)?))?;
    Ok(List::from(entries))
}

/// The section that an override adds.
pub(crate) fn section_of(alloc: Global, said: Override<'_>) -> Result<Section, NoMemory>
    ensures { IfOk result (λ section. section ≡ seen.section_of said.entry) }
{
    Ok(Section {
        name: Text::new(alloc, said.name)?,
        sub: text_from(alloc, said.sub)?,
        meta: Meta {
            source: Origin::Api,
            level: 0,
            path: None,
            trusted: true,
        },
        entries: one_entry(alloc, said.key, said.value)?,
    })
}

/// The place of the first NUL.
pub(crate) fn nul_place(text: &[u8]) -> Option<usize>
    ensures { result ≡ position kept.is_nul text.now }
{
    text.iter().position(|c| *c == NUL)
}

/// The place of the first NUL or line feed.
pub(crate) fn nul_or_feed_place(text: &[u8]) -> Option<usize>
    ensures { result ≡ position kept.is_nul_or_feed text.now }
{
    text.iter().position(|c| *c == NUL || *c == LF)
}

/// The place of an override's first byte that can't be kept.
#[tactic(auto, unfolding(crate::specs::Overrides::unkept_place))]
pub(crate) fn unkept_place(text: &[u8]) -> Option<usize>
    ensures { result ≡ spec.unkept_place text.now }
{
    let (path, _) = path_and_value(text);
    match nul_or_feed_place(path) {
        Some(place) => Some(place),
        None => nul_place(text),
    }
}
