//! The lines that a remote is written by.

ghost use Rattle.std.specs.Prelude.{◌≡◌, ◌++◌, ◌∷◌, [], IfOk, OnOk, map, option_map};
ghost use Rattle.fetch_specs.specs.Parses.{printed};
ghost use Rattle.fetch_lookup.specs.Remotes.{spec_key};
ghost use Rattle.fetch_lookup.specs.Saved as spec;

use crate::direction::Direction;
use crate::remote::{RemoteParts, spec_key};
use fetch_base::{NoMemory, Text};
use fetch_specs::{RefSpec, Tags};
use std::alloc::Global;

/// A key, and its value.
pub(crate) type KeyLine = (Text, Text);

/// What a remote is written by: addresses, the choice of tags, refspecs. An empty address comes before those to fetch
/// from, or those to push to, where that is asked.
#[tactic(auto, unfolding(crate::specs::Saved::lines_of))]
pub(crate) fn lines(
    alloc: Global,
    remote: &RemoteParts,
    clears_urls: bool,
    clears_push_urls: bool,
) -> Result<Vec<KeyLine>, NoMemory>
    ensures { IfOk result (λ lines. lines.items ≡ spec.lines_of clears_urls clears_push_urls remote.now) }
{
    let mut lines = Vec::new(alloc);
    let urls = remote.urls.as_slice();
    push_addresses(alloc, &mut lines, clears_urls, Direction::Fetch, urls)?;
    let push_urls = remote.push_urls.as_slice();
    push_addresses(
        alloc,
        &mut lines,
        clears_push_urls,
        Direction::Push,
        push_urls,
    )?;
    push_tags(alloc, &mut lines, remote.fetch_tags)?;
    push_specs(
        alloc,
        &mut lines,
        Direction::Fetch,
        remote.fetch_specs.as_slice(),
    )?;
    push_specs(
        alloc,
        &mut lines,
        Direction::Push,
        remote.push_specs.as_slice(),
    )?;
    Ok(lines)
}

fn push_addresses(
    alloc: Global,
    lines: &mut Vec<KeyLine>,
    clears: bool,
    direction: Direction,
    urls: &[Text],
) -> Result<(), NoMemory>
    ensures { OnOk result (lines.new.items ≡ lines.old.items ++ spec.address_lines clears direction urls.now) }
{
    let key = address_key(direction);
    if clears {
        push(alloc, lines, key, Text::new(alloc, b"")?)?;
    }
    push_texts(alloc, lines, key, urls)
}

fn push_texts(
    alloc: Global,
    lines: &mut Vec<KeyLine>,
    key: &[u8],
    texts: &[Text],
) -> Result<(), NoMemory>
    ensures { OnOk result (lines.new.items ≡ lines.old.items ++ map (λ text. (key.now, text)) texts.now) }
{
    for text in texts {
        push(alloc, lines, key, text.try_clone()?)?;
    }
    Ok(())
}

#[tactic(auto, unfolding(crate::specs::Saved::tag_lines, crate::specs::Saved::tag_key))]
fn push_tags(alloc: Global, lines: &mut Vec<KeyLine>, tags: Tags) -> Result<(), NoMemory>
    ensures { OnOk result (lines.new.items ≡ lines.old.items ++ spec.tag_lines tags) }
{
    match tag_word(tags) {
        Some(word) => push(alloc, lines, b"tagOpt", Text::new(alloc, word)?),
        None => Ok(()),
    }
}

fn tag_word(tags: Tags) -> Option<&'static [u8]>
    ensures { option_map (λ word. word.now) result ≡ spec.tag_word tags }
{
    match tags {
        Tags::All => Some(b"--tags"),
        Tags::Included => None,
        Tags::None => Some(b"--no-tags"),
    }
}

fn push_specs(
    alloc: Global,
    lines: &mut Vec<KeyLine>,
    direction: Direction,
    specs: &[RefSpec],
) -> Result<(), NoMemory>
    ensures { OnOk result (lines.new.items ≡ lines.old.items ++ spec.spec_lines direction specs.now) }
{
    for spec in specs {
        push(alloc, lines, spec_key(direction), text_of(alloc, spec)?)?;
    }
    Ok(())
}

fn text_of(alloc: Global, spec: &RefSpec) -> Result<Text, NoMemory>
    ensures { IfOk result (λ text. text ≡ printed spec.now) }
{
    match spec.to_bstring(alloc) {
        Ok(text) => Ok(text),
        Err(_) => Err(NoMemory),
    }
}

fn push(alloc: Global, lines: &mut Vec<KeyLine>, key: &[u8], value: Text) -> Result<(), NoMemory>
    ensures { OnOk result (lines.new.items ≡ lines.old.items ++ (key.now, value) ∷ []) }
{
    lines.push((Text::new(alloc, key)?, value))?;
    Ok(())
}

#[tactic(auto, unfolding(crate::specs::Saved::address_key))]
pub(crate) fn address_key(direction: Direction) -> &'static [u8]
    ensures { result.now ≡ spec.address_key direction }
{
    match direction {
        Direction::Fetch => b"url",
        Direction::Push => b"pushurl",
    }
}
