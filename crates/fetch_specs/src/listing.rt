//! The prefixes that a listing is asked for.

ghost use Rattle.std.specs.Prelude.{ℕ, List, [], false, is_some, IsTrue, ◌≡◌, ◌++◌, ◌≤◌, ◌==◌, length, take, IfOk, OnOk, IsOkUnless};
ghost use Rattle.std.specs.List.{Contains, flat_map, list_any, position_or_len};
ghost use Rattle.std.specs.Option.{option_copied};
ghost use Rattle.std.specs.Str.{bytes_eq};
ghost use Rattle.fetch_specs.specs.Matches as stars;
ghost use Rattle.fetch_specs.specs.Matches.{is_exclusion, takes};
ghost use Rattle.fetch_specs.specs.Parses as spec;
ghost use Rattle.fetch_specs.specs.Prefixes as words;
ghost use Rattle.fetch_specs.specs.Prefixes.{prefixes_of, put_all, IsAskedFor, IsListing};
ghost use Rattle.fetch_specs.specs.Specs.{Spec};
ghost use Rattle.fetch_specs.specs.declared.error.SpecError.TheVariants as errors;

use crate::error::SpecError;
use crate::pattern::has_star;
use crate::reading::id_named;
use crate::spec::RefSpec;
use fetch_base::{NoMemory, Text};
use std::alloc::Global;
use std::collections::BTreeSet;

/// What a listing is to be asked for, sorted and each prefix once. No prefix asks for everything: so it is where a star
/// has no `refs/x/` before it, for a name that it takes need not begin with a prefix of another refspec. The only error
/// is out of memory.
#[tactic(auto, unfolding(crate::specs::Prefixes::prefixes_of))]
pub fn prefixes(alloc: Global, specs: &[RefSpec]) -> Result<Vec<Text>, SpecError>
    ensures prefixes { IfOk result (λ texts. texts.items ≡ prefixes_of specs.now) }
    ensures memory { IsOkUnless result errors.NoMemory }
{
    if some_asks_for_all(specs) {
        return Ok(Vec::new(alloc));
    }
    let mut texts = BTreeSet::new(alloc);
    put_specs(alloc, &mut texts, specs)?;
    Ok(in_a_list(alloc, texts)?)
}

fn in_a_list(alloc: Global, texts: BTreeSet<Text>) -> Result<Vec<Text>, NoMemory>
    ensures { IfOk result (λ list. list.items ≡ texts.keys) }
{
    let mut list = Vec::with_capacity(alloc, texts.len())?;
    for text in texts {
        list.push(text)?;
    }
    Ok(list)
}

#[tactic(auto, unfolding(crate::specs::Categories::refs))]
fn has_open_star(source: &[u8]) -> bool
    ensures { result ≡ words.has_open_star source.now }
{
    if source.starts_with(b"refs/") {
        has_star(front_of(source))
    } else {
        has_star(source)
    }
}

/// Whether a refspec takes names that no prefix finds.
fn asks_for_all(spec: &RefSpec) -> bool
    ensures { result ≡ words.asks_for_all spec.now }
{
    if spec.is_exclusion() {
        return false;
    }
    match spec.source() {
        Some(source) => has_open_star(source),
        None => false,
    }
}

fn some_asks_for_all(specs: &[RefSpec]) -> bool
    ensures { result ≡ list_any words.asks_for_all specs.now }
{
    specs.iter().any(|spec| asks_for_all(spec))
}

fn put_specs(alloc: Global, texts: &mut BTreeSet<Text>, specs: &[RefSpec]) -> Result<(), NoMemory>
    ensures { OnOk result (texts.new.keys ≡ put_all texts.old.keys (flat_map words.spec_prefixes specs.now)) }
{
    for i in 0..specs.len() {
        put_spec(alloc, texts, &specs[i])?;
    }
    Ok(())
}

fn put_spec(alloc: Global, texts: &mut BTreeSet<Text>, spec: &RefSpec) -> Result<(), NoMemory>
    ensures { OnOk result (texts.new.keys ≡ put_all texts.old.keys (words.spec_prefixes spec.now)) }
{
    if spec.is_exclusion() {
        return Ok(());
    }
    match spec.source() {
        Some(source) => put_source(alloc, texts, source),
        None => Ok(()),
    }
}

#[tactic(auto, unfolding(crate::specs::Parses::head, crate::specs::Categories::refs))]
fn put_source(alloc: Global, texts: &mut BTreeSet<Text>, source: &[u8]) -> Result<(), NoMemory>
    ensures { OnOk result (texts.new.keys ≡ put_all texts.old.keys (words.source_prefixes source.now)) }
{
    if id_named(source).is_some() {
        return Ok(());
    }
    if source == b"HEAD".as_slice() {
        return put(texts, Text::new(alloc, b"HEAD")?);
    }
    if source.starts_with(b"refs/") {
        return put_front(alloc, texts, source);
    }
    if has_star(source) {
        return Ok(());
    }
    put_expansions(alloc, texts, source)
}

/// Puts the prefix of a source up to its second slash.
fn put_front(alloc: Global, texts: &mut BTreeSet<Text>, source: &[u8]) -> Result<(), NoMemory>
    ensures { OnOk result (texts.new.keys ≡ put_all texts.old.keys (words.refs_prefix source.now)) }
{
    let front = front_of(source);
    if has_star(front) {
        return Ok(());
    }
    put(texts, Text::new(alloc, front)?)
}

/// A source up to and with its second slash.
fn front_of(source: &[u8]) -> &[u8]
    ensures { result.now ≡ take (words.second_slash source.now) source.now }
{
    let first = slash_or_end(source);
    if first == source.len() {
        return source;
    }
    let second = slash_or_end(&source[first + 1..]);
    if first + 1 + second == source.len() {
        return source;
    }
    &source[..first + 1 + second + 1]
}

fn slash_or_end(text: &[u8]) -> usize
    ensures place { result ≡ position_or_len (λ b. b == 47) text.now }
    ensures within { result ≤ length text.now }
{
    text.iter().take_while(|b| **b != b'/').count()
}

#[tactic(auto, unfolding(crate::specs::Categories::refs, crate::specs::Categories::tags, crate::specs::Categories::heads, crate::specs::Categories::remotes, crate::specs::Matches::slash_head))]
fn put_expansions(alloc: Global, texts: &mut BTreeSet<Text>, source: &[u8]) -> Result<(), NoMemory>
    ensures { OnOk result (texts.new.keys ≡ put_all texts.old.keys (words.expansions source.now)) }
{
    put(texts, Text::new(alloc, source)?)?;
    put_joined(alloc, texts, b"refs/", source)?;
    put_joined(alloc, texts, b"refs/tags/", source)?;
    put_joined(alloc, texts, b"refs/heads/", source)?;
    put_joined(alloc, texts, b"refs/remotes/", source)?;
    let head = joined(alloc, source, b"/HEAD")?;
    put_joined(alloc, texts, b"refs/remotes/", head.as_slice())
}

fn joined(alloc: Global, front: &[u8], back: &[u8]) -> Result<Vec<u8>, NoMemory>
    ensures { IfOk result (λ text. text.items ≡ front.now ++ back.now) }
{
    let mut text = Vec::from_slice(alloc, front)?;
    text.extend_from_slice(back)?;
    Ok(text)
}

fn put_joined(
    alloc: Global,
    texts: &mut BTreeSet<Text>,
    front: &[u8],
    back: &[u8],
) -> Result<(), NoMemory>
    ensures { OnOk result (texts.new.keys ≡ words.put (front.now ++ back.now) texts.old.keys) }
{
    let text = joined(alloc, front, back)?;
    put(texts, Text::from(text))
}

/// Puts a text among sorted ones, unless it is there.
#[tactic(auto, using(crate::proofs::Placing::put_key))]
fn put(texts: &mut BTreeSet<Text>, text: Text) -> Result<(), NoMemory>
    ensures { OnOk result (texts.new.keys ≡ words.put text texts.old.keys) }
{
    texts.insert(text)?;
    Ok(())
}
