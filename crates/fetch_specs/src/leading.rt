//! The sources that lead to a name.

ghost use Rattle.std.specs.Prelude.{◌≡◌, ◌↔◌, ◌++◌, ◌∷◌, [], ℕ, List, Some, drop, map, option_and_then, IfOk, OnOk};
ghost use Rattle.std.specs.List.{Contains, filter, filter_map};
ghost use Rattle.std.specs.Option.{option_copied};
ghost use Rattle.std.specs.Str.{bytes_eq};
ghost use Rattle.fetch_specs.specs.Leads.{IsOwnSource, mapped_to};
ghost use Rattle.fetch_specs.specs.Matches as words;
ghost use Rattle.fetch_specs.specs.Matches.{added_all};
ghost use Rattle.fetch_specs.specs.Parses.{IsSpec};
ghost use Rattle.fetch_specs.specs.Specs.{Spec};

use crate::found::{Found, Match, SourceRef};
use crate::matching::{Item, is_excluded, is_exclusion};
use crate::pattern::{back_of, between, front_of, has_star, is_completed, where_true, with_middle};
use crate::reading::id_named;
use crate::spec::RefSpec;
use fetch_base::{NoMemory, Text};
use std::alloc::Global;

/// What a destination's star stands for in a text: nothing, where it has none.
fn given<'a>(destination: &[u8], text: &'a [u8]) -> Option<&'a [u8]>
    ensures { option_copied result ≡ words.given destination.now text.now }
{
    if has_star(destination) {
        between(front_of(destination), back_of(destination), text)
    } else {
        where_true(destination == text)
    }
}

fn unless_excluded(specs: &[RefSpec], source: Vec<u8>) -> Option<Text>
    ensures { result ≡ words.unless_excluded specs.now source.items }
{
    if is_excluded(specs, source.as_slice()) {
        None
    } else {
        Some(Text::from(source))
    }
}

/// The source of a positive refspec whose destination, its star replaced, is this text.
fn source_to(
    alloc: Global,
    specs: &[RefSpec],
    text: &[u8],
    source: &[u8],
    destination: &[u8],
) -> Result<Option<Text>, NoMemory>
    ensures { IfOk result (λ found. found ≡ option_and_then
        (λ middle. words.unless_excluded specs.now (words.with_middle source.now middle)) (words.given destination.now text.now)) }
{
    match given(destination, text) {
        Some(middle) => Ok(unless_excluded(specs, with_middle(alloc, source, middle)?)),
        None => Ok(None),
    }
}

fn source_given(
    alloc: Global,
    specs: &[RefSpec],
    spec: &RefSpec,
    text: &[u8],
) -> Result<Option<Text>, NoMemory>
    ensures { IfOk result (λ found. found ≡ words.source_given specs.now spec.now text.now) }
{
    let Some(source) = spec.source() else {
        return Ok(None);
    };
    let Some(destination) = spec.destination() else {
        return Ok(None);
    };
    if is_exclusion(spec) || id_named(source).is_some() {
        return Ok(None);
    }
    source_to(alloc, specs, text, source, destination)
}

/// A text without its first bytes.
fn behind(count: usize, text: &[u8]) -> &[u8]
    ensures { result.now ≡ drop count text.now }
{
    if count <= text.len() {
        &text[count..]
    } else {
        b""
    }
}

/// Adds the source that a text gives, where the text is the name when it is completed.
fn push_source(
    alloc: Global,
    sources: &mut Vec<Text>,
    specs: &[RefSpec],
    spec: &RefSpec,
    name: &[u8],
    text: &[u8],
) -> Result<(), NoMemory>
    ensures { OnOk result (sources.new.items ≡ sources.old.items
        ++ filter_map (words.source_given specs.now spec.now) (filter (λ t. bytes_eq (words.completed t) name.now) (text.now ∷ []))) }
{
    if !is_completed(text, name) {
        return Ok(());
    }
    if let Some(source) = source_given(alloc, specs, spec, text)? {
        sources.push(source)?;
    }
    Ok(())
}

/// The sources of a refspec that lead to a name.
#[tactic(auto, unfolding(crate::specs::Categories::refs, crate::specs::Categories::heads))]
fn sources_leading(
    alloc: Global,
    specs: &[RefSpec],
    spec: &RefSpec,
    name: &[u8],
) -> Result<Vec<Text>, NoMemory>
    ensures { IfOk result (λ sources. sources.items ≡ words.sources_leading specs.now spec.now name.now) }
{
    let mut sources = Vec::new(alloc);
    push_source(alloc, &mut sources, specs, spec, name, name)?;
    push_source(alloc, &mut sources, specs, spec, name, behind(5, name))?;
    push_source(alloc, &mut sources, specs, spec, name, behind(11, name))?;
    Ok(sources)
}

fn leading(
    alloc: Global,
    index: usize,
    item: usize,
    name: &[u8],
    source: &Text,
) -> Result<Match, NoMemory>
    ensures { IfOk result (λ found. found ≡ words.leading index item name.now source.now) }
{
    Ok(Match {
        lhs: SourceRef::FullName(source.try_clone()?),
        rhs: Some(Text::new(alloc, name)?),
        item_index: Some(item),
        spec_index: index,
    })
}

fn add_leading(
    alloc: Global,
    found: &mut Found,
    index: usize,
    item: usize,
    name: &[u8],
    sources: &[Text],
) -> Result<(), NoMemory>
    ensures added { OnOk result (found.new.matches
        ≡ added_all found.old.pairs found.old.matches (map (words.leading index item name.now) sources.now)) }
    ensures pairs { found.new.pairs ≡ found.old.pairs }
{
    for k in 0..sources.len() {
        let one = leading(alloc, index, item, name, &sources[k])?;
        found.add(one)?;
    }
    Ok(())
}

fn add_sources_of(
    alloc: Global,
    found: &mut Found,
    specs: &[RefSpec],
    index: usize,
    spec: &RefSpec,
    items: &[Item],
) -> Result<(), NoMemory>
    ensures added { OnOk result (found.new.matches ≡ added_all found.old.pairs found.old.matches
        (words.names_from (words.source_matches specs.now index spec.now) 0 (map (λ item. item.full_ref_name) items.now))) }
    ensures pairs { found.new.pairs ≡ found.old.pairs }
{
    for j in 0..items.len() {
        let name = items[j].full_ref_name.as_bytes();
        let sources = sources_leading(alloc, specs, spec, name)?;
        add_leading(alloc, found, index, j, name, sources.as_slice())?;
    }
    Ok(())
}

/// Adds the matches of these items by their sources: refspec by refspec, and item by item in each.
pub(crate) fn add_sources(
    alloc: Global,
    found: &mut Found,
    specs: &[RefSpec],
    items: &[Item],
) -> Result<(), NoMemory>
    ensures added { OnOk result (found.new.matches ≡ added_all found.old.pairs found.old.matches
        (words.specs_from (words.source_matches specs.now) 0 specs.now (map (λ item. item.full_ref_name) items.now))) }
    ensures pairs { found.new.pairs ≡ found.old.pairs }
{
    for i in 0..specs.len() {
        add_sources_of(alloc, found, specs, i, &specs[i], items)?;
    }
    Ok(())
}
