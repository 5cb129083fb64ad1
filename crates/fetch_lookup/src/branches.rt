//! Where a branch is fetched from, and where refspecs lead to.

ghost use Rattle.std.specs.Prelude.{◌≡◌, IfOk, slice_get};
ghost use Rattle.std.specs.List.{filter_map};
ghost use Rattle.std.specs.Option.{option_copied};
ghost use Rattle.fetch_lookup.specs.Branches as spec;

use crate::names::branch_string;
use fetch_base::{Kind, NoMemory, Text};
use fetch_config::File;
use fetch_specs::{FullName, Item, Match, MatchGroup, NameError, RefSpec};
use std::alloc::Global;

/// What a branch is fetched from, as a text: the last `branch.<short>.merge`, below `refs/heads/` where it doesn't begin
/// with `refs/`. None where the configuration has no such entry.
#[tactic(auto, unfolding(crate::specs::Branches::merge_of))]
pub(crate) fn merge_text(
    alloc: Global,
    file: &File,
    name: &FullName,
) -> Result<Option<Text>, NoMemory>
    ensures { IfOk result (λ text. text ≡ spec.merge_of file.now.sections name.now) }
{
    match branch_string(file, name.shorten(), b"merge") {
        Some(text) => Ok(Some(text_in_full(alloc, text)?)),
        None => Ok(None),
    }
}

#[tactic(auto, unfolding(fetch_specs::specs::Categories::refs, fetch_specs::specs::Categories::heads))]
fn text_in_full(alloc: Global, text: &[u8]) -> Result<Text, NoMemory>
    ensures { IfOk result (λ full. full ≡ spec.in_full text.now) }
{
    if text.starts_with(b"refs/") {
        return Text::new(alloc, text);
    }
    let mut full = Vec::from_slice(alloc, b"refs/heads/")?;
    full.extend_from_slice(text)?;
    Ok(Text::from(full))
}

/// Where refspecs lead a name: the first destination that they give to it. None where they give none, and `Invalid`
/// where that is no full name.
pub fn destination_name(
    alloc: Global,
    specs: &[RefSpec],
    name: &FullName,
) -> Option<Result<FullName, NameError>>
    ensures { spec.IsDestination (spec.destination_in specs.now name.now) result }
{
    match destination(alloc, specs, name) {
        Ok(Some(text)) => Some(full_name(alloc, &text)),
        Ok(None) => None,
        Err(_) => Some(Err(NameError::NoMemory)),
    }
}

fn full_name(alloc: Global, text: &Text) -> Result<FullName, NameError>
    ensures { spec.IsNameOf text.now result }
{
    FullName::new(alloc, text.as_bytes())
}

#[tactic(auto, unfolding(crate::specs::Branches::destination_in))]
pub(crate) fn destination(
    alloc: Global,
    specs: &[RefSpec],
    name: &FullName,
) -> Result<Option<Text>, NoMemory>
    ensures { IfOk result (λ text. text ≡ spec.destination_in specs.now name.now) }
{
    let mut items = Vec::new(alloc);
    items.push(Item {
        full_ref_name: Text::new(alloc, name.as_bytes())?,
    })?;
    match MatchGroup::from_fetch_specs(specs).match_lhs(alloc, items.as_slice(), Kind::Sha1) {
        Ok(found) => first_destination(found.as_slice()),
        Err(_) => Err(NoMemory),
    }
}

fn first_destination(found: &[Match]) -> Result<Option<Text>, NoMemory>
    ensures { IfOk result (λ text. text ≡ slice_get (filter_map spec.destination_of found.now) 0) }
{
    for item in found {
        if let Some(text) = destination_of(item) {
            return Ok(Some(text.try_clone()?));
        }
    }
    Ok(None)
}

fn destination_of(item: &Match) -> Option<&Text>
    ensures { option_copied result ≡ spec.destination_of item.now }
{
    match item.item_index {
        Some(_) => item.rhs.as_ref(),
        None => None,
    }
}
