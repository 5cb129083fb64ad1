//! Where names stand in a list.

ghost use Rattle.std.specs.Prelude.{ℕ, List as Bytes, ◌≡◌, map, IfOk};
ghost use Rattle.fetch_specs.specs.Exact as words;
ghost use Rattle.fetch_specs.specs.Exact.{HasPlaces};

use crate::matching::Item;
use crate::spec::RefSpec;
use fetch_base::{NoMemory, Text};
use std::alloc::Global;
use std::collections::BTreeMap;

/// Up to how many refspecs each name is compared with each.
const FEW: usize = 16;

/// The first place of each name, where there are so many refspecs that it pays.
pub(crate) fn places_for(
    alloc: Global,
    specs: &[RefSpec],
    items: &[Item],
) -> Result<Option<BTreeMap<Text, usize>>, NoMemory>
    ensures { IfOk result (λ places. HasPlaces (map (λ item. item.full_ref_name) items.now) places) }
{
    if specs.len() <= FEW {
        return Ok(None);
    }
    Ok(Some(places_of(alloc, items)?))
}

/// The first place of each name.
fn places_of(alloc: Global, items: &[Item]) -> Result<BTreeMap<Text, usize>, NoMemory>
    ensures { IfOk result (λ places. (text : Bytes ℕ) → words.place_in places.entries text
        ≡ words.place_from 0 text (map (λ item. item.full_ref_name) items.now)) }
{
    let mut places = BTreeMap::new(alloc);
    let mut left = items.len();
    while left > 0 {
        left -= 1;
        places.insert(items[left].full_ref_name.try_clone()?, left)?;
    }
    Ok(places)
}

/// The first place of a name.
pub(crate) fn place_of(
    alloc: Global,
    places: &BTreeMap<Text, usize>,
    name: &[u8],
) -> Result<Option<usize>, NoMemory>
    ensures { IfOk result (λ place. place ≡ words.place_in places.now.entries name.now) }
{
    let name = Text::new(alloc, name)?;
    match places.get(&name) {
        Some(place) => Ok(Some(*place)),
        None => Ok(None),
    }
}
