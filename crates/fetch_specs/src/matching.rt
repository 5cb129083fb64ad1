//! What a list of refspecs maps, and what leads to a name.

ghost use Rattle.std.specs.Prelude.{◌≡◌, is_some, map, IfOk, OnOk, IsOkUnless};
ghost use Rattle.std.specs.List.{list_any};
ghost use Rattle.std.specs.Option.{option_copied, option_map};
ghost use Rattle.fetch_specs.specs.Exact as exactly;
ghost use Rattle.fetch_specs.specs.Exact.{HasPlaces, matches_at, place_from};
ghost use Rattle.fetch_specs.specs.Matches as words;
ghost use Rattle.fetch_specs.specs.Matches.{added_all, mappings_of, sources_of};
ghost use Rattle.fetch_specs.specs.declared.error.SpecError.TheVariants as errors;

use crate::error::SpecError;
use crate::found::{Found, Match, SourceRef};
use crate::leading::add_sources;
use crate::lookup::{place_of, places_for};
use crate::name::PartialName;
use crate::pattern::{exact, expanded, taken};
use crate::reading::id_named;
use crate::spec::RefSpec;
use fetch_base::{Kind, NoMemory, ObjectId, Text};
use std::alloc::Global;
use std::collections::BTreeMap;
use std::marker::Model;

/// A name that a remote, or a repository, has.
#[derive(Debug, Drop)]
pub struct Item {
    /// The full name.
    pub full_ref_name: Text,
}

impl Item {
    /// An equal item.
    pub fn try_clone(&self) -> Result<Item, NoMemory>
        ensures { IfOk result (λ copy. copy ≡ self.now) }
    {
        Ok(Item {
            full_ref_name: self.full_ref_name.try_clone()?,
        })
    }
}

/// Refspecs that are matched together.
#[derive(Debug, Drop)]
pub struct MatchGroup<'a> {
    specs: &'a [RefSpec],
}

impl<'a> Model for MatchGroup<'a> {
    ghost use Rattle.std.specs.Prelude.{List};
    ghost use Rattle.fetch_specs.specs.Specs.{Spec};

    ghost Value = { List Spec };

    ghost view = { λ group. group.specs.now };
}

impl<'a> MatchGroup<'a> {
    /// The refspecs of a fetch.
    pub fn from_fetch_specs(specs: &'a [RefSpec]) -> MatchGroup<'a>
        ensures { result ≡ specs.now }
    {
        MatchGroup { specs }
    }

    /// What the refspecs map of the items: first the sources that are ids of this kind, then refspec by refspec and
    /// item by item, each pair of source and destination once. The only error is out of memory.
    pub fn match_lhs(
        &self,
        alloc: Global,
        items: &[Item],
        kind: Kind,
    ) -> Result<Vec<Match>, SpecError>
        ensures mappings { IfOk result (λ found. found.items ≡ mappings_of self.now (map (λ item. item.full_ref_name) items.now) kind) }
        ensures memory { IsOkUnless result errors.NoMemory }
    {
        let mut found = Found::new(alloc, true);
        add_ids(alloc, &mut found, self.specs, kind)?;
        add_names(alloc, &mut found, self.specs, items)?;
        Ok(found.into_matches())
    }

    /// The sources that lead to the items, refspec by refspec and item by item, each source once. Where several sources
    /// of a refspec lead to an item, the one that the full destination gives comes first, then the one of it without
    /// `refs/`, then the one of it without `refs/heads/`. The only error is out of memory.
    pub fn match_rhs(&self, alloc: Global, items: &[Item]) -> Result<Vec<Match>, SpecError>
        ensures sources { IfOk result (λ found. found.items ≡ sources_of self.now (map (λ item. item.full_ref_name) items.now)) }
        ensures memory { IsOkUnless result errors.NoMemory }
    {
        let mut found = Found::new(alloc, false);
        add_sources(alloc, &mut found, self.specs, items)?;
        Ok(found.into_matches())
    }
}

/// Whether a source without a star, full or short, matches a name.
pub fn matches(source: &PartialName, name: &[u8]) -> bool
    ensures { result ≡ is_some (words.taken source.now name.now) }
{
    taken(source.as_bytes(), name).is_some()
}

fn source_taken<'a>(source: Option<&[u8]>, name: &'a [u8]) -> Option<&'a [u8]>
    ensures { option_copied result ≡ words.source_taken (option_copied source.entry) name.now }
{
    match source {
        Some(source) => taken(source, name),
        None => None,
    }
}

/// The source, where it takes one name alone.
fn exact_source(source: Option<&[u8]>) -> Option<&[u8]>
    ensures { option_copied result ≡ exactly.exact_source (option_copied source.entry) }
{
    match source {
        Some(source) => exact(source),
        None => None,
    }
}

fn source_id(source: Option<&[u8]>) -> Option<ObjectId>
    ensures { result ≡ words.source_id (option_copied source.entry) }
{
    match source {
        Some(source) => id_named(source),
        None => None,
    }
}

/// Whether the refspec leaves names out.
pub(crate) fn is_exclusion(spec: &RefSpec) -> bool
    ensures { result ≡ words.is_exclusion spec.now.mode }
{
    spec.is_exclusion()
}

fn excludes(name: &[u8], spec: &RefSpec) -> bool
    ensures { result ≡ words.excludes name.now spec.now }
{
    is_exclusion(spec) && source_taken(spec.source(), name).is_some()
}

/// Whether an exclusion among these refspecs leaves the name out.
pub(crate) fn is_excluded(specs: &[RefSpec], name: &[u8]) -> bool
    ensures { result ≡ words.is_excluded specs.now name.now }
{
    for spec in specs {
        if excludes(name, spec) {
            return true;
        }
    }
    false
}

/// Whether there is an exclusion among these refspecs.
fn has_exclusion(specs: &[RefSpec]) -> bool
    ensures { result ≡ list_any (λ spec. words.is_exclusion spec.mode) specs.now }
{
    for spec in specs {
        if is_exclusion(spec) {
            return true;
        }
    }
    false
}

/// The same as `is_excluded`, where it is known whether there is an exclusion.
#[tactic(auto, using(crate::proofs::Exactly::none_excluded))]
fn is_excluded_if(has_exclusion: bool, specs: &[RefSpec], name: &[u8]) -> bool
    requires { has_exclusion ≡ list_any (λ spec. words.is_exclusion spec.mode) specs.now }
    ensures { result ≡ words.is_excluded specs.now name.now }
{
    has_exclusion && is_excluded(specs, name)
}

fn is_of(kind: Kind, id: &ObjectId) -> bool
    ensures { result ≡ words.is_of kind id.now }
{
    match (kind, id) {
        (Kind::Sha1, ObjectId::Sha1(_)) | (Kind::Sha256, ObjectId::Sha256(_)) => true,
        _ => false,
    }
}

fn expanded_side(
    alloc: Global,
    middle: &[u8],
    destination: Option<&[u8]>,
) -> Result<Option<Text>, NoMemory>
    ensures { IfOk result (λ text. text ≡ option_map (words.expanded middle.now) (option_copied destination.entry)) }
{
    match destination {
        Some(destination) => {
            let text = expanded(alloc, middle, destination)?;
            Ok(Some(Text::from(text)))
        }
        None => Ok(None),
    }
}

/// What a refspec whose source is an id of this kind maps.
fn id_match(
    alloc: Global,
    kind: Kind,
    index: usize,
    spec: &RefSpec,
) -> Result<Option<Match>, NoMemory>
    ensures { IfOk result (λ found. found ≡ words.id_match kind index spec.now) }
{
    let Some(id) = source_id(spec.source()) else {
        return Ok(None);
    };
    if is_exclusion(spec) || !is_of(kind, &id) {
        return Ok(None);
    }
    let rhs = expanded_side(alloc, b"", spec.destination())?;
    Ok(Some(Match {
        lhs: SourceRef::ObjectId(id),
        rhs,
        item_index: None,
        spec_index: index,
    }))
}

/// Names, and which of them an exclusion takes out.
#[derive(Drop)]
struct Names<'a> {
    specs: &'a [RefSpec],
    items: &'a [Item],
    /// Of each item, whether an exclusion matches its name.
    excluded: Vec<bool>,
    ghost tested: { excluded.items ≡ map (λ item. words.is_excluded specs.now item.full_ref_name) items.now },
}

impl<'a> Names<'a> {
    /// Tests each name once against the exclusions.
    fn new(alloc: Global, specs: &'a [RefSpec], items: &'a [Item]) -> Result<Names<'a>, NoMemory>
        ensures specs { IfOk result (λ names. names.specs.now ≡ specs.entry.now) }
        ensures items { IfOk result (λ names. names.items.now ≡ items.entry.now) }
    {
        let mut excluded = Vec::with_capacity(alloc, items.len())?;
        let excludes = has_exclusion(specs);
        for item in items {
            let name = item.full_ref_name.as_bytes();
            excluded.push(is_excluded_if(excludes, specs, name))?;
        }
        Ok(Names {
            specs,
            items,
            excluded,
        })
    }
}

/// What a refspec maps of a name, unless that is excluded.
fn name_match(
    alloc: Global,
    excluded: bool,
    index: usize,
    spec: &RefSpec,
    item: usize,
    name: &[u8],
) -> Result<Option<Match>, NoMemory>
    ensures { IfOk result (λ found. found ≡ words.mapping_unless excluded index spec.now item name.now
        (words.source_taken spec.now.source name.now)) }
{
    let Some(middle) = source_taken(spec.source(), name) else {
        return Ok(None);
    };
    if is_exclusion(spec) || source_id(spec.source()).is_some() || excluded {
        return Ok(None);
    }
    let rhs = expanded_side(alloc, middle, spec.destination())?;
    Ok(Some(Match {
        lhs: SourceRef::FullName(Text::new(alloc, name)?),
        rhs,
        item_index: Some(item),
        spec_index: index,
    }))
}

fn add_some(found: &mut Found, one: Option<Match>) -> Result<(), NoMemory>
    ensures added { OnOk result (found.new.matches ≡ added_all found.old.pairs found.old.matches (words.found one)) }
    ensures pairs { found.new.pairs ≡ found.old.pairs }
{
    match one {
        Some(one) => found.add(one),
        None => Ok(()),
    }
}

fn add_ids(alloc: Global, found: &mut Found, specs: &[RefSpec], kind: Kind) -> Result<(), NoMemory>
    ensures added { OnOk result (found.new.matches ≡ added_all found.old.pairs found.old.matches (words.ids_from kind 0 specs.now)) }
    ensures pairs { found.new.pairs ≡ found.old.pairs }
{
    for i in 0..specs.len() {
        let one = id_match(alloc, kind, i, &specs[i])?;
        add_some(found, one)?;
    }
    Ok(())
}

fn add_names_of(
    alloc: Global,
    found: &mut Found,
    names: &Names<'_>,
    index: usize,
    spec: &RefSpec,
) -> Result<(), NoMemory>
    ensures added { OnOk result (found.new.matches
        ≡ added_all found.old.pairs found.old.matches
        (words.names_from (words.name_matches names.now.specs.now index spec.now) 0
        (map (λ item. item.full_ref_name) names.now.items.now))) }
    ensures pairs { found.new.pairs ≡ found.old.pairs }
{
    let items = names.items;
    for j in 0..items.len() {
        let name = items[j].full_ref_name.as_bytes();
        let one = name_match(alloc, names.excluded[j], index, spec, j, name)?;
        add_some(found, one)?;
    }
    Ok(())
}

/// What a refspec maps of a name that stands at a place.
// Many arguments: those of the call that looks the place up, with the name and the place.
fn add_name_at(
    alloc: Global,
    found: &mut Found,
    names: &Names<'_>,
    index: usize,
    spec: &RefSpec,
    name: &[u8],
    place: Option<usize>,
) -> Result<(), NoMemory>
    requires { place ≡ place_from 0 name.now (map (λ item. item.full_ref_name) names.now.items.now) }
    ensures added { OnOk result (found.new.matches ≡ added_all found.old.pairs found.old.matches
        (matches_at (words.name_matches names.now.specs.now index spec.now) name.now place)) }
    ensures pairs { found.new.pairs ≡ found.old.pairs }
{
    let Some(place) = place else {
        return Ok(());
    };
    let one = name_match(alloc, names.excluded[place], index, spec, place, name)?;
    add_some(found, one)
}

/// What a refspec maps: one name is looked up where there is a map of them.
fn add_names_by(
    alloc: Global,
    found: &mut Found,
    names: &Names<'_>,
    places: &Option<BTreeMap<Text, usize>>,
    index: usize,
    spec: &RefSpec,
) -> Result<(), NoMemory>
    requires { HasPlaces (map (λ item. item.full_ref_name) names.now.items.now) places.now }
    ensures added { OnOk result (found.new.matches
        ≡ added_all found.old.pairs found.old.matches
        (words.names_from (words.name_matches names.now.specs.now index spec.now) 0
        (map (λ item. item.full_ref_name) names.now.items.now))) }
    ensures pairs { found.new.pairs ≡ found.old.pairs }
{
    match (exact_source(spec.source()), places) {
        (Some(name), Some(places)) => {
            let place = place_of(alloc, places, name)?;
            add_name_at(alloc, found, names, index, spec, name, place)
        }
        _ => add_names_of(alloc, found, names, index, spec),
    }
}

fn add_names(
    alloc: Global,
    found: &mut Found,
    specs: &[RefSpec],
    items: &[Item],
) -> Result<(), NoMemory>
    ensures added { OnOk result (found.new.matches ≡ added_all found.old.pairs found.old.matches
        (words.specs_from (words.name_matches specs.now) 0 specs.now (map (λ item. item.full_ref_name) items.now))) }
    ensures pairs { found.new.pairs ≡ found.old.pairs }
{
    let names = Names::new(alloc, specs, items)?;
    let places = places_for(alloc, specs, names.items)?;
    for i in 0..specs.len() {
        add_names_by(alloc, found, &names, &places, i, &specs[i])?;
    }
    Ok(())
}
