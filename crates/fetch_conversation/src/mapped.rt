//! Which references of a remote go where.

ghost use Rattle.std.specs.Prelude.{◌≡◌, ◌++◌, ◌∷◌, [], map, IfOk, IfErr, OnOk};
ghost use Rattle.std.specs.List.{filter_map};
ghost use Rattle.fetch_specs.specs.Conflicts.{conflicts_of};
ghost use Rattle.fetch_specs.specs.Matches.{mappings_of};
ghost use Rattle.fetch_conversation.specs.Listing.{TellsConflicts};
ghost use Rattle.fetch_lines.specs.References.{name_in};
ghost use Rattle.fetch_conversation.specs.Mapped.{taken_by, index_among, mapping_by, ref_mappings};

use crate::ref_map;
use fetch_specs::{Item, Match, MatchGroup, RefSpec, SourceRef, validate};
use fetch_store::{Kind, List, NoMemory, Text};
use fetch_wire::{Mapping, Ref, Source, SpecIndex};
use std::alloc::Global;

/// The mappings of what is listed, by refspecs of which that many are the remote's, and the others extra ones.
/// Two different sources may not lead to one destination.
#[tactic(auto, unfolding(crate::specs::Mapped::ref_mappings))]
pub(crate) fn map_refs(
    alloc: Global,
    remote: usize,
    specs: &[RefSpec],
    kind: Kind,
    refs: &[Ref],
) -> Result<Vec<Mapping>, ref_map::Error>
    ensures mapped { IfOk result (λ mappings. mappings.items ≡ ref_mappings remote specs.now kind refs.now) }
    ensures clear { OnOk result (conflicts_of (mappings_of specs.now (map name_in refs.now) kind) ≡ []) }
    ensures refused { IfErr result (λ e. TellsConflicts (conflicts_of (mappings_of specs.now (map name_in refs.now) kind)) e) }
{
    let items = items_of(alloc, refs)?;
    let matches = match_items(alloc, specs, &items, kind)?;
    refuse_conflicts(alloc, &matches)?;
    Ok(mappings_of_matches(alloc, remote, refs, &matches)?)
}

/// No destination has two different sources.
fn refuse_conflicts(alloc: Global, matches: &[Match]) -> Result<(), ref_map::Error>
    ensures clear { OnOk result (conflicts_of matches.now ≡ []) }
    ensures refused { IfErr result (λ e. TellsConflicts (conflicts_of matches.now) e) }
{
    match validate(alloc, matches) {
        Ok(conflicts) if conflicts.is_empty() => Ok(()),
        Ok(conflicts) => Err(ref_map::Error::InitRefMap(List::from(conflicts))),
        Err(_) => Err(ref_map::Error::NoMemory),
    }
}

fn match_items(
    alloc: Global,
    specs: &[RefSpec],
    items: &[Item],
    kind: Kind,
) -> Result<Vec<Match>, NoMemory>
    ensures { IfOk result (λ found. found.items ≡ mappings_of specs.now (map (λ item. item.full_ref_name) items.now) kind) }
{
    let group = MatchGroup::from_fetch_specs(specs);
    match group.match_lhs(alloc, items, kind) {
        Ok(found) => Ok(found),
        Err(_) => Err(NoMemory),
    }
}

fn items_of(alloc: Global, refs: &[Ref]) -> Result<Vec<Item>, NoMemory>
    ensures { IfOk result (λ items. map (λ item. item.full_ref_name) items.items ≡ map name_in refs.now) }
{
    let mut items = Vec::new(alloc);
    for reference in refs {
        let full_ref_name = Text::new(alloc, reference.unpack().0)?;
        items.push(Item { full_ref_name })?;
    }
    Ok(items)
}

fn mappings_of_matches(
    alloc: Global,
    remote: usize,
    refs: &[Ref],
    matches: &[Match],
) -> Result<Vec<Mapping>, NoMemory>
    ensures { IfOk result (λ mappings. mappings.items ≡ filter_map (mapping_by remote refs.now) matches.now) }
{
    let mut mappings = Vec::new(alloc);
    for found in matches {
        add_mapping(&mut mappings, remote, refs, found)?;
    }
    Ok(mappings)
}

fn add_mapping(
    mappings: &mut Vec<Mapping>,
    remote: usize,
    refs: &[Ref],
    found: &Match,
) -> Result<(), NoMemory>
    ensures { OnOk result (mappings.new.items ≡ mappings.old.items ++ filter_map (mapping_by remote refs.now) (found.now ∷ [])) }
{
    match mapping(remote, refs, found)? {
        Some(mapping) => {
            mappings.push(mapping)?;
            Ok(())
        }
        None => Ok(()),
    }
}

fn mapping(remote: usize, refs: &[Ref], found: &Match) -> Result<Option<Mapping>, NoMemory>
    ensures { IfOk result (λ mapping. mapping ≡ mapping_by remote refs.now found.now) }
{
    match source(refs, &found.lhs, found.item_index)? {
        Some(source) => Ok(Some(Mapping {
            remote: source,
            local: copied(&found.rhs)?,
            spec_index: index_among(remote, found.spec_index),
        })),
        None => Ok(None),
    }
}

/// What a match takes: an id, or the listed reference at its index.
fn source(refs: &[Ref], lhs: &SourceRef, index: Option<usize>) -> Result<Option<Source>, NoMemory>
    ensures { IfOk result (λ source. source ≡ taken_by refs.now lhs.now index) }
{
    match (lhs, index) {
        (SourceRef::ObjectId(id), _) => Ok(Some(Source::ObjectId(*id))),
        (SourceRef::FullName(_), None) => Ok(None),
        (SourceRef::FullName(_), Some(index)) => match refs.get(index) {
            Some(reference) => Ok(Some(Source::Ref(reference.try_clone()?))),
            None => Ok(None),
        },
    }
}

fn copied(text: &Option<Text>) -> Result<Option<Text>, NoMemory>
    ensures { IfOk result (λ copy. copy ≡ text.now) }
{
    match text {
        Some(text) => Ok(Some(text.try_clone()?)),
        None => Ok(None),
    }
}

fn index_among(remote: usize, index: usize) -> SpecIndex
    ensures { result ≡ index_among remote index }
{
    if index < remote {
        SpecIndex::ExplicitInRemote(index)
    } else {
        SpecIndex::Implicit(index - remote)
    }
}
