//! Which ids a fetch asks for.

ghost use Rattle.std.specs.Prelude.{◌≡◌, IfOk, not, ◌&&◌, is_some, Some, None, if◌then◌else◌};
ghost use Rattle.std.specs.FinMap as finmap;
ghost use Rattle.std.specs.List.{filter_map};
ghost use Rattle.std.specs.Option.{option_and_then};
ghost use Rattle.fetch_negotiate.specs.Requests as asked;
ghost use Rattle.fetch_negotiate.specs.Wants as spec;
ghost use Rattle.fetch_negotiate.specs.Wants.{wants_of};

use crate::algorithm::Shallow;
use crate::once::each_once;
use crate::request::is_included;
use fetch_map::{Mapping, RefMap, SpecIndex};
use fetch_specs::{RefSpec, Tags};
use fetch_store::{NoMemory, ObjectId, Objects};
use std::alloc::Global;

/// The ids that the mappings ask for, in their order and each once. The implicit tags are left out, and without a
/// change of depth what is stored is too.
#[tactic(auto, unfolding(crate::specs::Wants::wants_of))]
pub fn wants<O: Objects>(
    alloc: Global,
    map: &RefMap,
    tags: Tags,
    shallow: &Shallow,
    objects: &O,
) -> Result<Vec<ObjectId>, NoMemory>
    ensures { IfOk result (λ wants. wants.items ≡ wants_of map.now tags shallow.now (O.graph objects.now)) }
{
    let mappings = map.mappings.as_slice();
    let extra = map.extra_refspecs.as_slice();
    let ids = mapped(alloc, mappings, extra, tags, shallow, objects)?;
    each_once(alloc, ids.as_slice())
}

fn mapped<O: Objects>(
    alloc: Global,
    mappings: &[Mapping],
    extra: &[RefSpec],
    tags: Tags,
    shallow: &Shallow,
    objects: &O,
) -> Result<Vec<ObjectId>, NoMemory>
    ensures { IfOk result (λ ids. ids.items ≡ filter_map (spec.want_in tags shallow.now (O.graph objects.now) extra.now) mappings.now) }
{
    let mut ids = Vec::new(alloc);
    for mapping in mappings {
        if let Some(id) = want(mapping, extra, tags, shallow, objects) {
            ids.push(id)?;
        }
    }
    Ok(ids)
}

fn want<O: Objects>(
    mapping: &Mapping,
    extra: &[RefSpec],
    tags: Tags,
    shallow: &Shallow,
    objects: &O,
) -> Option<ObjectId>
    ensures { result ≡ spec.want_in tags shallow.now (O.graph objects.now) extra.now mapping.now }
{
    if is_aside(mapping, extra, tags) {
        return None;
    }
    match mapping.remote.as_id() {
        Some(id) => want_id(id, shallow, objects),
        None => None,
    }
}

fn want_id<O: Objects>(id: &ObjectId, shallow: &Shallow, objects: &O) -> Option<ObjectId>
    ensures { result ≡ (if spec.is_wanted shallow.now (O.graph objects.now) id.now then Some id.now else None) }
{
    if is_wanted(id, shallow, objects) {
        Some(*id)
    } else {
        None
    }
}

fn is_wanted<O: Objects>(id: &ObjectId, shallow: &Shallow, objects: &O) -> bool
    ensures { result ≡ spec.is_wanted shallow.now (O.graph objects.now) id.now }
{
    match shallow {
        Shallow::NoChange => objects.kind_of(id).is_none(),
        Shallow::DepthAtRemote(_) => true,
        Shallow::Deepen(_) => true,
        Shallow::Since { .. } => true,
        Shallow::Exclude { .. } => true,
    }
}

fn is_aside(mapping: &Mapping, extra: &[RefSpec], tags: Tags) -> bool
    ensures { result ≡ (asked.is_included tags && spec.is_tag_index mapping.now.spec_index extra.now) }
{
    is_included(tags) && is_tag_index(mapping.spec_index, extra)
}

fn is_tag_index(index: SpecIndex, extra: &[RefSpec]) -> bool
    ensures { result ≡ spec.is_tag_index index extra.now }
{
    match index {
        SpecIndex::ExplicitInRemote(_) => false,
        SpecIndex::Implicit(index) => match extra.get(index) {
            Some(spec) => spec.is_all_tags(),
            None => false,
        },
    }
}
