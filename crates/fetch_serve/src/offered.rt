//! The references that a server offers.

ghost use Rattle.std.specs.Prelude.{◌≡◌, ◌++◌, nat_eq, not, filter, slice_get, IfOk, OnOk};
ghost use Rattle.std.specs.List.{flat_map, list_any, starts_with};
ghost use Rattle.std.specs.List.Sorted.{IsStrictlySortedBy};
ghost use Rattle.std.specs.Option.{option_copied};
ghost use Rattle.std.specs.Result.{result_ok};
ghost use Rattle.std.specs.Str.{bytes_eq};
ghost use Rattle.fetch_refs.specs.Peeled.{resolved};
ghost use Rattle.fetch_refs.specs.TagEnds.{AreEnds};
ghost use Rattle.fetch_refs.specs.Targets.{seen};
ghost use Rattle.fetch_serve.specs.Offered as spec;
ghost use Rattle.fetch_serve.specs.Parts.{held_by};
ghost use Rattle.fetch_asked.specs.Requests.{has_id};
ghost use Rattle.fetch_store.specs.Borders.{set_of};
ghost use Rattle.fetch_store.specs.Graph.{graph_of};
ghost use Rattle.fetch_base.specs.Id.{id_cmp};

use crate::parts::Parts;
use fetch_lines::Ref;
use fetch_refs::{RefError, TagEnds, TargetRef};
use fetch_replies::make_ref;
use fetch_specs::FullName;
use fetch_store::{NoMemory, ObjectId, Objects, Store, Text, ascending};
use std::alloc::Global;

/// What a tag at this id leads to; nothing of another object.
pub(crate) fn peeled_from(store: &Store, known: &mut TagEnds, id: ObjectId) -> Option<ObjectId>
    requires { AreEnds (graph_of store.now.objects) known.old }
    ensures end { result ≡ spec.peeled_from (graph_of store.now.objects) id }
    ensures known { AreEnds (graph_of store.now.objects) known.new }
{
    if store.tag_target(&id).is_none() {
        return None;
    }
    match known.peel(store, id) {
        Ok(last) => Some(last),
        Err(_) => None,
    }
}

/// The id that a reference leads to by names, where it leads to one.
fn resolved(
    parts: Parts<'_>,
    name: &[u8],
    target: TargetRef<'_>,
) -> Result<Option<ObjectId>, NoMemory>
    ensures { IfOk result (λ found. found ≡ result_ok (resolved (held_by parts.entry).names name.now (seen target.entry))) }
{
    match parts.refs.resolve(name, target) {
        Ok(id) => Ok(Some(id)),
        Err(RefError::NoMemory) => Err(NoMemory),
        Err(_) => Ok(None),
    }
}

fn target_of(target: TargetRef<'_>) -> Option<&[u8]>
    ensures { option_copied result ≡ spec.target_of (seen target.entry) }
{
    match target {
        TargetRef::Object(_) => None,
        TargetRef::Symbolic(name) => Some(name.as_bytes()),
    }
}

/// What a tag at the id leads to, where there is an id.
fn peeled_if(store: &Store, known: &mut TagEnds, id: Option<ObjectId>) -> Option<ObjectId>
    requires { AreEnds (graph_of store.now.objects) known.old }
    ensures end { result ≡ spec.peeled_behind (graph_of store.now.objects) id }
    ensures known { AreEnds (graph_of store.now.objects) known.new }
{
    match id {
        Some(id) => peeled_from(store, known, id),
        None => None,
    }
}

/// The reference as it is listed.
fn listed(
    parts: Parts<'_>,
    known: &mut TagEnds,
    name: &[u8],
    target: TargetRef<'_>,
) -> Result<Option<Ref>, NoMemory>
    requires { AreEnds (graph_of parts.store.now.objects) known.old }
    ensures found { IfOk result (λ found. found ≡ spec.listed (held_by parts.entry) (name.now, seen target.entry)) }
    ensures known { AreEnds (graph_of parts.entry.store.now.objects) known.new }
{
    let id = resolved(parts, name, target)?;
    let peeled = peeled_if(parts.store, known, id);
    make_ref(parts.alloc, name, id, (target_of(target), peeled))
}

#[tactic(auto, unfolding(crate::specs::Offered::head_name))]
fn is_head(name: &[u8]) -> bool
    ensures { result ≡ bytes_eq name.now spec.head_name }
{
    name == b"HEAD".as_slice()
}

#[tactic(auto, unfolding(fetch_specs::specs::Categories::refs))]
fn is_public(name: &[u8]) -> bool
    ensures { result ≡ spec.is_public name.now }
{
    is_head(name) || name.starts_with(b"refs/")
}

fn is_under(prefixes: &[Text], name: &[u8]) -> bool
    ensures { result ≡ spec.is_under prefixes.now name.now }
{
    prefixes.len() == 0 || begins_with_one(prefixes, name)
}

fn begins_with_one(prefixes: &[Text], name: &[u8]) -> bool
    ensures { result ≡ list_any (λ p. starts_with nat_eq name.now p) prefixes.now }
{
    prefixes
        .iter()
        .any(|prefix| name.starts_with(prefix.as_bytes()))
}

/// The reference, where it is told: an unborn one is where it is `HEAD` and was asked for.
fn if_told(unborn: bool, reference: Ref) -> Option<Ref>
    ensures { result ≡ spec.if_told unborn reference }
{
    if is_told(unborn, &reference) {
        Some(reference)
    } else {
        None
    }
}

fn is_told(unborn: bool, reference: &Ref) -> bool
    ensures { result ≡ spec.is_told unborn reference.now }
{
    match reference {
        Ref::Unborn { full_ref_name, .. } => unborn && is_head(full_ref_name.as_bytes()),
        Ref::Direct { .. } | Ref::Symbolic { .. } | Ref::Peeled { .. } => true,
    }
}

/// Which references are asked for.
#[derive(Clone, Copy)]
pub(crate) struct Wanted<'a> {
    /// Whether an unborn `HEAD` is.
    pub unborn: bool,
    /// Prefixes of the names; all, where there is none.
    pub prefixes: &'a [Text],
}

/// The reference, where it is offered.
fn offer(
    parts: Parts<'_>,
    known: &mut TagEnds,
    wanted: Wanted<'_>,
    name: &[u8],
    target: TargetRef<'_>,
) -> Result<Option<Ref>, NoMemory>
    requires { AreEnds (graph_of parts.store.now.objects) known.old }
    ensures found { IfOk result (λ found.
        found ≡ spec.offer (held_by parts.entry) wanted.entry.unborn wanted.entry.prefixes.now (name.now, seen target.entry)) }
    ensures known { AreEnds (graph_of parts.entry.store.now.objects) known.new }
{
    if !is_public(name) || !is_under(wanted.prefixes, name) {
        return Ok(None);
    }
    match listed(parts, known, name, target)? {
        Some(reference) => Ok(if_told(wanted.unborn, reference)),
        None => Ok(None),
    }
}

/// The references that are offered, `HEAD` first, and then by ascending name.
pub(crate) fn offered(parts: Parts<'_>, wanted: Wanted<'_>) -> Result<Vec<Ref>, NoMemory>
    ensures { IfOk result (λ found. found.items ≡ spec.offered_of (held_by parts.entry) wanted.entry.unborn wanted.entry.prefixes.now) }
{
    let mut found = Vec::new(parts.alloc);
    let mut references = parts.refs.iter();
    let mut known = TagEnds::new(parts.alloc);
    while let Some((name, target)) = references.next() {
        if FullName::is_valid(name) {
            if let Some(reference) = offer(parts, &mut known, wanted, name, target)? {
                found.push(reference)?;
            }
        }
    }
    Ok(found)
}

/// The ids that may be wanted, of the references that are offered: ascending, each once.
fn offered_ids(alloc: Global, references: &[Ref]) -> Result<Vec<ObjectId>, NoMemory>
    ensures ascending { IfOk result (λ ids. IsStrictlySortedBy id_cmp ids.items) }
    ensures each { IfOk result (λ ids. set_of ids.items ≡ set_of (flat_map spec.ids_in references.now)) }
{
    let mut ids = Vec::new(alloc);
    for reference in references {
        append_ids_in(&mut ids, reference)?;
    }
    Ok(ascending(ids))
}

/// Appends the ids of a reference.
pub(crate) fn append_ids_in(ids: &mut Vec<ObjectId>, reference: &Ref) -> Result<(), NoMemory>
    ensures { OnOk result (ids.new.items ≡ ids.old.items ++ spec.ids_in reference.now) }
{
    let (_, id, peeled) = reference.unpack();
    append_some(ids, id)?;
    append_some(ids, peeled)
}

/// Appends the id, if there is one.
fn append_some(ids: &mut Vec<ObjectId>, id: Option<&ObjectId>) -> Result<(), NoMemory>
    ensures { OnOk result (ids.new.items ≡ ids.old.items ++ spec.some_of (option_copied id.entry)) }
{
    if let Some(id) = id {
        ids.push(*id)?;
    }
    Ok(())
}

/// Whether an id is among ascending ids.
pub(crate) fn stands_among(id: &ObjectId, ids: &[ObjectId]) -> bool
    requires { IsStrictlySortedBy id_cmp ids.now }
    ensures { result ≡ has_id id.now ids.now }
{
    ids.binary_search(id).is_ok()
}

/// The first of the wants that isn't among the ascending ids.
fn first_outside(ids: &[ObjectId], wants: &[ObjectId]) -> Option<ObjectId>
    requires { IsStrictlySortedBy id_cmp ids.now }
    ensures { result ≡ slice_get (filter (λ id. not (has_id id ids.now)) wants.now) 0 }
{
    for id in wants {
        if !stands_among(id, ids) {
            return Some(*id);
        }
    }
    None
}

/// The first of the wants that none of these references offers.
pub(crate) fn first_unoffered(
    alloc: Global,
    references: &[Ref],
    wants: &[ObjectId],
) -> Result<Option<ObjectId>, NoMemory>
    ensures { IfOk result (λ found. found ≡ slice_get (filter (λ id. not (has_id id (flat_map spec.ids_in references.now))) wants.now) 0) }
{
    let ids = offered_ids(alloc, references)?;
    Ok(first_outside(&ids, wants))
}
