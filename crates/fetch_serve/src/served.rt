//! The objects that a fetch request is answered by.

ghost use Rattle.std.specs.Prelude.{◌≡◌, ◌++◌, ◌↔◌, [], All, Contains, IfOk, OnOk, filter, false, nat_eq};
ghost use Rattle.std.specs.FinMap as finmap;
ghost use Rattle.std.specs.List.{flat_map, starts_with};
ghost use Rattle.std.specs.List.Sorted.{IsStrictlySortedBy};
ghost use Rattle.std.specs.Option.{option_copied};
ghost use Rattle.fetch_reach.specs.Named.{IsOwnId};
ghost use Rattle.fetch_serve.specs.Offered.{offered_of};
ghost use Rattle.fetch_serve.specs.Packs as spec;
ghost use Rattle.fetch_serve.specs.Depths as depths;
ghost use Rattle.fetch_serve.specs.Packs.{IsNeeded, served_at};
ghost use Rattle.fetch_serve.specs.Parts.{held_by};
ghost use Rattle.fetch_asked.specs.Requests.{has_id};
ghost use Rattle.fetch_serve.specs.Servable.{IsServable};
ghost use Rattle.fetch_store.specs.Borders.{merged};
ghost use Rattle.fetch_store.specs.Graph.{graph_of};
ghost use Rattle.fetch_base.specs.Id.{id_cmp};
ghost use Rattle.fetch_base.specs.declared.id.ObjectId.{ObjectId as Id};

use crate::depth::{Depth, append_all};
use crate::offered::stands_among;
use crate::parts::Parts;
use fetch_asked::FetchAsked;
use fetch_lines::Ref;
use fetch_reach::{difference, reached_from, union};
use fetch_store::{Border, List, NoMemory, ObjectId, Objects, Store};
use std::alloc::Global;

/// The haves that are stored, in their order.
pub(crate) fn known(
    alloc: Global,
    store: &Store,
    haves: &[ObjectId],
) -> Result<List<ObjectId>, NoMemory>
    ensures { IfOk result (λ ids. ids ≡ spec.stored_in store.now.objects haves.now) }
{
    let mut ids = List::new(alloc);
    for id in haves {
        if store.contains(id) {
            ids.push(*id)?;
        }
    }
    Ok(ids)
}

/// The border that a request was sent with.
pub(crate) fn border_of(alloc: Global, asked: &FetchAsked) -> Result<Border, NoMemory>
    ensures { IfOk result (λ border. border ≡ depths.border_of asked.now) }
{
    match Border::from_ids(alloc, asked.border.as_slice()) {
        Ok(border) => Ok(border),
        Err(_) => Err(NoMemory),
    }
}

/// The border that the client will have.
fn border_after(alloc: Global, border: &Border, depth: &Depth) -> Result<Border, NoMemory>
    ensures { IfOk result (λ after. after ≡ merged border.now depth.now.shallow depth.now.unshallow) }
{
    let (shallow, unshallow) = (depth.shallow.as_slice(), depth.unshallow.as_slice());
    match border.merged(alloc, shallow, unshallow) {
        Ok(after) => Ok(after),
        Err(_) => Err(NoMemory),
    }
}

/// Appends the parents of these commits.
fn append_parents_of(
    store: &Store,
    ids: &[ObjectId],
    into: &mut Vec<ObjectId>,
) -> Result<(), NoMemory>
    ensures { OnOk result (into.new.items ≡ into.old.items ++ flat_map (depths.parents_in (graph_of store.now.objects)) ids.now) }
{
    for id in ids {
        append_all(into, store.parents(id))?;
    }
    Ok(())
}

/// Where the pack begins.
fn starts(parts: Parts<'_>, asked: &FetchAsked, depth: &Depth) -> Result<Vec<ObjectId>, NoMemory>
    ensures { IfOk result (λ ids. ids.items ≡ spec.starts_of (held_by parts.entry) asked.now depth.now) }
{
    let mut ids = Vec::from_slice(parts.alloc, asked.wants.as_slice())?;
    ids.extend_from_slice(depth.kept.as_slice())?;
    append_parents_of(parts.store, depth.unshallow.as_slice(), &mut ids)?;
    Ok(ids)
}

/// What is needed, ascending.
fn needed(
    parts: Parts<'_>,
    asked: &FetchAsked,
    border: &Border,
    depth: &Depth,
) -> Result<List<ObjectId>, NoMemory>
    requires { border.now ≡ depths.border_of asked.now }
    ensures each { IfOk result (λ ids. (id : Id) → Contains ids id ↔ IsNeeded (held_by parts.entry) asked.now depth.now id) }
    ensures ascending { IfOk result (λ ids. IsStrictlySortedBy id_cmp ids) }
{
    let (alloc, store) = (parts.alloc, parts.store);
    let after = border_after(alloc, border, depth)?;
    let starts = starts(parts, asked, depth)?;
    let all = reached_from(alloc, store, &after, &starts)?;
    let haves = known(alloc, store, asked.haves.as_slice())?;
    let held = reached_from(alloc, store, border, haves.as_slice())?;
    difference(alloc, all.as_slice(), held.as_slice())
}

/// Appends the tags from an id on.
fn append_tags(store: &Store, first: ObjectId, ids: &mut Vec<ObjectId>) -> Result<(), NoMemory>
    ensures { OnOk result (ids.new.items ≡ ids.old.items ++
        spec.tags_from (graph_of store.now.objects) (finmap.len (graph_of store.now.objects)) first) }
{
    let mut id = first;
    let mut left = store.len();
    'tags: while left > 0 {
        match store.tag_target(&id) {
            Some(next) => {
                ids.push(id)?;
                id = next;
                left -= 1;
            }
            None => return Ok(()),
        }
    }
    Ok(())
}

#[tactic(auto, unfolding(crate::specs::Packs::tags_prefix))]
fn is_tag_name(name: &[u8]) -> bool
    ensures { result ≡ starts_with nat_eq name.now spec.tags_prefix }
{
    name.starts_with(b"refs/tags/")
}

/// Whether an id, if there is one, is among ascending ids.
fn is_needed(needed: &[ObjectId], last: Option<&ObjectId>) -> bool
    requires { IsStrictlySortedBy id_cmp needed.now }
    ensures { result ≡ spec.is_some_of (λ id. has_id id needed.now) (option_copied last.entry) }
{
    match last {
        Some(last) => stands_among(last, needed),
        None => false,
    }
}

/// Appends the tags from an id on, if there is one.
fn append_tags_at(
    store: &Store,
    first: Option<&ObjectId>,
    ids: &mut Vec<ObjectId>,
) -> Result<(), NoMemory>
    ensures { OnOk result (ids.new.items ≡ ids.old.items ++ spec.tags_at (graph_of store.now.objects) (option_copied first.entry)) }
{
    match first {
        Some(first) => append_tags(store, *first, ids),
        None => Ok(()),
    }
}

/// Appends the tags on the way of a reference, where it is a tag that leads to what is needed.
fn append_tags_of(
    store: &Store,
    needed: &[ObjectId],
    reference: &Ref,
    ids: &mut Vec<ObjectId>,
) -> Result<(), NoMemory>
    requires { IsStrictlySortedBy id_cmp needed.now }
    ensures { OnOk result (ids.new.items ≡ ids.old.items ++
        spec.tags_of (graph_of store.now.objects) (λ id. has_id id needed.now) reference.now) }
{
    let (name, first, last) = reference.unpack();
    if is_tag_name(name) && is_needed(needed, last) {
        return append_tags_at(store, first, ids);
    }
    Ok(())
}

/// The tags on the ways of references that lead to what is needed.
fn tags_along(
    parts: Parts<'_>,
    needed: &[ObjectId],
    references: &[Ref],
) -> Result<Vec<ObjectId>, NoMemory>
    requires { IsStrictlySortedBy id_cmp needed.now }
    ensures { IfOk result (λ ids. ids.items ≡
        flat_map (spec.tags_of (graph_of (held_by parts.entry).objects) (λ id. has_id id needed.now)) references.now) }
{
    let mut ids = Vec::new(parts.alloc);
    for reference in references {
        append_tags_of(parts.store, needed, reference, &mut ids)?;
    }
    Ok(ids)
}

/// What is served, ascending, where these references are offered.
pub(crate) fn served(
    parts: Parts<'_>,
    asked: &FetchAsked,
    border: &Border,
    depth: &Depth,
    references: &[Ref],
) -> Result<List<ObjectId>, NoMemory>
    requires servable { IsServable (held_by parts) }
    requires border { border.now ≡ depths.border_of asked.now }
    requires offered { references.now ≡ offered_of (held_by parts) false [] }
    ensures { IfOk result (λ ids. ids ≡ served_at (held_by parts.entry) asked.now depth.now) }
{
    let needed = needed(parts, asked, border, depth)?;
    if !asked.include_tag {
        return Ok(needed);
    }
    let tags = tags_along(parts, needed.as_slice(), references)?;
    union(parts.alloc, needed.as_slice(), tags.as_slice())
}
