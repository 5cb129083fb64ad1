//! What can be reached in a repository: a mark for each stored id tells those that were found.

ghost use Rattle.std.specs.Prelude.{◌≡◌, ◌↔◌, ◌+◌, ◌++◌, ◌∷◌, ◌≤◌, ◌<◌, [], true, false, if◌then◌else◌};
ghost use Rattle.std.specs.Prelude.{filter, get_or, length, not, set, sum_by, IfOk, OnOk, Contains};
ghost use Rattle.std.specs.FinMap as map;
ghost use Rattle.std.specs.List.Sorted.{IsStrictlySortedBy};
ghost use Rattle.fetch_base.specs.declared.id.ObjectId.{ObjectId as Id};
ghost use Rattle.fetch_store.specs.Closed.{Reached, holding, links_at};
ghost use Rattle.fetch_store.specs.Found.{with_each};
ghost use Rattle.fetch_store.specs.Marks.{AreMarked, ids_at, is_among};
ghost use Rattle.fetch_objects.specs.References.{ids_left};
ghost use Rattle.fetch_store.specs.Spread.{next_to, nexts_in};
ghost use Rattle.fetch_base.specs.Id.{id_cmp};

use crate::border::Border;
use crate::missing::links_within;
use crate::store::Store;
use fetch_base::{List, NoMemory, ObjectId, Steps};
use fetch_objects::Links;
use std::alloc::Global;
use std::sync::ledger::Ledger;

/// The stored ids that are reached from the starts by links, parents of border commits aside: each once, in ascending
/// order. A start that isn't stored reaches nothing. A step is one look-up: of a start, or of a link of an object that
/// is reached. Steps only grow, also where memory runs out. It takes memory for a mark of each stored id, and for the
/// places and the ids of those that are reached.
pub fn reached<L: Ledger>(
    alloc: Global,
    store: &Store,
    border: &Border,
    starts: &[ObjectId],
    steps: &mut Steps<L>,
) -> Result<List<ObjectId>, NoMemory>
    ensures ids { IfOk result (λ ids. (id : Id) → Contains ids id ↔ Reached (holding store.now.objects border.now) starts.now id) }
    ensures ascending { IfOk result (λ ids. IsStrictlySortedBy id_cmp ids) }
    ensures cost { IfOk result (λ ids. steps.new
        ≤ steps.old + (length starts.now + sum_by (λ id. length (links_at (holding store.now.objects border.now) id)) ids)) }
    ensures grows { steps.old ≤ steps.new }
{
    let mut found = none_found(alloc, store)?;
    for id in starts {
        steps.tick();
        add(store, &mut found, id)?;
    }
    let mut done = 0;
    'walk: while done < found.places.len() {
        let place = found.places[done];
        add_links(store, links_of(store, border, place), &mut found, steps)?;
        done += 1;
    }
    let ids = ids_found(alloc, store, &found)?;
    Ok(List::from(ids))
}

/// The places of stored ids that were found, each once, in the order in which they came, and for each stored id whether
/// it was found.
#[derive(Drop)]
struct Found {
    places: Vec<usize>,
    marks: Vec<bool>,
}

/// No id is found.
fn none_found(alloc: Global, store: &Store) -> Result<Found, NoMemory>
    ensures places { IfOk result (λ found. found.places.items ≡ []) }
    ensures marked { IfOk result (λ found. AreMarked (map.keys store.now.objects) found.marks.items found.places.items) }
{
    let marks = vec![in alloc; false; store.len()]?;
    let places = Vec::new(alloc);
    Ok(Found { places, marks })
}

/// Adds an id, where it is stored and wasn't found.
fn add(store: &Store, found: &mut Found, id: &ObjectId) -> Result<(), NoMemory>
    requires { AreMarked (map.keys store.now.objects) found.old.marks.items found.old.places.items }
    ensures found { OnOk result (let stored = map.keys store.now.objects in ids_at stored found.new.places.items
        ≡ with_each (ids_at stored found.old.places.items) (if map.contains_key store.now.objects id.now then id.now ∷ [] else [])) }
    ensures marked { OnOk result (AreMarked (map.keys store.now.objects) found.new.marks.items found.new.places.items) }
{
    match store.place_of(id) {
        Some(place) => mark(found, place),
        None => Ok(()),
    }
}

/// Adds a place, unless it is marked, and marks it.
fn mark(found: &mut Found, place: usize) -> Result<(), NoMemory>
    requires { place < length found.old.marks.items }
    ensures places { OnOk result (found.new.places.items
        ≡ if not (get_or found.old.marks.items place false) then found.old.places.items ++ place ∷ [] else found.old.places.items) }
    ensures marks { OnOk result (found.new.marks.items ≡ set found.old.marks.items place true) }
{
    let is_new = !found.marks[place];
    push_if(is_new, &mut found.places, place)?;
    found.marks[place] = true;
    Ok(())
}

/// Puts a value after the others, where it is wanted.
fn push_if<V: Copy>(is_wanted: bool, values: &mut Vec<V>, value: V) -> Result<(), NoMemory>
    ensures { OnOk result (values.new.items ≡ if is_wanted then values.old.items ++ value ∷ [] else values.old.items) }
{
    if is_wanted {
        values.push(value)?;
    }
    Ok(())
}

/// The links of the object at a place, parents of a border commit aside.
fn links_of<'a>(store: &'a Store, border: &Border, place: usize) -> Links<'a>
    requires { place < map.len store.now.objects }
    ensures { (d : Id) → ids_left result
        ≡ next_to (nexts_in (holding store.now.objects border.now)) (get_or (map.keys store.now.objects) place d) }
{
    let (id, object) = store.at(place);
    links_within(object, border.contains(&id))
}

/// Adds what these links lead to.
fn add_links<L: Ledger>(
    store: &Store,
    links: Links<'_>,
    found: &mut Found,
    steps: &mut Steps<L>,
) -> Result<(), NoMemory>
    requires { AreMarked (map.keys store.now.objects) found.old.marks.items found.old.places.items }
    ensures found { OnOk result (let stored = map.keys store.now.objects in ids_at stored found.new.places.items
        ≡ with_each (ids_at stored found.old.places.items) (filter (map.contains_key store.now.objects) (ids_left links.entry))) }
    ensures marked { OnOk result (AreMarked (map.keys store.now.objects) found.new.marks.items found.new.places.items) }
    ensures steps { OnOk result (steps.new ≡ steps.old + length (ids_left links.entry)) }
    ensures grows { steps.old ≤ steps.new }
{
    let mut links = links;
    'links: while let Some(to) = links.next() {
        steps.tick();
        add(store, found, &to)?;
    }
    Ok(())
}

/// The ids that were found, in the order of those that are stored.
fn ids_found(alloc: Global, store: &Store, found: &Found) -> Result<Vec<ObjectId>, NoMemory>
    requires { AreMarked (map.keys store.now.objects) found.now.marks.items found.now.places.items }
    ensures { IfOk result (λ ids. let stored = map.keys store.now.objects in
        ids.items ≡ filter (λ id. is_among id (ids_at stored found.now.places.items)) stored) }
{
    let mut ids = Vec::with_capacity(alloc, found.places.len())?;
    for place in 0..found.marks.len() {
        let is_found = found.marks[place];
        let (id, _) = store.at(place);
        push_if(is_found, &mut ids, id)?;
    }
    Ok(ids)
}
