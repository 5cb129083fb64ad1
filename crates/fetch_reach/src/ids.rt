//! Ascending lists of ids, taken as sets.

ghost use Rattle.std.specs.Prelude.{◌≡◌, ◌⊎◌, ◌↔◌, ◌<◌, ◌≤◌, ℕ, IfOk, IsTrue, true, false, not, filter, get_or, length, Contains};
ghost use Rattle.std.specs.List.Sorted.{IsStrictlySortedBy};
ghost use Rattle.std.specs.Ordering.{is_lt};
ghost use Rattle.fetch_base.specs.declared.id.ObjectId.{ObjectId as Id};
ghost use Rattle.fetch_store.specs.Borders.{ids_of, set_of};
ghost use Rattle.fetch_base.specs.Id.{id_cmp};
ghost use Rattle.fetch_reach.specs.Sets.{is_among};

use fetch_store::{List, NoMemory, ObjectId, ascending, same_id};
use std::alloc::Global;

/// The ids of one list that the other doesn't have. Both are ascending, each id once, and so is the answer. It is one
/// walk along both.
pub fn difference(
    alloc: Global,
    ids: &[ObjectId],
    without: &[ObjectId],
) -> Result<List<ObjectId>, NoMemory>
    requires ids { IsStrictlySortedBy id_cmp ids.now }
    requires without { IsStrictlySortedBy id_cmp without.now }
    ensures ids { IfOk result (λ left. left ≡ filter (λ id. not (is_among id without.now)) ids.now) }
    ensures each { IfOk result (λ left. (id : Id) → Contains left id ↔ (Contains ids.now id × ¬ Contains without.now id)) }
    ensures ascending { IfOk result (λ left. IsStrictlySortedBy id_cmp left) }
{
    let mut left = List::new(alloc);
    let mut place = 0;
    for id in ids {
        place = first_not_below(without, place, id);
        if !stands_at(without, place, id) {
            left.push(*id)?;
        }
    }
    Ok(left)
}

/// The first place, from this one on, of an id that isn't less than this one; the length where there is none.
fn first_not_below(ids: &[ObjectId], from: usize, id: &ObjectId) -> usize
    requires { from ≤ length ids.now }
    ensures within { (from ≤ result) × (result ≤ length ids.now) }
    ensures below { (k : ℕ) (d : Id) → from ≤ k → k < result → is_lt (id_cmp (get_or ids.now k d) id.now) ≡ true }
    ensures at { (d : Id) → result < length ids.now → is_lt (id_cmp (get_or ids.now result d) id.now) ≡ false }
{
    for place in from..ids.len() {
        if !ids[place].cmp(id).is_lt() {
            return place;
        }
    }
    ids.len()
}

/// Whether the id stands at this place.
fn stands_at(ids: &[ObjectId], place: usize, id: &ObjectId) -> bool
    ensures { IsTrue result ↔ ((place < length ids.now) × (get_or ids.now place id.now ≡ id.now)) }
{
    place < ids.len() && same_id(&ids[place], id)
}

/// The ids of both lists, in whatever order they stand there, each once and in ascending order.
pub fn union(
    alloc: Global,
    ids: &[ObjectId],
    others: &[ObjectId],
) -> Result<List<ObjectId>, NoMemory>
    ensures each { IfOk result (λ all. (id : Id) → Contains all id ↔ (Contains ids.now id ⊎ Contains others.now id)) }
    ensures ascending { IfOk result (λ all. IsStrictlySortedBy id_cmp all) }
{
    let mut all = Vec::from_slice(alloc, ids)?;
    all.extend_from_slice(others)?;
    Ok(List::from(ascending(all)))
}
