//! Lists of ids, each with a value.

ghost use Rattle.std.specs.Prelude.{◌≡◌, ◌<◌, ◌≤◌, ◌+◌, ◌*◌, ◌^◌, ◌++◌, ◌∷◌, [], ℕ, All, Contains, None, get_or, is_some, length};
ghost use Rattle.std.specs.Prelude.{IfSome, IsTrue, MatchOption, vec_len, vec_capacity};
ghost use Rattle.std.specs.FinMap as map;
ghost use Rattle.std.specs.declared.cmp.Ordering.TheVariants.{Less, Greater};
ghost use Rattle.std.specs.Option.{option_copied};
ghost use Rattle.fetch_base.specs.declared.id.ObjectId.{ObjectId};
ghost use Rattle.fetch_store.specs.Entries.{IsInOrder, Surrounds, ends_above};
ghost use Rattle.fetch_base.specs.Id.{id_cmp};

use fetch_base::{ObjectId, Steps};
use std::sync::ledger::Ledger;

/// The value at an id. Where it doesn't stand between two places that are guessed, all entries are searched.
pub(crate) fn find_in_order<'a, X>(
    entries: &'a [(ObjectId, X)],
    near: (usize, usize),
    id: &ObjectId,
) -> Option<&'a X>
    requires { IsInOrder entries.now }
    ensures { option_copied result ≡ map.find id_cmp id.now entries.now }
{
    match place_in_order(entries, near, id) {
        Some(place) => Some(&entries[place].1),
        None => None,
    }
}

/// Where an id stands. Where it doesn't stand between two places that are guessed, all entries are searched.
pub(crate) fn place_in_order<X>(
    entries: &[(ObjectId, X)],
    near: (usize, usize),
    id: &ObjectId,
) -> Option<usize>
    requires { IsInOrder entries.now }
    ensures within { IfSome result (λ place. place < length entries.now) }
    ensures place { MatchOption result (map.find id_cmp id.now entries.now ≡ None)
        (λ place. (d : ObjectId × X) → (get_or entries.now place d).0 ≡ id.now) }
{
    let (low, high) = bounds(entries, near, id);
    let mut low = low;
    let mut high = high;
    while low < high {
        let middle = low + (high - low) / 2;
        let (key, _) = &entries[middle];
        let order = id.cmp(key);
        if order.is_eq() {
            return Some(middle);
        }
        if order.is_lt() {
            high = middle;
            continue;
        }
        low = middle + 1;
    }
    None
}

/// Two places, before which ids are less and from which on they are greater: those that are guessed, or else the ends.
fn bounds<X>(entries: &[(ObjectId, X)], near: (usize, usize), id: &ObjectId) -> (usize, usize)
    requires { IsInOrder entries.now }
    ensures { Surrounds entries.now id.now result.0 result.1 }
{
    let (low, high) = near;
    if low <= high && high <= entries.len() {
        if rises_to(entries, low, id) && rises_from(entries, high, id) {
            return (low, high);
        }
    }
    (0, entries.len())
}

/// Whether an id is greater than those before a place.
fn rises_to<X>(entries: &[(ObjectId, X)], place: usize, id: &ObjectId) -> bool
    requires in_order { IsInOrder entries.now }
    requires within { place ≤ length entries.now }
    ensures { IsTrue result → (k : ℕ) (d : ObjectId × X) → k < place → id_cmp (get_or entries.now k d).0 id.now ≡ Less }
{
    if place == 0 {
        return true;
    }
    let (key, _) = &entries[place - 1];
    id.cmp(key).is_gt()
}

/// Whether an id is less than those from a place on.
fn rises_from<X>(entries: &[(ObjectId, X)], place: usize, id: &ObjectId) -> bool
    requires { IsInOrder entries.now }
    ensures { IsTrue result → (k : ℕ) (d : ObjectId × X) → place ≤ k → k < length entries.now
        → id_cmp (get_or entries.now k d).0 id.now ≡ Greater }
{
    match entries.get(place) {
        Some(entry) => id.cmp(&entry.0).is_lt(),
        None => true,
    }
}

/// The value at an id. A step is a comparison with the id of an entry.
pub(crate) fn find_counted<'a, X, L: Ledger>(
    entries: &'a [(ObjectId, X)],
    id: &ObjectId,
    steps: &mut Steps<L>,
) -> Option<&'a X>
    requires { IsInOrder entries.now }
    ensures value { option_copied result ≡ map.find id_cmp id.now entries.now }
    ensures steps { (k : ℕ) × (steps.new ≡ steps.old + k) × (2 ^ k ≤ 2 * length entries.now + 1) }
{
    let mut low = 0;
    let mut high = entries.len();
    while low < high {
        let middle = low + (high - low) / 2;
        let (key, value) = &entries[middle];
        steps.tick();
        let order = id.cmp(key);
        if order.is_eq() {
            return Some(value);
        }
        if order.is_lt() {
            high = middle;
            continue;
        }
        low = middle + 1;
    }
    None
}

/// Puts the entries into the order of their ids, and keeps one of each id.
pub(crate) fn arrange<X: Drop>(entries: &mut Vec<(ObjectId, X)>)
    ensures in_order { IsInOrder entries.new.items }
    ensures known { (q : ObjectId) → is_some (map.find id_cmp q entries.new.items) ≡ is_some (map.find id_cmp q entries.old.items) }
    ensures kept { (e : ObjectId × X) → Contains entries.new.items e → Contains entries.old.items e }
    ensures capacity { vec_capacity entries.new ≡ vec_capacity entries.old }
    ensures len { vec_len entries.new ≤ vec_len entries.old }
{
    entries.sort_unstable_by(|entry, other| entry.0.cmp(&other.0));
    entries.dedup_by(|entry, other| entry.0 == other.0);
}

/// Merges entries of new ids into those that stand in order, from the back: what stands before the new ids stays where
/// it is.
pub(crate) fn merge<X: Copy>(entries: &mut Vec<(ObjectId, X)>, fresh: &mut Vec<(ObjectId, X)>)
    requires in_order { IsInOrder entries.old.items }
    requires fresh_in_order { IsInOrder fresh.old.items }
    requires new_ids { All (λ e. map.find id_cmp e.0 entries.old.items ≡ None) fresh.old.items }
    requires room { vec_len entries.old + vec_len fresh.old ≤ vec_capacity entries.old }
    ensures in_order { IsInOrder entries.new.items }
    ensures values { (q : ObjectId) → map.find id_cmp q entries.new.items ≡ map.find id_cmp q (entries.old.items ++ fresh.old.items) }
    ensures len { vec_len entries.new ≡ vec_len entries.old + vec_len fresh.old }
    ensures capacity { vec_capacity entries.old ≤ vec_capacity entries.new }
    ensures taken { fresh.new.items ≡ [] }
    ensures fresh_capacity { vec_capacity fresh.new ≡ vec_capacity fresh.old }
{
    let mut kept = entries.len();
    // There is room, so that it can't fail.
    let _fits = entries.extend_from_slice(fresh.as_slice());
    if kept == 0 {
        fresh.clear();
        return;
    }
    let mut end = entries.len();
    while let Some(next) = fresh.pop() {
        while end_is_above(&entries[..kept], &next.0) {
            end -= 1;
            kept -= 1;
            entries[end] = entries[kept];
        }
        end -= 1;
        entries[end] = next;
    }
}

/// Whether there is a last entry, and its id is greater than this one.
fn end_is_above<X>(entries: &[(ObjectId, X)], id: &ObjectId) -> bool
    ensures { result ≡ ends_above id.now entries.now }
{
    match entries.last() {
        Some(entry) => id.cmp(&entry.0).is_lt(),
        None => false,
    }
}

/// The same where entries can't be copied. Those behind new ids move by way of a list that is empty.
pub(crate) fn merge_by<X>(
    entries: &mut Vec<(ObjectId, X)>,
    fresh: &mut Vec<(ObjectId, X)>,
    moved: &mut Vec<(ObjectId, X)>,
)
    requires in_order { IsInOrder entries.old.items }
    requires fresh_in_order { IsInOrder fresh.old.items }
    requires new_ids { All (λ e. map.find id_cmp e.0 entries.old.items ≡ None) fresh.old.items }
    requires empty { moved.old.items ≡ [] }
    requires room { vec_len entries.old + vec_len fresh.old ≤ vec_capacity entries.old }
    requires room_to_move { vec_len entries.old + vec_len fresh.old ≤ vec_capacity moved.old }
    ensures in_order { IsInOrder entries.new.items }
    ensures values { (q : ObjectId) → map.find id_cmp q entries.new.items ≡ map.find id_cmp q (entries.old.items ++ fresh.old.items) }
{
    while let Some(next) = fresh.pop() {
        while let Some(last) = pop_above(entries, &next.0) {
            moved.push_reserved(last);
        }
        moved.push_reserved(next);
    }
    moved.reverse();
    // There is room, so that it can't fail.
    let _fits = entries.append(moved);
}

/// Takes the last entry off, where its id is greater than this one.
fn pop_above<X>(entries: &mut Vec<(ObjectId, X)>, id: &ObjectId) -> Option<(ObjectId, X)>
    ensures entries { MatchOption result (entries.new.items ≡ entries.old.items) (λ last. entries.old.items ≡ entries.new.items
        ++ last ∷ []) }
    ensures above { is_some result ≡ ends_above id.now entries.old.items }
    ensures capacity { vec_capacity entries.new ≡ vec_capacity entries.old }
{
    if end_is_above(entries.as_slice(), id) {
        entries.pop()
    } else {
        None
    }
}
