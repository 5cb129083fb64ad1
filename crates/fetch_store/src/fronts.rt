//! Ids that their first bytes tell apart, looked up by the number that these write.

ghost use Rattle.std.specs.Prelude.{◌≡◌, ◌≢◌, ◌<◌, ℕ, All, IfOk, IfSome, IsTrue, MatchOption, get_or, length};
ghost use Rattle.std.specs.FinMap as map;
ghost use Rattle.std.specs.Option.{option_copied};
ghost use Rattle.fetch_store.specs.Collisions.{HasDistinctIds};
ghost use Rattle.fetch_store.specs.Fronts as spec;
ghost use Rattle.fetch_store.specs.Fronts.{AreFronts, Rise};
ghost use Rattle.fetch_objects.specs.Objects.{Stored};
ghost use Rattle.fetch_base.specs.Id.{id_cmp};
ghost use Rattle.fetch_base.specs.declared.id.ObjectId.{ObjectId as Id};

use fetch_base::{NoMemory, ObjectId, same_id};
use fetch_objects::Object;
use std::alloc::Global;

/// Whether the first eight bytes of the ids tell all of them apart. They are sorted as numbers, which takes a fraction of
/// the time and the memory of a map of the ids. Where it is false, ids may still differ after their first bytes.
pub fn are_apart(alloc: Global, objects: &[(ObjectId, Object)]) -> Result<bool, NoMemory>
    ensures { IfOk result (λ apart. IsTrue apart → HasDistinctIds objects.now) }
{
    let places = places_by_front(alloc, objects)?;
    Ok(places.is_some())
}

/// The places of the objects, each under the number that its id begins with, which rise. None where two ids begin with
/// one number.
pub(crate) fn places_by_front(
    alloc: Global,
    objects: &[(ObjectId, Object)],
) -> Result<Option<Vec<(u64, usize)>>, NoMemory>
    ensures { IfOk result (λ found. IfSome found (λ places. AreFronts objects.now places.items)) }
{
    let mut places = numbered(alloc, objects)?;
    places.sort_unstable_by_key(|entry| entry.0);
    if rises(places.as_slice()) {
        Ok(Some(places))
    } else {
        Ok(None)
    }
}

/// The object of an id.
pub(crate) fn find_by_front<'a>(
    objects: &'a [(ObjectId, Object)],
    places: &[(u64, usize)],
    id: &ObjectId,
) -> Option<&'a Object>
    requires { AreFronts objects.now places.now }
    ensures { option_copied result ≡ map.find id_cmp id.now objects.now }
{
    let at = find_front(places, front(id))?;
    let (other, object) = &objects[places[at].1];
    if same_id(id, other) {
        Some(object)
    } else {
        None
    }
}

/// Where a number stands among those that rise.
fn find_front(places: &[(u64, usize)], number: u64) -> Option<usize>
    requires { Rise places.now }
    ensures within { IfSome result (λ at. at < length places.now) }
    ensures at { MatchOption result (All (λ p. p.0 ≢ number) places.now) (λ at. (d : ℕ × ℕ) → (get_or places.now at d).0 ≡ number) }
{
    match places.binary_search_by_key(&number, |entry| entry.0) {
        Ok(at) => Some(at),
        Err(_) => None,
    }
}

/// The numbers that the ids begin with, in the list's order, each with its place.
fn numbered(alloc: Global, objects: &[(ObjectId, Object)]) -> Result<Vec<(u64, usize)>, NoMemory>
    ensures len { IfOk result (λ places. length places.items ≡ length objects.now) }
    ensures each { IfOk result (λ places. (i : ℕ) (d : Id × Stored) (p : ℕ × ℕ) → i < length objects.now
        → get_or places.items i p ≡ (spec.front (get_or objects.now i d).0, i)) }
{
    let mut places = Vec::with_capacity(alloc, objects.len())?;
    for i in 0..objects.len() {
        places.push((front(&objects[i].0), i))?;
    }
    Ok(places)
}

/// The number that the first eight bytes of an id write.
pub(crate) fn front(id: &ObjectId) -> u64
    ensures { result ≡ spec.front id.now }
{
    let b = id.as_bytes();
    u64::from_be_bytes([b[0], b[1], b[2], b[3], b[4], b[5], b[6], b[7]])
}

/// Whether each number is greater than the one before.
fn rises(places: &[(u64, usize)]) -> bool
    ensures { IsTrue result → Rise places.now }
{
    for i in 1..places.len() {
        if places[i].0 <= places[i - 1].0 {
            return false;
        }
    }
    true
}
