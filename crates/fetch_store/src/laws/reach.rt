//! Laws of what can be reached in a repository.

ghost use Rattle.std.specs.Prelude.{◌≡◌, ◌⊎◌, ◌↔◌, ◌+◌, ℕ, List, None, Some, All, Contains, IsSome, IsTrue};
ghost use Rattle.std.specs.FinMap as map;
ghost use Rattle.std.specs.FinSet as set;
ghost use Rattle.fetch_base.specs.declared.id.ObjectId.{ObjectId};
ghost use Rattle.fetch_objects.specs.Objects.{Stored};
ghost use Rattle.fetch_store.specs.Closed.{Grows, Holding, IsClosed, IsStored, Reached, links_within};
ghost use Rattle.fetch_store.specs.Spread.{Nexts, IsOneOn, IsWithin, nexts_in};

/// What is reached from ids that are reached is reached; what is reached from some ids is reached from more. Each
/// stored start is reached, and so is each stored link of what is reached; nothing else is reached than what is stored.
pub fn reached_is_reached_on()
    ensures transitive { (h : Holding) (starts middles : List ObjectId) (id : ObjectId) → All (Reached h starts) middles
        → Reached h middles id → Reached h starts id }
    ensures grows { (h : Holding) (starts more : List ObjectId) (id : ObjectId) → All (Contains more) starts → Reached h starts id
        → Reached h more id }
    ensures begins { (h : Holding) (starts : List ObjectId) (id : ObjectId) → Contains starts id → IsStored h.objects id
        → Reached h starts id }
    ensures links { (h : Holding) (starts : List ObjectId) (id next : ObjectId) (o : Stored) →
        map.get h.objects id ≡ Some o → Contains (links_within h.border id o) next → IsStored h.objects next → Reached h starts id
        → Reached h starts next }
    ensures stored { (h : Holding) (starts : List ObjectId) (id : ObjectId) → Reached h starts id → IsStored h.objects id }
{}

/// In a closed repository each link of what is reached is reached, parents of border commits aside.
pub fn reached_is_closed()
    ensures { (h : Holding) (starts : List ObjectId) (id next : ObjectId) (o : Stored) →
        IsClosed h → map.get h.objects id ≡ Some o → Contains (links_within h.border id o) next → Reached h starts id
        → Reached h starts next }
{}

/// In a repository whose store has grown, and whose border has no other commit than before, all is reached that was.
pub fn reached_grows_with_the_store()
    ensures { (before now : Holding) (starts : List ObjectId) (id : ObjectId) → Grows before.objects now.objects →
        ((commit : ObjectId) → IsTrue (set.contains now.border commit) → IsTrue (set.contains before.border commit))
        → Reached before starts id → Reached now starts id }
{}

/// A walk goes level by level: in no step it is at the starts at which something is, and in one step more where it was,
/// and one step on from there. What is reached is what a walk along links comes to in some number of steps.
pub fn reached_is_level_by_level()
    ensures begins { (nexts : Nexts) (starts : List ObjectId) (id : ObjectId)
        → IsWithin nexts starts (Some 0) id ↔ (Contains starts id × IsSome (nexts id)) }
    ensures more { (nexts : Nexts) (starts : List ObjectId) (n : ℕ) (id : ObjectId)
        → IsWithin nexts starts (Some (n + 1)) id ↔ (IsWithin nexts starts (Some n) id ⊎ IsOneOn nexts starts n id) }
    ensures unlimited { (nexts : Nexts) (starts : List ObjectId) (id : ObjectId)
        → IsWithin nexts starts None id ↔ ((n : ℕ) × IsWithin nexts starts (Some n) id) }
    ensures reached { (h : Holding) (starts : List ObjectId) (id : ObjectId)
        → Reached h starts id ↔ ((n : ℕ) × IsWithin (nexts_in h) starts (Some n) id) }
{}
