//! Laws of how many there are.

ghost use Rattle.std.specs.Prelude.{◌≤◌, List, length, IsSome, All};
ghost use Rattle.std.specs.FinMap as map;
ghost use Rattle.std.specs.List.{IsDistinct};
ghost use Rattle.std.specs.Ordering.{eq_by_cmp};
ghost use Rattle.fetch_base.specs.declared.id.ObjectId.{ObjectId};
ghost use Rattle.fetch_store.specs.Closed.{IsStored};
ghost use Rattle.fetch_store.specs.Graph.{Graph};
ghost use Rattle.fetch_store.specs.Stores.{ObjectMap};
ghost use Rattle.fetch_base.specs.Id.{id_cmp};

/// Distinct ids that are stored are no more than the objects there are, in a store and in a graph. So a walk that
/// visits each id once makes no more steps than that.
pub fn distinct_stored_ids_are_no_more_than_objects()
    ensures store { (objects : ObjectMap) (ids : List ObjectId) → IsDistinct (eq_by_cmp id_cmp) ids → All (IsStored objects) ids
        → length ids ≤ map.len objects }
    ensures graph { (graph : Graph) (ids : List ObjectId) → IsDistinct (eq_by_cmp id_cmp) ids → All (λ id. IsSome (map.get graph id)) ids
        → length ids ≤ map.len graph }
{}
