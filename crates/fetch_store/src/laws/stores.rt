//! Laws of what is added to a store.

ghost use Rattle.std.specs.Prelude.{◌≡◌, ◌⊎◌, ◌↔◌, None, Some};
ghost use Rattle.std.specs.FinMap as map;
ghost use Rattle.fetch_base.specs.declared.id.ObjectId.{ObjectId};
ghost use Rattle.fetch_store.specs.Collisions.{AreAtOne, IsFirstToDiffer};
ghost use Rattle.fetch_objects.specs.Objects.{Stored};
ghost use Rattle.fetch_store.specs.Stores.{Entries, ObjectMap, add_all, collision, first_some};
ghost use Rattle.fetch_base.specs.Id.{id_cmp};

/// What stands at an id once a list is added is what stood there, or else the list's first object of the id. Nothing
/// else comes in.
pub fn what_stands_comes_from_the_store_or_the_list()
    ensures stands { (m : ObjectMap) (es : Entries) (id : ObjectId)
        → map.get (add_all m es) id ≡ first_some (map.get m id) (map.find id_cmp id es) }
    ensures comes_from { (m : ObjectMap) (es : Entries) (id : ObjectId) (o : Stored) → map.get (add_all m es) id ≡ Some o
        → (map.get m id ≡ Some o) ⊎ (map.find id_cmp id es ≡ Some o) }
{}

/// An id collides exactly where it is that of the first entry of the list with another kind or other bytes than an
/// object at its id in the store or earlier in the list; none does exactly where there is no such entry.
pub fn a_collision_is_the_first_entry_that_differs()
    ensures none { (m : ObjectMap) (es : Entries) → (collision m es ≡ None) ↔ AreAtOne m es }
    ensures some { (m : ObjectMap) (es : Entries) (id : ObjectId) → (collision m es ≡ Some id) ↔ IsFirstToDiffer m es id }
{}
