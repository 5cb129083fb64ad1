//! Laws of closed repositories and of what a take leaves missing.

ghost use Rattle.std.specs.Prelude.{◌≡◌, ◌↔◌, List, [], None, All};
ghost use Rattle.std.specs.FinMap as map;
ghost use Rattle.std.specs.FinSet as set;
ghost use Rattle.fetch_base.specs.declared.id.Kind.{Kind};
ghost use Rattle.fetch_base.specs.declared.id.ObjectId.{ObjectId};
ghost use Rattle.fetch_store.specs.Stores.{AreOf, collision};
ghost use Rattle.fetch_store.specs.Closed.{Holding, IsClosed, IsStored, AreAllOf, Grows};
ghost use Rattle.fetch_store.specs.Honest.{Request, Pack, IsHonest, taken};
ghost use Rattle.fetch_store.specs.Missing.{missing, unclosed};

/// A closed repository that takes an honest pack for a request made of it stays closed, and holds what was wanted:
/// nothing is missing of the take with the wants of the request.
pub fn an_honest_pack_keeps_a_repository_closed()
    ensures closed { (r : Request) (pack : Pack) → IsClosed r.held → collision r.held.objects pack.objects ≡ None → IsHonest r pack
        → IsClosed (taken r.held pack) }
    ensures wants { (r : Request) (pack : Pack) → IsHonest r pack → All (IsStored (taken r.held pack).objects) r.wants }
    ensures connected { (r : Request) (pack : Pack) → IsClosed r.held → collision r.held.objects pack.objects ≡ None → IsHonest r pack
        → missing r.held r.wants pack ≡ [] }
{}

/// An honest pack, with the wants of its request, still leaves nothing missing in a closed repository that has grown
/// since the request, wherever its border is now.
pub fn an_honest_pack_still_connects()
    ensures connected { (hash : Kind) (r : Request) (now : Holding) (pack : Pack) →
        AreAllOf hash r.held.objects → AreOf hash pack.objects → IsClosed r.held → IsClosed now → Grows r.held.objects now.objects →
        collision now.objects pack.objects ≡ None → IsHonest r pack → missing now r.wants pack ≡ [] }
    ensures wants { (r : Request) (now : Holding) (pack : Pack) → Grows r.held.objects now.objects → IsHonest r pack
        → All (IsStored (taken now pack).objects) r.wants }
{}

/// Where nothing is missing of a take a closed repository stays closed, and each want is stored.
pub fn a_connected_pack_keeps_a_repository_closed()
    ensures closed { (now : Holding) (wants : List ObjectId) (pack : Pack) → IsClosed now → missing now wants pack ≡ []
        → IsClosed (taken now pack) }
    ensures wants { (now : Holding) (wants : List ObjectId) (pack : Pack) → missing now wants pack ≡ []
        → All (IsStored (taken now pack).objects) wants }
{}

/// A repository is closed exactly where nothing keeps it from being closed. With nothing in it, it is closed.
pub fn closed_is_nothing_missing()
    ensures exact { (h : Holding) → IsClosed h ↔ (unclosed h ≡ []) }
    ensures empty { IsClosed (record { objects = map.empty; border = set.empty }) }
{}

/// A store only grows by what is added.
pub fn adding_keeps_what_is_stored()
    ensures { (h : Holding) (pack : Pack) → Grows h.objects (taken h pack).objects }
{}
