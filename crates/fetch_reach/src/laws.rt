//! Laws of packs that are written of a store, and of what packs leave missing. Each is the contract of a function without
//! a body.

ghost use Rattle.std.specs.Prelude.{◌≡◌, List, [], Ok, All, Contains, length};
ghost use Rattle.std.specs.List.Sorted.{IsStrictlySortedBy};
ghost use Rattle.fetch_base.specs.declared.id.Kind.{Kind};
ghost use Rattle.fetch_base.specs.declared.id.ObjectId.{ObjectId};
ghost use Rattle.fetch_store.specs.Closed.{AreAllOf, Holding};
ghost use Rattle.fetch_store.specs.Collisions.{HasDistinctIds};
ghost use Rattle.fetch_base.specs.Hashing as hashing;
ghost use Rattle.fetch_store.specs.Honest.{IsHonest, Pack, Request};
ghost use Rattle.fetch_store.specs.Missing.{missing};
ghost use Rattle.fetch_store.specs.Stores.{Entries, ObjectMap};
ghost use Rattle.fetch_base.specs.Id.{id_cmp};
ghost use Rattle.fetch_pack.specs.Packs.{IsPack};
ghost use Rattle.fetch_pack.specs.Reading.{once_from, read};
ghost use Rattle.fetch_pack.specs.Records.{Fits, body, pack_text, payloads_of};
ghost use Rattle.fetch_pack.specs.declared.version.PackVersion.{PackVersion};
ghost use Rattle.fetch_reach.specs.Named.{AreObjects, IsOwnId};
ghost use Rattle.fetch_reach.specs.Stored.{entries_at, objects_at};
ghost use Rattle.fetch_reach.specs.Whole.{IsWhole, with_haves, without_lines};

/// Of entries with distinct ids each is kept, in its place.
pub fn distinct_entries_are_all_kept()
    ensures { (es : Entries) → HasDistinctIds es → once_from [] es ≡ es }
{}

/// A pack that was written of stored objects in ascending order of their ids is a pack, and is read as those objects
/// under those ids.
pub fn stored_packs_are_read()
    ensures pack { (v : PackVersion) (hash : Kind) (objects : ObjectMap) (ids : List ObjectId) →
        AreAllOf hash objects → AreObjects objects → All (IsOwnId objects) ids → Fits v (payloads_of (objects_at objects ids)) →
        IsPack v hash (pack_text v hash (payloads_of (objects_at objects ids))) (payloads_of (objects_at objects ids)) }
    ensures read { (v : PackVersion) (hash : Kind) (objects : ObjectMap) (ids : List ObjectId) →
        AreAllOf hash objects → AreObjects objects → IsStrictlySortedBy id_cmp ids → All (IsOwnId objects) ids
        → Fits v (payloads_of (objects_at objects ids)) →
        read hash (pack_text v hash (payloads_of (objects_at objects ids))) ≡
        Ok (record {
          objects = entries_at objects ids;
          count = length ids;
          digest = hashing.digest hash (body v hash (payloads_of (objects_at objects ids)));
        }) }
{}

/// An honest pack stays honest where more haves were told.
pub fn honest_packs_stay_honest_with_more_haves()
    ensures { (r : Request) (haves : List ObjectId) (pack : Pack) → All (Contains haves) r.haves → IsHonest r pack
        → IsHonest (with_haves r haves) pack }
{}

/// A pack that has its wants and all its links, and no lines, leaves nothing missing, whoever takes it.
pub fn whole_packs_leave_nothing_missing()
    ensures { (now : Holding) (wants : List ObjectId) (es : Entries) → IsWhole wants es → missing now wants (without_lines es) ≡ [] }
{}
