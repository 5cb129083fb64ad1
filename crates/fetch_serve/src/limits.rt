//! What a pack can hold.

ghost use Rattle.std.specs.Prelude.{◌≡◌, ◌^◌, false, length, nat_le, All};
ghost use Rattle.std.specs.FinMap as finmap;
ghost use Rattle.std.specs.List.{list_any};
ghost use Rattle.std.specs.Option.{option_map_or};
ghost use Rattle.fetch_pack.specs.Records as records;
ghost use Rattle.fetch_reach.specs.Named.{IsOwnId};
ghost use Rattle.fetch_reach.specs.Stored.{objects_at};
ghost use Rattle.fetch_serve.specs.Replies as spec;

use fetch_pack::PackVersion;
use fetch_store::{ObjectId, Store};

/// How many objects no pack holds.
const MANY: u64 = 1 << 32;

/// The length that payloads of a version don't have.
fn limit(version: PackVersion) -> u64
    ensures { result ≡ records.limit_of version }
{
    match version {
        PackVersion::V1 => 1 << 32,
        PackVersion::V2 => 1 << 63,
    }
}

/// Whether the object at an id is too long for a version of the pack.
fn is_too_long(version: PackVersion, store: &Store, id: &ObjectId) -> bool
    ensures { result ≡ option_map_or (spec.is_too_long version) (finmap.get store.now.objects id.now) false }
{
    match store.get(id) {
        Some(object) => object.bytes().len() as u64 >= limit(version),
        None => false,
    }
}

fn has_too_long(version: PackVersion, store: &Store, ids: &[ObjectId]) -> bool
    ensures { result ≡ list_any (spec.is_too_long version) (objects_at store.now.objects ids.now) }
{
    for id in ids {
        if is_too_long(version, store, id) {
            return true;
        }
    }
    false
}

fn are_many(ids: &[ObjectId]) -> bool
    ensures { result ≡ nat_le (2 ^ 32) (length ids.now) }
{
    ids.len() as u64 >= MANY
}

/// Whether a version of the pack can't hold so many objects, or one of them.
pub(crate) fn is_too_large(version: PackVersion, store: &Store, ids: &[ObjectId]) -> bool
    requires { All (IsOwnId store.now.objects) ids.now }
    ensures { result ≡ spec.is_too_large version (objects_at store.now.objects ids.now) }
{
    if are_many(ids) {
        return true;
    }
    has_too_long(version, store, ids)
}
