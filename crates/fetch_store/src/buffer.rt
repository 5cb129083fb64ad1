//! Objects whose bytes stand in one buffer.

ghost use Rattle.std.specs.Prelude.{◌≡◌, ◌+◌, ◌++◌, ◌≤◌, All, IfOk, None, length, [], vec_len, vec_capacity};
ghost use Rattle.std.specs.FinMap as map;
ghost use Rattle.fetch_base.specs.declared.id.Kind.{Kind};
ghost use Rattle.fetch_store.specs.Buffers.{IsAppended, IsIndexed, IsLent, IsTaken, entries_in, lent};
ghost use Rattle.fetch_store.specs.Entries.{IsInOrder};
ghost use Rattle.fetch_objects.specs.References.{seen};
ghost use Rattle.fetch_store.specs.Stores as spec;
ghost use Rattle.fetch_store.specs.Stores.{AreOf, collision, map_of};
ghost use Rattle.fetch_base.specs.Id.{id_cmp};

use crate::entries::{arrange, find_in_order, merge};
use crate::span::Span;
use crate::starts::Starts;
use fetch_base::{Kind, NoMemory, ObjectId};
use fetch_objects::{Object, ObjectRef};

/// The object of a span.
pub(crate) fn lend<'a>(hash: Kind, buffer: &'a [u8], span: &Span) -> ObjectRef<'a>
    requires { span.now.start + span.now.length ≤ length buffer.now }
    ensures { seen result ≡ lent hash buffer.now span.now }
{
    let end = span.start + span.length;
    ObjectRef::new(hash, span.kind, &buffer[span.start..end])
}

/// How many bytes the objects have. `NoMemory` where a `usize` can't count them: there is no memory for them either.
pub(crate) fn payload_len(objects: &[(ObjectId, Object)]) -> Result<usize, NoMemory>
    ensures { IfOk result (λ n. n ≡ spec.payload_len objects.now) }
{
    let mut total: usize = 0;
    for (_, object) in objects {
        match total.checked_add(object.len()) {
            Some(sum) => total = sum,
            None => return Err(NoMemory),
        }
    }
    Ok(total)
}

/// Puts an object's bytes after the others.
fn append(buffer: &mut Vec<u8>, object: ObjectRef<'_>) -> Span
    requires { vec_len buffer.old + length (seen object).bytes ≤ vec_capacity buffer.old }
    ensures bytes { buffer.new.items ≡ buffer.old.items ++ (seen object.entry).bytes }
    ensures span { result ≡ record {
      kind = (seen object.entry).kind;
      start = length buffer.old.items;
      length = length (seen object.entry).bytes;
    } }
    ensures capacity { vec_capacity buffer.old ≤ vec_capacity buffer.new }
{
    let start = buffer.len();
    let bytes = object.bytes();
    // There is room, so that it can't fail.
    let _fits = buffer.extend_from_slice(bytes);
    Span {
        kind: object.kind(),
        start,
        length: bytes.len(),
    }
}

/// Puts the bytes of the objects whose ids are new after the others, and their spans into a list.
fn append_new(
    index: &[(ObjectId, Span)],
    starts: &Starts,
    buffer: &mut Vec<u8>,
    fresh: &mut Vec<(ObjectId, Span)>,
    objects: &[(ObjectId, Object)],
)
    requires in_order { IsInOrder index.now }
    requires empty { fresh.old.items ≡ [] }
    requires room { length objects.now ≤ vec_capacity fresh.old }
    requires room_for_bytes { vec_len buffer.old + spec.payload_len objects.now ≤ vec_capacity buffer.old }
    ensures appended { (hash : Kind) → IsIndexed hash buffer.old.items index.now → AreOf hash objects.now
        → IsAppended hash index.now buffer.old.items buffer.new.items fresh.new.items objects.now }
    ensures new_ids { All (λ e. map.find id_cmp e.0 index.now ≡ None) fresh.new.items }
    ensures len { vec_len fresh.new ≤ length objects.now }
    ensures bytes_len { (vec_len buffer.old ≤ vec_len buffer.new)
        × (vec_len buffer.new ≤ vec_len buffer.old + spec.payload_len objects.now) }
    ensures capacity { vec_capacity buffer.old ≤ vec_capacity buffer.new }
    ensures fresh_capacity { vec_capacity fresh.new ≡ vec_capacity fresh.old }
{
    for (id, object) in objects {
        if find_in_order(index, starts.near(id), id).is_some() {
            continue;
        }
        let span = append(buffer, object.as_ref());
        fresh.push_reserved((*id, span));
    }
}

/// Adds the objects whose ids are new to an index over a buffer. The list of spans is a place to sort them.
pub(crate) fn add_new(
    index: &mut Vec<(ObjectId, Span)>,
    starts: &mut Starts,
    buffer: &mut Vec<u8>,
    fresh: &mut Vec<(ObjectId, Span)>,
    objects: &[(ObjectId, Object)],
)
    requires in_order { IsInOrder index.old.items }
    requires empty { fresh.old.items ≡ [] }
    requires room { vec_len index.old + length objects.now ≤ vec_capacity index.old }
    requires room_for_spans { length objects.now ≤ vec_capacity fresh.old }
    requires room_for_bytes { vec_len buffer.old + spec.payload_len objects.now ≤ vec_capacity buffer.old }
    ensures taken { (hash : Kind) → IsIndexed hash buffer.old.items index.old.items → AreOf hash objects.now
        → collision (map_of (entries_in hash buffer.old.items index.old.items)) objects.now ≡ None
        → IsTaken hash index.old.items buffer.old.items index.new.items buffer.new.items objects.now }
    ensures len { (vec_len index.old ≤ vec_len index.new) × (vec_len index.new ≤ vec_len index.old + length objects.now) }
    ensures bytes_len { (vec_len buffer.old ≤ vec_len buffer.new)
        × (vec_len buffer.new ≤ vec_len buffer.old + spec.payload_len objects.now) }
    ensures capacity { vec_capacity index.old ≤ vec_capacity index.new }
    ensures bytes_capacity { vec_capacity buffer.old ≤ vec_capacity buffer.new }
    ensures fresh_capacity { vec_capacity fresh.new ≡ vec_capacity fresh.old }
    ensures emptied { fresh.new.items ≡ [] }
{
    append_new(index.as_slice(), starts, buffer, fresh, objects);
    arrange(fresh);
    starts.add(fresh.as_slice());
    merge(index, fresh);
}
