//! Hashing objects, in pieces that threads take.

ghost use Rattle.std.specs.Prelude.{◌≡◌, ℕ, ◌*◌, ◌+◌, ◌<◌, ◌≤◌, min, max, length, get_or, IfOk};
ghost use Rattle.fetch_objects.specs.Objects.{Stored};
ghost use Rattle.fetch_base.specs.declared.id.ObjectId.{ObjectId as Id};
ghost use Rattle.fetch_pack.specs.Reading.{hashed, ids_of};

use fetch_store::{Kind, NoMemory, Object, ObjectId, id_of};
use std::alloc::Global;
use std::thread::{Threads, for_each_chunk_mut};

/// What each piece passes before it hashes. No answer depends on it: it lets a caller see the pieces at work.
pub trait Gate {
    /// Called once by each piece, with its index from 0, before the piece hashes its first object.
    fn enter(&self, piece: usize);
}

/// A gate that does nothing.
pub(crate) struct OpenGate;

impl Gate for OpenGate {
    fn enter(&self, _piece: usize) {}
}

/// The most pieces that a list is cut into.
const MOST_PIECES: usize = 64;

/// The ids of the objects in their order, the same for every number of threads and every gate. The list is cut into at
/// most as many pieces as threads, and at most 64; 0 threads count as 1. A piece for which no thread can be started is
/// hashed by the caller.
pub fn hash_pieces<R: Threads + Sync, G: Gate + Sync>(
    rt: &R,
    alloc: Global,
    kind: Kind,
    objects: &[Object],
    threads: usize,
    gate: &G,
) -> Result<Vec<ObjectId>, NoMemory>
    ensures { IfOk result (λ ids. ids.items ≡ ids_of kind objects.now) }
{
    let mut ids = vec![in alloc; ObjectId::null(kind); objects.len()]?;
    hash_into(rt, kind, objects, threads, gate, ids.as_mut_slice());
    Ok(ids)
}

/// Puts the ids of the objects in the place of those that are there.
fn hash_into<R: Threads + Sync, G: Gate + Sync>(
    rt: &R,
    kind: Kind,
    objects: &[Object],
    threads: usize,
    gate: &G,
    ids: &mut [ObjectId],
)
    requires { length ids.old ≡ length objects.now }
    ensures len { length ids.new ≡ length ids.old }
    ensures each { (i : ℕ) (d : Id) (o : Stored) → i < length ids.old → get_or ids.new i d ≡ hashed kind (get_or objects.now i o) }
{
    let size = piece_len(objects.len(), threads);
    for_each_chunk_mut(
        rt,
        ids,
        size,
        &|start, part| {
            gate.enter(start / size);
            hash_each(kind, &objects[start..start + part.len()], part)
        },
    );
}

/// How many objects a piece has: all of them are no more than the pieces hold.
fn piece_len(len: usize, threads: usize) -> usize
    ensures positive { 0 < result }
    ensures pieces { len ≤ result * max 1 (min threads 64) }
{
    let pieces = threads.min(MOST_PIECES).max(1);
    len.div_ceil(pieces).max(1)
}

/// Puts the id of each object in its place.
fn hash_each(kind: Kind, objects: &[Object], ids: &mut [ObjectId])
    requires { length objects.now ≡ length ids.old }
    ensures len { length ids.new ≡ length ids.old }
    ensures each { (i : ℕ) (d : Id) (o : Stored) → i < length ids.old → get_or ids.new i d ≡ hashed kind (get_or objects.now i o) }
{
    for i in 0..ids.len() {
        let object = objects[i].as_ref();
        ids[i] = id_of(kind, object.kind(), object.bytes());
    }
}
