//! The gate that each piece of a pack enters before it is hashed.

use fetch_pack::{Gate, PackError, hash_pieces, read_pack_gated};
use fetch_store::{Kind, NoMemory, Object, ObjectKind, decimal, digest};
use rows::{refuse, say, say_number, split_word};
use std::alloc::Global;
use std::sync::atomic::{AtomicU64, Ordering};
use std::thread::{Threads, yield_now};

/// How often a piece looks for the flag of the other one.
const LOOKS: u32 = 10_000_000;

/// Each of two pieces sets its flag, and looks for the other's, letting other threads run in between.
#[derive(Drop)]
struct TwoFlags {
    first: AtomicU64,
    second: AtomicU64,
    seen: AtomicU64,
}

impl Gate for TwoFlags {
    fn enter(&self, piece: usize) {
        let (own, other) = if piece == 0 {
            (&self.first, &self.second)
        } else {
            (&self.second, &self.first)
        };
        own.store(1, Ordering::SeqCst);
        for _ in 0..LOOKS {
            if other.load(Ordering::SeqCst) == 1 {
                self.seen.fetch_add(1, Ordering::SeqCst);
                break;
            }
            yield_now();
        }
    }
}

/// A pack of the empty tree and the empty blob.
fn two_objects(alloc: Global) -> Result<Vec<u8>, NoMemory> {
    let body = b"PLNP\0\0\0\x01\0\0\0\x02\x02\0\0\0\0\x03\0\0\0\0".as_slice();
    let mut text = Vec::from_slice(alloc, body)?;
    text.extend_from_slice(digest(Kind::Sha1, body).as_bytes())?;
    Ok(text)
}

/// Reads them in two pieces, and answers how many objects there are.
fn read_two(
    rt: &(impl Threads + Sync),
    alloc: Global,
    gate: &TwoFlags,
) -> Result<usize, PackError> {
    let text = two_objects(alloc)?;
    let pack = read_pack_gated(rt, alloc, Kind::Sha1, text.as_slice(), 2, gate)?;
    Ok(pack.objects.len())
}

/// Tells how many objects are read in two pieces, and how many pieces saw that the other one was hashed at once.
pub(crate) fn tell_at_once(
    rt: &(impl Threads + Sync),
    alloc: Global,
    out: &mut Vec<u8>,
) -> Result<bool, NoMemory> {
    let gate = TwoFlags {
        first: AtomicU64::new(0),
        second: AtomicU64::new(0),
        seen: AtomicU64::new(0),
    };
    match read_two(rt, alloc, &gate) {
        Ok(count) => say_number(out, b"objects", count)?,
        Err(e) => refuse(out, &e)?,
    }
    say_number(out, b"seen", gate.seen.load(Ordering::SeqCst) as usize)?;
    Ok(true)
}

/// How often each piece entered, by its index.
#[derive(Drop)]
struct Entered {
    counts: Vec<AtomicU64>,
    beyond: AtomicU64,
}

impl Gate for Entered {
    fn enter(&self, piece: usize) {
        let count = self.counts.get(piece).unwrap_or(&self.beyond);
        count.fetch_add(1, Ordering::SeqCst);
    }
}

impl Entered {
    /// For this many pieces at most.
    fn new(alloc: Global, most: u64) -> Result<Entered, NoMemory> {
        let mut counts = Vec::new(alloc);
        for _ in 0..most {
            counts.push(AtomicU64::new(0))?;
        }
        Ok(Entered {
            counts,
            beyond: AtomicU64::new(0),
        })
    }

    /// How many pieces entered, where each entered once, with its index from 0.
    fn pieces(&self) -> Option<usize> {
        if self.beyond.load(Ordering::SeqCst) != 0 {
            return None;
        }
        let mut pieces = 0;
        for (piece, count) in self.counts.iter().enumerate() {
            match count.load(Ordering::SeqCst) {
                0 => {}
                1 if piece == pieces => pieces = piece + 1,
                _ => return None,
            }
        }
        Some(pieces)
    }
}

/// So many empty blobs.
fn blobs(alloc: Global, count: u64) -> Result<Vec<Object>, NoMemory> {
    let mut objects = Vec::new(alloc);
    for _ in 0..count {
        if let Ok(blob) = Object::parse(Kind::Sha1, ObjectKind::Blob, Vec::new(alloc)) {
            objects.push(blob)?;
        }
    }
    Ok(objects)
}

/// `<objects> <threads>`: tells how many ids so many blobs get, and in how many pieces they are hashed, each of which
/// enters the gate once. Whether the words are these.
pub(crate) fn tell_pieces(
    rt: &(impl Threads + Sync),
    alloc: Global,
    rest: &[u8],
    out: &mut Vec<u8>,
) -> Result<bool, NoMemory> {
    let (count, threads) = split_word(rest);
    let (Some(count), Some(threads)) = (decimal(count), decimal(threads)) else {
        return Ok(false);
    };
    let gate = Entered::new(alloc, count)?;
    let objects = blobs(alloc, count)?;
    let ids = hash_pieces(
        rt,
        alloc,
        Kind::Sha1,
        objects.as_slice(),
        threads as usize,
        &gate,
    )?;
    say_number(out, b"ids", ids.len())?;
    match gate.pieces() {
        Some(pieces) => say_number(out, b"pieces", pieces)?,
        None => say(out, &[b"not each once"])?,
    }
    Ok(true)
}
