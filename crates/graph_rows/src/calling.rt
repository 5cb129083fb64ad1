//! What code of another crate can do: call the laws, copy a store, and lend what it reads to other threads.

use crate::words::say_id;
use crate::world::World;
use fetch_refs::Refs;
use fetch_store::{Border, Graph, Kind, NoMemory, Store, laws};
use rows::{refuse, say, say_number};
use std::alloc::Global;

fn tell_laws(out: &mut Vec<u8>) -> Result<(), NoMemory> {
    laws::an_honest_pack_still_connects();
    laws::commits_are_texts();
    laws::splits_last_exactly();
    laws::reached_is_closed();
    laws::distinct_stored_ids_are_no_more_than_objects();
    say(out, &[b"called"])
}

fn crosses<T: Send + Sync>() {}

fn tell_crossing(out: &mut Vec<u8>) -> Result<(), NoMemory> {
    crosses::<Store>();
    crosses::<Border>();
    crosses::<Graph>();
    crosses::<Refs>();
    say(out, &[b"cross"])
}

fn word_of(hash: Kind) -> &'static [u8] {
    match hash {
        Kind::Sha1 => b"sha1",
        Kind::Sha256 => b"sha256",
    }
}

/// Copies a store: tells its hash, how many objects it has, and its ids.
fn tell_copy(alloc: Global, store: &Store, out: &mut Vec<u8>) -> Result<(), NoMemory> {
    let copy = store.try_clone(alloc)?;
    say(out, &[b"hash", word_of(copy.kind())])?;
    say_number(out, b"objects", copy.len())?;
    match copy.ids(alloc) {
        Ok(ids) => {
            for id in &ids {
                say_id(out, b"id", id)?;
            }
            Ok(())
        }
        Err(e) => refuse(out, &e),
    }
}

/// Does what is asked for. Whether that is something.
pub(crate) fn ask(
    alloc: Global,
    world: &World,
    what: &[u8],
    out: &mut Vec<u8>,
) -> Result<bool, NoMemory> {
    if what == b"laws".as_slice() {
        tell_laws(out)?;
    } else if what == b"threads".as_slice() {
        tell_crossing(out)?;
    } else if what == b"copy".as_slice() {
        tell_copy(alloc, &world.store, out)?;
    } else {
        return Ok(false);
    }
    Ok(true)
}
