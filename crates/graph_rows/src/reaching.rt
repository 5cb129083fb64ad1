//! What a store and its graph say, and what is reached in it.

ghost use Rattle.std.specs.Prelude.{◌≡◌, ◌<◌};

use crate::words::say_id;
use crate::world::World;
use fetch_reach::reached_from;
use fetch_store::{Border, Graph, NoMemory, ObjectId, Objects, Steps, Store};
use rows::{refuse, say, say_number};
use std::alloc::Global;
use std::marker::Brand;
use std::sync::ledger::{Blank, Ledger};

/// A line for each object, by ascending id: its kind, its id, and how many bytes it has.
pub(crate) fn tell_store(store: &Store, out: &mut Vec<u8>) -> Result<(), NoMemory> {
    for (id, object) in store.iter() {
        say_id(out, object.kind().name(), &id)?;
        say_number(out, b"bytes", object.bytes().len())?;
    }
    Ok(())
}

/// What objects say of an id.
fn tell_of<O: Objects>(objects: &O, id: &ObjectId, out: &mut Vec<u8>) -> Result<(), NoMemory> {
    if objects.is_commit(id) {
        say(out, &[b"commit"])?;
    }
    for parent in objects.parents(id) {
        say_id(out, b"parent", &parent)?;
    }
    if let Some(parent) = objects.parent(id, 1) {
        say_id(out, b"second parent", &parent)?;
    }
    if let Some(seconds) = objects.seconds(id) {
        say_number(out, b"seconds", seconds as usize)?;
    }
    if let Some(target) = objects.tag_target(id) {
        say_id(out, b"target", &target)?;
    }
    Ok(())
}

/// Tells the same of the graph, and how many objects it has.
pub(crate) fn tell_graph(
    alloc: Global,
    store: &Store,
    id: &ObjectId,
    out: &mut Vec<u8>,
) -> Result<(), NoMemory> {
    tell_of(store, id, out)?;
    match Graph::of(alloc, store) {
        Ok(graph) => {
            say_number(out, b"graph", Objects::len(&graph))?;
            tell_of(&graph, id, out)
        }
        Err(e) => refuse(out, &e),
    }
}

fn finds<L: Ledger>(store: &Store, id: &ObjectId, blank: Blank) -> Option<usize>
    requires name { blank.name ≡ L.name }
    requires parts { blank.parts ≡ L.parts }
    requires some { 0 < blank.parts }
{
    let mut steps: Steps<L> = Steps::new(blank);
    match store.find_counted(id, &mut steps) {
        Some(object) => Some(object.bytes().len()),
        None => None,
    }
}

/// How many bytes an object has, by a look-up that counts its steps.
pub(crate) fn tell_found(store: &Store, id: &ObjectId, out: &mut Vec<u8>) -> Result<(), NoMemory> {
    match finds::<Brand>(store, id, Blank::new(1)) {
        Some(len) => say_number(out, b"bytes", len),
        None => say(out, &[b"none"]),
    }
}

/// The border of a row.
pub(crate) fn border_of(alloc: Global, ids: &[ObjectId]) -> Result<Border, NoMemory> {
    match Border::from_ids(alloc, ids) {
        Ok(border) => Ok(border),
        Err(_) => Err(NoMemory),
    }
}

/// A line for each id that is reached from one.
pub(crate) fn tell_reached(
    alloc: Global,
    world: &World,
    start: ObjectId,
    out: &mut Vec<u8>,
) -> Result<(), NoMemory> {
    let border = border_of(alloc, world.border.as_slice())?;
    let found = reached_from(alloc, &world.store, &border, [start].as_slice())?;
    for id in found.as_slice() {
        say_id(out, b"reached", id)?;
    }
    Ok(())
}
