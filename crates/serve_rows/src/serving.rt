//! Rows of a server.

use crate::asking::{Ends, ask};
use crate::refusals;
use crate::world::{World, put};
use fetch_serve::Server;
use fetch_store::{Kind, NoMemory, after};
use rows::{lines, say};
use std::alloc::Global;

/// The repository that the lines before the first question put down. None where one of them puts nothing down.
pub(crate) fn world_of(alloc: Global, lines: &[&[u8]]) -> Result<Option<World>, NoMemory> {
    let mut world = World::new(alloc, Kind::Sha1);
    for line in lines {
        if line.starts_with(b"? ") {
            break;
        }
        if !put(alloc, &mut world, line)? {
            return Ok(None);
        }
    }
    Ok(Some(world))
}

/// Tells what the questions among the lines ask for. Whether each of them is one.
fn ask_all(
    alloc: Global,
    server: Server<'_>,
    lines: &[&[u8]],
    out: &mut Vec<u8>,
) -> Result<bool, NoMemory> {
    let mut ends = Ends::of(server);
    for line in lines {
        if let Some(question) = after(b"? ", line) {
            say(out, &[line])?;
            if !ask(alloc, &mut ends, question, out)? {
                return Ok(false);
            }
        }
    }
    Ok(true)
}

/// Makes a server of the repository that the lines put down, and tells what they ask of it. Whether they are such lines.
pub(crate) fn tell(alloc: Global, text: &[u8], out: &mut Vec<u8>) -> Result<bool, NoMemory> {
    let lines = lines(alloc, text)?;
    let Some(world) = world_of(alloc, lines.as_slice())? else {
        return Ok(false);
    };
    match Server::new(alloc, &world.store, &world.refs, &world.border) {
        Ok(server) => ask_all(alloc, server, lines.as_slice(), out),
        Err(e) => {
            refusals::tell(out, &e)?;
            Ok(true)
        }
    }
}
