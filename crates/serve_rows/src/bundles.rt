//! Rows of bundles.

use crate::bundle_questions::ask;
use crate::serving::world_of;
use crate::world::World;
use fetch_store::{MemoryFiles, NoMemory, after};
use rows::{lines, say};
use std::alloc::Global;
use std::thread::Threads;

/// Tells what the questions among the lines ask for. Whether each of them is one.
fn ask_all<R: Threads + Sync>(
    rt: &R,
    alloc: Global,
    world: &World,
    lines: &[&[u8]],
    out: &mut Vec<u8>,
) -> Result<bool, NoMemory> {
    let mut files = MemoryFiles::new(alloc, Vec::new(alloc));
    for line in lines {
        if let Some(question) = after(b"? ", line) {
            say(out, &[line])?;
            if !ask(rt, alloc, world, &mut files, question, out)? {
                return Ok(false);
            }
        }
    }
    Ok(true)
}

/// Tells what the lines ask, of texts or of the repository that they put down. Whether they are such lines.
pub(crate) fn tell<R: Threads + Sync>(
    rt: &R,
    alloc: Global,
    text: &[u8],
    out: &mut Vec<u8>,
) -> Result<bool, NoMemory> {
    let lines = lines(alloc, text)?;
    let Some(world) = world_of(alloc, lines.as_slice())? else {
        return Ok(false);
    };
    ask_all(rt, alloc, &world, lines.as_slice(), out)
}
