//! Races: their whole reports, or how many entries they make.

use crate::gated::race_gated;
use fetch_cli::{MemorySink, MemorySource};
use fetch_store::{NoMemory, Text, append_number};
use race_cli::{open_race, read_race_scene, run_race};
use rows::{lines, say, say_number};
use std::alloc::Global;
use std::sync::Wait;
use std::thread::Threads;

/// Races what a scene says: all that the program writes, and its status.
fn raced(
    rt: &(impl Threads + Wait + Sync),
    alloc: Global,
    scene: &[u8],
) -> Result<(MemorySink, u8), NoMemory> {
    let mut sink = MemorySink::new(alloc, Vec::new(alloc));
    let mut words = Vec::new(alloc);
    words.push(Vec::from_slice(alloc, b"race")?)?;
    let mut source = MemorySource::new(Text::new(alloc, scene)?, Vec::new(alloc));
    let status = run_race(rt, alloc, &words, &mut source, &mut sink);
    Ok((sink, status))
}

fn say_status(out: &mut Vec<u8>, status: u8) -> Result<(), NoMemory> {
    say_number(out, b"== status", usize::from(status))
}

/// Puts down the report of a race, and its status.
pub(crate) fn tell(
    rt: &(impl Threads + Wait + Sync),
    scene: &[u8],
    out: &mut Vec<u8>,
) -> Result<(), NoMemory> {
    let (sink, status) = raced(rt, *out.allocator(), scene)?;
    out.extend_from_slice(sink.bytes())?;
    say_status(out, status)
}

/// Whether a line of a report is the first of an entry.
fn begins_entry(line: &[u8]) -> bool {
    line.starts_with(b"take ") || line.starts_with(b"commit ") || line.starts_with(b"delete ")
}

/// How many entries a report tells.
fn entries_in(alloc: Global, report: &[u8]) -> Result<usize, NoMemory> {
    let mut count: usize = 0;
    for line in &lines(alloc, report)? {
        if begins_entry(line) {
            count = count.saturating_add(1);
        }
    }
    Ok(count)
}

/// Puts down how many entries the report of a race tells: what it says of them depends on the order of the jobs' steps.
fn tell_entries(alloc: Global, report: &[u8], out: &mut Vec<u8>) -> Result<(), NoMemory> {
    say_number(out, b"== entries", entries_in(alloc, report)?)
}

/// How many entries a race of a scene's first two jobs makes, where each of their peers holds its reply until the other one
/// was asked, and both are done.
fn gated_entries(
    rt: &(impl Threads + Wait + Sync),
    alloc: Global,
    scene: &[u8],
) -> Result<Option<usize>, NoMemory> {
    match read_race_scene(rt, alloc, scene) {
        Ok(scene) => race_gated(rt, alloc, open_race(alloc, scene)?),
        Err(_) => Ok(None),
    }
}

/// Races what a scene says twice, once by peers that hold their replies until both were asked, and puts down how
/// many entries were made.
pub(crate) fn tell_both(
    rt: &(impl Threads + Wait + Sync),
    scene: &[u8],
    out: &mut Vec<u8>,
) -> Result<(), NoMemory> {
    let alloc = *out.allocator();
    let gated = gated_entries(rt, alloc, scene)?;
    let (sink, status) = raced(rt, alloc, scene)?;
    tell_entries(alloc, sink.bytes(), out)?;
    say_status(out, status)?;
    let told = match gated {
        Some(4) => b"== both were asked before either was answered; four entries".as_slice(),
        Some(_) => b"== both were asked before either was answered".as_slice(),
        None => b"== not done".as_slice(),
    };
    say(out, &[told])
}
