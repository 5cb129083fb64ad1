//! Mirrors by the program's words.

use fetch_cli::{MemorySink, MemorySource};
use fetch_store::{NoMemory, Text};
use mirror_cli::run_mirror_scene;
use rows::{lines, say, say_number};
use std::alloc::Global;
use std::sync::Wait;
use std::thread::Threads;

/// The words of a line, with a space between each two.
fn words_of(alloc: Global, line: &[u8]) -> Result<Vec<Vec<u8>>, NoMemory> {
    let mut words = Vec::new(alloc);
    for word in line.split(|b| *b == b' ') {
        words.push(Vec::from_slice(alloc, word)?)?;
    }
    Ok(words)
}

/// Runs the program with the words of a line over a scene, and answers its status. What it writes goes to this sink.
fn run(
    rt: &(impl Threads + Wait + Sync),
    alloc: Global,
    line: &[u8],
    scene: &[u8],
    sink: &mut MemorySink,
) -> Result<u8, NoMemory> {
    let bytes = Text::new(alloc, scene)?;
    let words = words_of(alloc, line)?;
    let mut source = MemorySource::new(bytes, Vec::new(alloc));
    Ok(run_mirror_scene(rt, alloc, &words, &mut source, sink))
}

/// What was written, and a status behind it.
fn with_status(alloc: Global, bytes: &[u8], status: u8) -> Result<Vec<u8>, NoMemory> {
    let mut told = Vec::from_slice(alloc, bytes)?;
    say_number(&mut told, b"== status", usize::from(status))?;
    Ok(told)
}

/// What the program writes with the words of a line over a scene, and its status.
fn told_by(
    rt: &(impl Threads + Wait + Sync),
    alloc: Global,
    line: &[u8],
    scene: &[u8],
) -> Result<Vec<u8>, NoMemory> {
    let mut sink = MemorySink::new(alloc, Vec::new(alloc));
    let status = run(rt, alloc, line, scene, &mut sink)?;
    with_status(alloc, sink.bytes(), status)
}

/// Puts down what was told, or that it is the same as by the line before.
fn append_told(out: &mut Vec<u8>, told: &[u8], last: &[u8]) -> Result<(), NoMemory> {
    if told == last {
        say(out, &[b"== the same"])
    } else {
        out.extend_from_slice(told)?;
        Ok(())
    }
}

/// Puts down what each line of words tells over a scene, or that it is the same as by the line before.
pub(crate) fn tell(
    rt: &(impl Threads + Wait + Sync),
    alloc: Global,
    scene: &[u8],
    words: &[u8],
    out: &mut Vec<u8>,
) -> Result<bool, NoMemory> {
    let mut last = Vec::new(alloc);
    for line in &lines(alloc, words)? {
        say(out, &[b"==", line])?;
        let told = told_by(rt, alloc, line, scene)?;
        append_told(out, &told, &last)?;
        last = told;
    }
    Ok(true)
}
