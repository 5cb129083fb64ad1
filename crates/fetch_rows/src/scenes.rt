//! The program as it is run on scenes and on words: all that it writes, and its status.

mod ends;

use self::ends::{Fault, Faults, Full, NO_FAULTS, faults_of, sink_of, source_of};
use fetch_cli::{MemorySink, Sink, run};
use fetch_store::NoMemory;
use rows::{Row, say};
use std::alloc::Global;
use std::thread::Threads;

/// What the source of a row of words gives: no scene.
const NO_SCENE: &[u8] = b"0000";

/// The words of a line, with a space between each two.
fn words_of(alloc: Global, line: &[u8]) -> Result<Vec<Vec<u8>>, NoMemory> {
    let mut words = Vec::new(alloc);
    if !line.is_empty() {
        for word in line.split(|b| *b == b' ') {
            words.push(Vec::from_slice(alloc, word)?)?;
        }
    }
    Ok(words)
}

/// What the program is run on.
#[derive(Clone, Copy)]
struct Given<'a> {
    /// Its words, with a space between each two.
    words: &'a [u8],
    /// What its source gives.
    input: &'a [u8],
    faults: Faults,
}

/// Runs the program, and answers its status. What it writes goes to this sink.
fn run_into<K: Sink>(
    rt: &(impl Threads + Sync),
    alloc: Global,
    given: &Given<'_>,
    sink: &mut K,
) -> Result<u8, NoMemory> {
    let words = words_of(alloc, given.words)?;
    let mut source = source_of(alloc, given.input, given.faults.source)?;
    Ok(run(rt, alloc, &words, &mut source, sink))
}

/// The same, but that a sink without memory stands in for this one where the row says so.
fn status_of(
    rt: &(impl Threads + Sync),
    alloc: Global,
    given: &Given<'_>,
    sink: &mut MemorySink,
) -> Result<u8, NoMemory> {
    match given.faults.sink {
        Fault::Full => run_into(rt, alloc, given, &mut Full),
        _ => run_into(rt, alloc, given, sink),
    }
}

/// Puts down what the program writes, and its status.
fn tell(
    rt: &(impl Threads + Sync),
    alloc: Global,
    given: &Given<'_>,
    out: &mut Vec<u8>,
) -> Result<bool, NoMemory> {
    let mut sink = sink_of(alloc, given.faults.sink)?;
    let status = status_of(rt, alloc, given, &mut sink)?;
    let digit = b'0'.saturating_add(status);
    out.extend_from_slice(sink.bytes())?;
    say(out, &[b"==", b"status", &[digit]])?;
    Ok(true)
}

/// Runs the word that a row begins with over its scene, whose ends may fail. Whether it says how.
pub(crate) fn tell_scene(
    rt: &(impl Threads + Sync),
    alloc: Global,
    row: &Row<'_>,
    out: &mut Vec<u8>,
) -> Result<bool, NoMemory> {
    let Some(faults) = faults_of(row.lines) else {
        return Ok(false);
    };
    let given = Given {
        words: row.whose,
        input: row.scene,
        faults,
    };
    tell(rt, alloc, &given, out)
}

/// Runs these words over what is no scene.
pub(crate) fn tell_words(
    rt: &(impl Threads + Sync),
    alloc: Global,
    words: &[u8],
    out: &mut Vec<u8>,
) -> Result<bool, NoMemory> {
    let given = Given {
        words,
        input: NO_SCENE,
        faults: NO_FAULTS,
    };
    tell(rt, alloc, &given, out)
}
