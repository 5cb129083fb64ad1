//! The questions of a row of bundles.

ghost use Rattle.std.specs.Prelude.{◌≡◌, ◌<◌, ◌^◌, true};
ghost use Rattle.std.specs.FinMap as map;
ghost use Rattle.fetch_reach.specs.Named.{AreOwnIds};

use crate::bundle_answers::{brief, say_bundle, say_kept, say_read, say_refused};
use crate::giving::say_given;
use crate::world::World;
use fetch_check::{append_findings, check, load_bundle, save_bundle, write_bundle};
use fetch_reach::first_misnamed;
use fetch_store::{Files, MemoryFiles, NoMemory, Store, append_number, decimal};
use rows::{decoded, say, say_number, say_texts, split_word};
use std::alloc::Global;
use std::thread::Threads;

/// Where bundles are kept.
const PATH: &[u8] = b"/srv/a.bundle";

/// Whether a store can be written: each id is its object's hash, and there are fewer than 2^32 objects.
pub(crate) fn is_writable(store: &Store) -> bool
    ensures few { result ≡ true → map.len store.now.objects < 2 ^ 32 }
    ensures own { result ≡ true → AreOwnIds store.now.objects }
{
    if store.len() > 0xffff_ffff {
        return false;
    }
    match first_misnamed(store) {
        Some(_) => false,
        None => true,
    }
}

/// Tells what is found in a repository, and the status.
fn tell_findings(alloc: Global, world: &World, out: &mut Vec<u8>) -> Result<(), NoMemory> {
    let findings = check(alloc, &world.store, &world.refs, &world.border)?;
    let status = append_findings(out, &findings)?;
    say_number(out, b"status", usize::from(status))
}

/// Writes a repository as a bundle, and tells its text. Whether it may be written.
fn tell_written(alloc: Global, world: &World, out: &mut Vec<u8>) -> Result<bool, NoMemory> {
    if !is_writable(&world.store) {
        return Ok(false);
    }
    let mut text = Vec::new(alloc);
    match write_bundle(alloc, &world.store, &world.refs, &world.border, &mut text) {
        Ok(()) => say_given(out, text.as_slice())?,
        Err(e) => say_refused(out, &e)?,
    }
    Ok(true)
}

/// Saves a repository, and tells how that went. Whether it may be written.
fn tell_saved(
    alloc: Global,
    world: &World,
    files: &mut MemoryFiles,
    out: &mut Vec<u8>,
) -> Result<bool, NoMemory> {
    if !is_writable(&world.store) {
        return Ok(false);
    }
    match save_bundle(alloc, &world.store, &world.refs, &world.border, files, PATH) {
        Ok(()) => say(out, &[b"saved"])?,
        Err(e) => say_kept(out, &e)?,
    }
    Ok(true)
}

/// Loads a bundle, and tells it.
fn tell_loaded<R: Threads + Sync>(
    rt: &R,
    alloc: Global,
    files: &mut MemoryFiles,
    out: &mut Vec<u8>,
) -> Result<(), NoMemory> {
    match load_bundle(rt, alloc, files, PATH) {
        Ok(Some(bundle)) => say_bundle(out, &bundle),
        Ok(None) => say(out, &[b"nothing"]),
        Err(e) => say_kept(out, &e),
    }
}

/// Tells the names of the files.
fn tell_files(files: &mut MemoryFiles, out: &mut Vec<u8>) -> Result<(), NoMemory> {
    match files.list(b"/srv") {
        Ok(names) => say_texts(out, b"file", names.as_slice()),
        Err(_) => say(out, &[b"failed"]),
    }
}

/// How often an answer came, one after another.
#[derive(Drop)]
struct Tally {
    answer: Vec<u8>,
    count: usize,
}

impl Tally {
    /// No answer yet.
    fn new(alloc: Global) -> Tally {
        Tally {
            answer: Vec::new(alloc),
            count: 0,
        }
    }

    /// A line of how often the last answer came.
    fn tell(&self, out: &mut Vec<u8>) -> Result<(), NoMemory> {
        if self.count == 0 {
            return Ok(());
        }
        append_number(out, self.count)?;
        out.push(b' ')?;
        out.extend_from_slice(self.answer.as_slice())?;
        Ok(())
    }

    /// Counts one more answer. Where it is another than the last, those before it are told.
    fn add(&mut self, answer: Vec<u8>, out: &mut Vec<u8>) -> Result<(), NoMemory> {
        if answer.as_slice() == self.answer.as_slice() {
            self.count = self.count.saturating_add(1);
            return Ok(());
        }
        self.tell(out)?;
        self.answer = answer;
        self.count = 1;
        Ok(())
    }
}

/// Reads what stands before each place of a text, and tells the answers.
fn tell_cuts<R: Threads + Sync>(
    rt: &R,
    alloc: Global,
    bytes: &[u8],
    out: &mut Vec<u8>,
) -> Result<(), NoMemory> {
    let mut tally = Tally::new(alloc);
    for place in 0..bytes.len() {
        tally.add(brief(rt, alloc, &bytes[..place])?, out)?;
    }
    tally.tell(out)
}

/// A text, but for the byte at a place, of which other bits are set.
fn changed(alloc: Global, bytes: &[u8], place: usize, bits: u8) -> Result<Vec<u8>, NoMemory> {
    let mut text = Vec::from_slice(alloc, bytes)?;
    if let Some(byte) = text.get_mut(place) {
        *byte ^= bits;
    }
    Ok(text)
}

/// Reads a text with each byte changed, and tells the answers.
fn tell_changes<R: Threads + Sync>(
    rt: &R,
    alloc: Global,
    bits: u8,
    bytes: &[u8],
    out: &mut Vec<u8>,
) -> Result<(), NoMemory> {
    let mut tally = Tally::new(alloc);
    for place in 0..bytes.len() {
        let text = changed(alloc, bytes, place, bits)?;
        tally.add(brief(rt, alloc, text.as_slice())?, out)?;
    }
    tally.tell(out)
}

/// `<bits> <text>`: reads the text with each byte changed. Whether the words are these.
fn ask_changes<R: Threads + Sync>(
    rt: &R,
    alloc: Global,
    rest: &[u8],
    out: &mut Vec<u8>,
) -> Result<bool, NoMemory> {
    let (bits, text) = split_word(rest);
    let Some(Ok(bits)) = decimal(bits).map(u8::try_from) else {
        return Ok(false);
    };
    let bytes = decoded(alloc, text)?;
    tell_changes(rt, alloc, bits, bytes.as_slice(), out)?;
    Ok(true)
}

/// Asks about a text. Whether one of these questions is asked.
fn ask_by_text<R: Threads + Sync>(
    rt: &R,
    alloc: Global,
    question: &[u8],
    out: &mut Vec<u8>,
) -> Result<bool, NoMemory> {
    let (word, rest) = split_word(question);
    if word == b"changes".as_slice() {
        return ask_changes(rt, alloc, rest, out);
    }
    let bytes = decoded(alloc, rest)?;
    if word == b"read".as_slice() {
        say_read(rt, alloc, bytes.as_slice(), out)
    } else if word == b"cuts".as_slice() {
        tell_cuts(rt, alloc, bytes.as_slice(), out)?;
        Ok(true)
    } else {
        Ok(false)
    }
}

/// `fail <call>`: files in which nothing stands, and this call fails, counted from 0. `put <text>`: a file of this text.
/// Whether one of these is asked for.
fn set_files(alloc: Global, files: &mut MemoryFiles, question: &[u8]) -> Result<bool, NoMemory> {
    let (word, rest) = split_word(question);
    if word == b"fail".as_slice() {
        let call = decimal(rest).unwrap_or(0);
        *files = MemoryFiles::new(alloc, vec![in alloc; call; 1]?);
        Ok(true)
    } else if word == b"put".as_slice() {
        let bytes = decoded(alloc, rest)?;
        Ok(files.write(PATH, bytes.as_slice()).is_ok())
    } else {
        Ok(false)
    }
}

/// Tells what is asked. Whether something is.
pub(crate) fn ask<R: Threads + Sync>(
    rt: &R,
    alloc: Global,
    world: &World,
    files: &mut MemoryFiles,
    question: &[u8],
    out: &mut Vec<u8>,
) -> Result<bool, NoMemory> {
    if question == b"check".as_slice() {
        tell_findings(alloc, world, out)?;
    } else if question == b"load".as_slice() {
        tell_loaded(rt, alloc, files, out)?;
    } else if question == b"files".as_slice() {
        tell_files(files, out)?;
    } else if question == b"write".as_slice() {
        return tell_written(alloc, world, out);
    } else if question == b"save".as_slice() {
        return tell_saved(alloc, world, files, out);
    } else if !set_files(alloc, files, question)? {
        return ask_by_text(rt, alloc, question, out);
    }
    Ok(true)
}
