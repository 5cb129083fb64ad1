//! The lines of a row, and which question each asks.

use crate::configurations::new_file;
use crate::files::failing;
use crate::{
    configurations, copies, files, names, objects, orders, packs, pieces, refspecs, remotes,
};
use fetch_config::File;
use fetch_store::{MemoryFiles, NoMemory};
use rows::{Question, say, split_word};
use std::alloc::Global;
use std::thread::Threads;

/// Tells a name, an id, an object, a copy or an order that is asked for. Whether one is.
fn ask_one(alloc: Global, question: Question<'_>, out: &mut Vec<u8>) -> Result<bool, NoMemory> {
    let Question { what, rest } = question;
    if what == b"name".as_slice() {
        names::tell_verdict(alloc, rest, out)?;
    } else if what == b"full".as_slice() {
        names::tell_full(alloc, rest, out)?;
    } else if what == b"tag".as_slice() {
        names::tell_tag(alloc, rest, out)?;
    } else if what == b"id".as_slice() {
        objects::tell_id(rest, out)?;
    } else if what == b"object".as_slice() {
        return objects::ask(alloc, rest, out);
    } else if what == b"order".as_slice() {
        return orders::ask(alloc, rest, out);
    } else {
        return copies::ask(alloc, question, out);
    }
    Ok(true)
}

/// Tells of packs. Whether that is asked for.
fn ask_of_packs(
    rt: &(impl Threads + Sync),
    alloc: Global,
    question: Question<'_>,
    out: &mut Vec<u8>,
) -> Result<bool, NoMemory> {
    let Question { what, rest } = question;
    if what == b"pack".as_slice() {
        packs::tell_read(rt, alloc, rest, out)
    } else if what == b"write-pack".as_slice() {
        packs::tell_written(alloc, rest, out)
    } else if what == b"pieces".as_slice() {
        pieces::tell_pieces(rt, alloc, rest, out)
    } else if what == b"at-once".as_slice() {
        pieces::tell_at_once(rt, alloc, out)
    } else {
        Ok(false)
    }
}

/// What a row has put down.
#[derive(Drop)]
pub(crate) struct Desk {
    pub(crate) file: File,
    pub(crate) files: MemoryFiles,
}

impl Desk {
    /// A configuration without sections, and no files.
    pub(crate) fn new(alloc: Global) -> Result<Desk, NoMemory> {
        let files = failing(alloc, b"")?;
        Ok(Desk {
            file: new_file(alloc)?,
            files,
        })
    }
}

/// Tells what is asked. Whether something is.
fn ask(
    rt: &(impl Threads + Sync),
    alloc: Global,
    desk: &mut Desk,
    question: Question<'_>,
    out: &mut Vec<u8>,
) -> Result<bool, NoMemory> {
    if ask_one(alloc, question, out)? {
        return Ok(true);
    }
    if ask_of_packs(rt, alloc, question, out)? {
        return Ok(true);
    }
    if refspecs::ask(alloc, question, out)? {
        return Ok(true);
    }
    if remotes::ask_of_remotes(alloc, &mut desk.file, question, out)? {
        return Ok(true);
    }
    if files::ask(alloc, &mut desk.files, question, out)? {
        return Ok(true);
    }
    configurations::ask(alloc, &mut desk.file, question, out)
}

/// Begins a row with an empty configuration and no files, or tells what a line asks for. Whether it is such a line.
pub(crate) fn tell_line(
    rt: &(impl Threads + Sync),
    alloc: Global,
    desk: &mut Desk,
    line: &[u8],
    out: &mut Vec<u8>,
) -> Result<bool, NoMemory> {
    say(out, &[line])?;
    let (word, rest) = split_word(line);
    if word == b"?".as_slice() {
        return ask(rt, alloc, desk, Question::of(rest), out);
    }
    *desk = Desk::new(alloc)?;
    Ok(word == b"=".as_slice())
}
