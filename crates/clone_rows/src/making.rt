//! Rows of files in which repositories are created and clones are given up.

use crate::creating::{tell, tell_opened};
use crate::giving_up::{give_up, tell_dropped};
use crate::standing::{say_file, say_place};
use fetch_clone::HostFiles;
use fetch_clone::create::Options;
use fetch_store::{Files, MemoryFiles, NoMemory, decimal};
use rows::{lines, say, split_word};
use std::alloc::{Alloc, Global};
use std::fs::Files as HostCalls;

/// `create <what> <directory>`, or `file <path>`, `stands <path>`, `remove <directory>`: does it, or tells what stands
/// there. Whether a line is one of these.
fn tell_line<F: Files>(
    alloc: Global,
    files: &mut F,
    line: &[u8],
    out: &mut Vec<u8>,
) -> Result<bool, NoMemory> {
    let (word, rest) = split_word(line);
    if word == b"create".as_slice() {
        return tell(alloc, files, rest, out);
    } else if word == b"file".as_slice() {
        say_file(files, rest, out)?;
    } else if word == b"stands".as_slice() {
        say_place(files, rest, out)?;
    } else if word == b"remove".as_slice() {
        let _ = files.remove_dir_all(rest);
    } else {
        return Ok(false);
    }
    Ok(true)
}

/// `fail <call>`: files in which nothing stands, and this call fails, counted from 0. `write <path> <text>`: a file.
/// `open <directory>`: `init`. `give-up`, or `give-up-anywhere` where the place needn't be empty. Or such a line as above.
fn tell_memory_line(
    alloc: Global,
    files: &mut MemoryFiles,
    line: &[u8],
    out: &mut Vec<u8>,
) -> Result<bool, NoMemory> {
    let (word, rest) = split_word(line);
    if word == b"fail".as_slice() {
        let call = decimal(rest).unwrap_or(0);
        *files = MemoryFiles::new(alloc, vec![in alloc; call; 1]?);
    } else if word == b"write".as_slice() {
        let (path, text) = split_word(rest);
        return Ok(files.write(path, text).is_ok());
    } else if word == b"open".as_slice() {
        tell_opened(alloc, files, rest, out)?;
    } else if word == b"give-up".as_slice() {
        give_up_over(alloc, files, Options::default(), out)?;
    } else if word == b"give-up-anywhere".as_slice() {
        let anywhere = Options {
            destination_must_be_empty: Some(false),
            ..Options::default()
        };
        give_up_over(alloc, files, anywhere, out)?;
    } else {
        return tell_line(alloc, files, line, out);
    }
    Ok(true)
}

/// Prepares a clone over files and gives it up, which hands them back.
fn give_up_over(
    alloc: Global,
    files: &mut MemoryFiles,
    place: Options,
    out: &mut Vec<u8>,
) -> Result<(), NoMemory> {
    let own = std::mem::replace(files, MemoryFiles::new(alloc, Vec::new(alloc)));
    *files = give_up(alloc, own, place, out)?;
    Ok(())
}

/// Does what the lines of a row say, over files in memory. Whether they say something.
pub(crate) fn tell_in_memory(
    alloc: Global,
    text: &[u8],
    out: &mut Vec<u8>,
) -> Result<bool, NoMemory> {
    let mut files = MemoryFiles::new(alloc, Vec::new(alloc));
    for line in &lines(alloc, text)? {
        if !tell_memory_line(alloc, &mut files, line, out)? {
            return Ok(false);
        }
    }
    Ok(true)
}

/// The same over the files of the host, where the program runs: `drop` prepares a clone and drops it.
pub(crate) fn tell_on_host<R: HostCalls + Alloc<A = Global> + Clone + Drop>(
    rt: &R,
    alloc: Global,
    text: &[u8],
    out: &mut Vec<u8>,
) -> Result<bool, NoMemory> {
    let mut files = HostFiles::new(rt.clone()?);
    for line in &lines(alloc, text)? {
        if *line == b"drop".as_slice() {
            tell_dropped(alloc, HostFiles::new(rt.clone()?), &mut files, out)?;
        } else if !tell_line(alloc, &mut files, line, out)? {
            return Ok(false);
        }
    }
    Ok(true)
}
