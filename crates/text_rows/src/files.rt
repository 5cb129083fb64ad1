//! Files in memory, and the calls that are to fail.

use fetch_store::{FileError, Files, MemoryFiles, NoMemory, Node, Text, decimal};
use rows::{Question, refuse, say, split_word};
use std::alloc::Global;
use std::fmt::Display;

/// Files of which the calls with these numbers fail, counted from 0.
pub(crate) fn failing(alloc: Global, numbers: &[u8]) -> Result<MemoryFiles, NoMemory> {
    let mut calls = Vec::new(alloc);
    for word in numbers.split(|b| *b == b',') {
        if let Some(number) = decimal(word) {
            calls.push(number)?;
        }
    }
    Ok(MemoryFiles::new(alloc, calls))
}

fn tell_done<E: Display + Drop>(out: &mut Vec<u8>, done: Result<(), E>) -> Result<(), NoMemory> {
    match done {
        Ok(()) => say(out, &[b"done"]),
        Err(e) => refuse(out, &e),
    }
}

fn tell_kind(out: &mut Vec<u8>, found: Result<Option<Node>, FileError>) -> Result<(), NoMemory> {
    match found {
        Ok(Some(Node::Directory)) => say(out, &[b"directory"]),
        Ok(Some(Node::File)) => say(out, &[b"file"]),
        Ok(None) => say(out, &[b"none"]),
        Err(e) => refuse(out, &e),
    }
}

fn tell_bytes(out: &mut Vec<u8>, found: Result<Option<Text>, FileError>) -> Result<(), NoMemory> {
    match found {
        Ok(Some(bytes)) => say(out, &[b"bytes", bytes.as_bytes()]),
        Ok(None) => say(out, &[b"none"]),
        Err(e) => refuse(out, &e),
    }
}

fn tell_names(out: &mut Vec<u8>, found: Result<Vec<Text>, FileError>) -> Result<(), NoMemory> {
    match found {
        Ok(names) => {
            for name in names.as_slice() {
                say(out, &[b"entry", name.as_bytes()])?;
            }
            Ok(())
        }
        Err(e) => refuse(out, &e),
    }
}

/// `<path>`, or `<path> <bytes>`, or two paths: makes a call on the files. Whether one is asked for.
fn change(
    files: &mut MemoryFiles,
    question: Question<'_>,
    out: &mut Vec<u8>,
) -> Result<bool, NoMemory> {
    let Question { what, rest } = question;
    let (path, second) = split_word(rest);
    if what == b"make-dir".as_slice() {
        tell_done(out, files.make_dir_all(path))?;
    } else if what == b"write-file".as_slice() {
        tell_done(out, files.write(path, second))?;
    } else if what == b"rename".as_slice() {
        tell_done(out, files.rename(path, second))?;
    } else if what == b"remove-file".as_slice() {
        tell_done(out, files.remove_file(path))?;
    } else if what == b"remove-dir".as_slice() {
        tell_done(out, files.remove_dir_all(path))?;
    } else {
        return Ok(false);
    }
    Ok(true)
}

/// The same of the calls that change nothing, and of `fail`, which begins with no files and says which calls fail.
pub(crate) fn ask(
    alloc: Global,
    files: &mut MemoryFiles,
    question: Question<'_>,
    out: &mut Vec<u8>,
) -> Result<bool, NoMemory> {
    let Question { what, rest } = question;
    if what == b"fail".as_slice() {
        *files = failing(alloc, rest)?;
    } else if what == b"kind".as_slice() {
        tell_kind(out, files.kind_of(rest))?;
    } else if what == b"read-file".as_slice() {
        tell_bytes(out, files.read(rest))?;
    } else if what == b"list".as_slice() {
        tell_names(out, files.list(rest))?;
    } else {
        return change(files, question, out);
    }
    Ok(true)
}
