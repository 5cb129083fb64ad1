//! Remotes that are saved.

use super::finding::tell_name;
use super::opening::{config_of, no_config};
use super::refusals;
use fetch_config::File;
use fetch_remote::{Remote, Repository};
use fetch_store::NoMemory;
use rows::{Question, say_lines, split_word};
use std::alloc::Global;

fn tell_file(alloc: Global, file: &File, out: &mut Vec<u8>) -> Result<(), NoMemory> {
    match file.write(alloc, None) {
        Ok(text) => say_lines(out, text.as_bytes()),
        Err(_) => Err(NoMemory),
    }
}

/// Saves a remote, and tells what refused it, and the configuration then.
fn tell_saved(
    alloc: Global,
    remote: &Remote,
    file: &mut File,
    out: &mut Vec<u8>,
) -> Result<(), NoMemory> {
    if let Err(e) = remote.save_to(alloc, file) {
        refusals::save(out, &e)?;
    }
    tell_file(alloc, file, out)
}

/// The same under another name, which is told too.
fn tell_saved_as(
    alloc: Global,
    remote: &mut Remote,
    name: &[u8],
    file: &mut File,
    out: &mut Vec<u8>,
) -> Result<(), NoMemory> {
    if let Err(e) = remote.save_as_to(alloc, name, file) {
        refusals::save_as(out, &e)?;
    }
    tell_name(out, remote.name())?;
    tell_file(alloc, file, out)
}

/// Saves the remote of a name or an address to this configuration.
fn save(
    alloc: Global,
    repo: &Repository,
    name: &[u8],
    file: &mut File,
    out: &mut Vec<u8>,
) -> Result<(), NoMemory> {
    match repo.find_fetch_remote(alloc, Some(name)) {
        Ok(remote) => tell_saved(alloc, &remote, file, out),
        Err(e) => refusals::for_fetch(out, &e),
    }
}

/// Saves it under another name.
fn save_as(
    alloc: Global,
    repo: &Repository,
    rest: &[u8],
    file: &mut File,
    out: &mut Vec<u8>,
) -> Result<(), NoMemory> {
    let (name, text) = split_word(rest);
    match repo.find_fetch_remote(alloc, Some(text)) {
        Ok(mut remote) => tell_saved_as(alloc, &mut remote, name, file, out),
        Err(e) => refusals::for_fetch(out, &e),
    }
}

/// Saves to the configuration of a row, where that is asked for, or under another name to one without sections. Whether it
/// is.
pub(crate) fn ask(
    alloc: Global,
    repo: &Repository,
    config: &[u8],
    question: Question<'_>,
    out: &mut Vec<u8>,
) -> Result<bool, NoMemory> {
    if question.what == b"save".as_slice() {
        let Some(mut file) = config_of(alloc, config)? else {
            return Ok(false);
        };
        save(alloc, repo, question.rest, &mut file, out)?;
        Ok(true)
    } else if question.what == b"save-as".as_slice() {
        let mut file = no_config(alloc)?;
        save_as(alloc, repo, question.rest, &mut file, out)?;
        Ok(true)
    } else {
        Ok(false)
    }
}
