//! Remotes that are found.

use super::refusals;
use fetch_remote::find::existing;
use fetch_remote::{Direction, Name, Remote, Repository, name};
use fetch_specs::Tags;
use fetch_store::{NoMemory, Text};
use rows::{Question, say, say_specs, say_texts};
use std::alloc::Global;

/// What a direction is called.
pub(crate) fn direction_of(word: &[u8]) -> Option<Direction> {
    if word == b"fetch".as_slice() {
        Some(Direction::Fetch)
    } else if word == b"push".as_slice() {
        Some(Direction::Push)
    } else {
        None
    }
}

/// The line of a name that may be absent.
pub(crate) fn tell_name(out: &mut Vec<u8>, name: Option<&Name>) -> Result<(), NoMemory> {
    match name {
        Some(Name::Symbol(text)) => say(out, &[b"symbol", text.as_bytes()]),
        Some(Name::Url(text)) => say(out, &[b"place", text.as_bytes()]),
        None => say(out, &[b"nameless"]),
    }
}

fn word_of(tags: Tags) -> &'static [u8] {
    match tags {
        Tags::All => b"all",
        Tags::Included => b"included",
        Tags::None => b"none",
    }
}

/// The lines of a remote.
pub(crate) fn tell_remote(out: &mut Vec<u8>, remote: &Remote) -> Result<(), NoMemory> {
    tell_name(out, remote.name())?;
    say_texts(out, b"url", remote.urls(Direction::Fetch))?;
    say_texts(out, b"push-url", remote.urls(Direction::Push))?;
    say_specs(out, b"fetch", remote.refspecs(Direction::Fetch))?;
    say_specs(out, b"push", remote.refspecs(Direction::Push))?;
    say(out, &[b"tags", word_of(remote.fetch_tags())])
}

/// The lines of an answer.
pub(crate) fn tell_existing(
    out: &mut Vec<u8>,
    found: &Result<Remote, existing::Error>,
) -> Result<(), NoMemory> {
    match found {
        Ok(remote) => tell_remote(out, remote),
        Err(e) => refusals::existing(out, e),
    }
}

/// The lines of an answer that may be none.
pub(crate) fn tell_maybe(
    out: &mut Vec<u8>,
    found: &Option<Result<Remote, existing::Error>>,
) -> Result<(), NoMemory> {
    match found {
        Some(found) => tell_existing(out, found),
        None => say(out, &[b"none"]),
    }
}

/// Tells the names of all remotes.
pub(crate) fn names(alloc: Global, repo: &Repository, out: &mut Vec<u8>) -> Result<(), NoMemory> {
    for name in &repo.remote_names(alloc)? {
        say(out, &[b"remote", name.as_bytes()])?;
    }
    Ok(())
}

fn tell_text(out: &mut Vec<u8>, text: &Option<Text>) -> Result<(), NoMemory> {
    match text {
        Some(text) => say(out, &[b"remote", text.as_bytes()]),
        None => say(out, &[b"none"]),
    }
}

/// What is asked of a direction. Whether something is.
fn ask_of_direction(
    alloc: Global,
    repo: &Repository,
    question: Question<'_>,
    out: &mut Vec<u8>,
) -> Result<bool, NoMemory> {
    let Some(direction) = direction_of(question.rest) else {
        return Ok(false);
    };
    if question.what == b"default-name".as_slice() {
        tell_text(out, &repo.remote_default_name(alloc, direction)?)?;
    } else if question.what == b"find-default".as_slice() {
        tell_maybe(out, &repo.find_default_remote(alloc, direction))?;
    } else {
        return Ok(false);
    }
    Ok(true)
}

fn find(alloc: Global, repo: &Repository, name: &[u8], out: &mut Vec<u8>) -> Result<(), NoMemory> {
    let found = repo.find_remote(alloc, name);
    tell_existing(out, &found)
}

fn try_find(
    alloc: Global,
    repo: &Repository,
    name: &[u8],
    out: &mut Vec<u8>,
) -> Result<(), NoMemory> {
    match repo.try_find_remote(alloc, name) {
        Some(Ok(remote)) => tell_remote(out, &remote),
        Some(Err(e)) => refusals::find(out, &e),
        None => say(out, &[b"none"]),
    }
}

fn at(alloc: Global, repo: &Repository, address: &[u8], out: &mut Vec<u8>) -> Result<(), NoMemory> {
    match repo.remote_at(alloc, address) {
        Ok(remote) => tell_remote(out, &remote),
        Err(e) => refusals::init(out, &e),
    }
}

fn to_fetch(
    alloc: Global,
    repo: &Repository,
    text: Option<&[u8]>,
    out: &mut Vec<u8>,
) -> Result<(), NoMemory> {
    match repo.find_fetch_remote(alloc, text) {
        Ok(remote) => tell_remote(out, &remote),
        Err(e) => refusals::for_fetch(out, &e),
    }
}

fn validate(alloc: Global, text: &[u8], out: &mut Vec<u8>) -> Result<(), NoMemory> {
    match name::validated(alloc, text) {
        Ok(name) => say(out, &[b"remote", name.as_bytes()]),
        Err(e) => refusals::named(out, &e),
    }
}

/// Tells which remote is asked for. Whether one is.
pub(crate) fn ask(
    alloc: Global,
    repo: &Repository,
    question: Question<'_>,
    out: &mut Vec<u8>,
) -> Result<bool, NoMemory> {
    let Question { what, rest } = question;
    if what == b"names".as_slice() {
        names(alloc, repo, out)?;
    } else if what == b"find".as_slice() {
        find(alloc, repo, rest, out)?;
    } else if what == b"try-find".as_slice() {
        try_find(alloc, repo, rest, out)?;
    } else if what == b"at".as_slice() {
        at(alloc, repo, rest, out)?;
    } else if what == b"to-fetch-from".as_slice() {
        to_fetch(alloc, repo, Some(rest), out)?;
    } else if what == b"to-fetch".as_slice() {
        to_fetch(alloc, repo, None, out)?;
    } else if what == b"validated".as_slice() {
        validate(alloc, rest, out)?;
    } else {
        return ask_of_direction(alloc, repo, question, out);
    }
    Ok(true)
}
