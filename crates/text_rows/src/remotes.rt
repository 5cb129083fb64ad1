//! Remotes and branches of a configuration.

use crate::refspecs::{specs_of, tags_of};
use fetch_config::File;
use fetch_lookup::{
    Direction, Names, RemoteParts, branch_names, find_remote, has_branch_sections, remote_names,
    replace_refspecs, save_as_to, save_to, with_refspecs, without_branch_sections,
};
use fetch_specs::{Operation, RefSpec, SpecError, Tags};
use fetch_store::{List, NoMemory, Text};
use rows::{Question, decoded, refuse, say, say_specs, say_texts, split_word};
use std::alloc::Global;
use std::collections::BTreeSet;

fn say_names(out: &mut Vec<u8>, word: &[u8], names: &Names) -> Result<(), NoMemory> {
    for name in names {
        say(out, &[word, name.as_bytes()])?;
    }
    Ok(())
}

/// Tells the names of all remotes and branches.
fn tell_names(alloc: Global, file: &File, out: &mut Vec<u8>) -> Result<(), NoMemory> {
    say_names(out, b"remote", &remote_names(alloc, file)?)?;
    say_names(out, b"branch", &branch_names(alloc, file)?)
}

fn tell_remote(out: &mut Vec<u8>, remote: &RemoteParts) -> Result<(), NoMemory> {
    say_texts(out, b"url", remote.urls.as_slice())?;
    say_texts(out, b"push-url", remote.push_urls.as_slice())?;
    say_specs(out, b"refspec", remote.fetch_specs.as_slice())?;
    match remote.fetch_tags {
        Tags::All => say(out, &[b"all tags"]),
        Tags::None => say(out, &[b"no tags"]),
        Tags::Included => Ok(()),
    }
}

/// `<name>`: tells a remote, as `origin` or `myself`.
fn find(alloc: Global, file: &File, name: &[u8], out: &mut Vec<u8>) -> Result<(), NoMemory> {
    match find_remote(alloc, file, name) {
        Some(Ok(remote)) => tell_remote(out, &remote),
        Some(Err(e)) => refuse(out, &e),
        None => say(out, &[b"none"]),
    }
}

fn texts_of(alloc: Global, texts: &[u8]) -> Result<List<Text>, NoMemory> {
    let mut list = List::new(alloc);
    if !texts.is_empty() {
        for text in texts.split(|b| *b == b',') {
            list.push(Text::from(decoded(alloc, text)?))?;
        }
    }
    Ok(list)
}

/// `<tags> <addresses> <addresses to push to>`: a remote without a name, fetched by one refspec.
fn remote_of(alloc: Global, rest: &[u8]) -> Result<RemoteParts, SpecError> {
    let (tags, rest) = split_word(rest);
    let (urls, push_urls) = split_word(rest);
    let spec = b"+refs/heads/*:refs/remotes/origin/*";
    Ok(RemoteParts {
        name: None,
        urls: texts_of(alloc, urls)?,
        push_urls: texts_of(alloc, push_urls)?,
        fetch_specs: List::from(specs_of(alloc, spec, Operation::Fetch)?),
        push_specs: List::new(alloc),
        fetch_tags: tags_of(tags),
    })
}

/// Saves a remote, and once more by the name that it has got, which changes nothing.
fn save_named(
    alloc: Global,
    file: &mut File,
    remote: RemoteParts,
    name: &[u8],
    out: &mut Vec<u8>,
) -> Result<(), NoMemory> {
    let mut remote = remote;
    if let Err(e) = save_as_to(alloc, &mut remote, name, file) {
        return refuse(out, &e);
    }
    match save_to(alloc, &remote, file) {
        Ok(()) => Ok(()),
        Err(e) => refuse(out, &e),
    }
}

/// `<name or -> <remote>`: saves a remote. Whether the words are these.
fn save(alloc: Global, file: &mut File, rest: &[u8], out: &mut Vec<u8>) -> Result<bool, NoMemory> {
    let (name, rest) = split_word(rest);
    let Ok(remote) = remote_of(alloc, rest) else {
        return Ok(false);
    };
    if name == b"-".as_slice() {
        if let Err(e) = save_to(alloc, &remote, file) {
            refuse(out, &e)?;
        }
    } else {
        let name = decoded(alloc, name)?;
        save_named(alloc, file, remote, name.as_slice(), out)?;
    }
    Ok(true)
}

fn tell_sections(out: &mut Vec<u8>, file: &File, names: &Names) -> Result<(), NoMemory> {
    if has_branch_sections(file, names) {
        say(out, &[b"sections"])
    } else {
        say(out, &[b"no sections"])
    }
}

/// `<branch>`: removes its sections.
fn forget(alloc: Global, file: &mut File, name: &[u8], out: &mut Vec<u8>) -> Result<(), NoMemory> {
    let mut names = BTreeSet::new(alloc);
    names.insert(Text::new(alloc, name)?)?;
    tell_sections(out, file, &names)?;
    without_branch_sections(file, &names);
    tell_sections(out, file, &names)
}

fn extended(
    alloc: Global,
    list: &mut List<RefSpec>,
    is_replaced: bool,
    texts: &[u8],
) -> Result<(), SpecError> {
    let texts = texts_of(alloc, texts)?;
    if is_replaced {
        replace_refspecs(alloc, list, texts.as_slice(), Direction::Fetch)
    } else {
        with_refspecs(alloc, list, texts.as_slice(), Direction::Fetch)
    }
}

/// `<refspecs> <refspecs>`: adds the second to the first, or puts them in their place. Whether the first are refspecs.
fn extend(
    alloc: Global,
    is_replaced: bool,
    rest: &[u8],
    out: &mut Vec<u8>,
) -> Result<bool, NoMemory> {
    let (first, second) = split_word(rest);
    let Ok(specs) = specs_of(alloc, first, Operation::Fetch) else {
        return Ok(false);
    };
    let mut list = List::from(specs);
    if let Err(e) = extended(alloc, &mut list, is_replaced, second) {
        refuse(out, &e)?;
    }
    say_specs(out, b"refspec", list.as_slice())?;
    Ok(true)
}

/// Tells what is asked of remotes and branches. Whether something is.
pub(crate) fn ask_of_remotes(
    alloc: Global,
    file: &mut File,
    question: Question<'_>,
    out: &mut Vec<u8>,
) -> Result<bool, NoMemory> {
    let Question { what, rest } = question;
    if what == b"names".as_slice() {
        tell_names(alloc, file, out)?;
    } else if what == b"find".as_slice() {
        find(alloc, file, rest, out)?;
    } else if what == b"forget".as_slice() {
        forget(alloc, file, rest, out)?;
    } else if what == b"save".as_slice() {
        return save(alloc, file, rest, out);
    } else if what == b"with".as_slice() {
        return extend(alloc, false, rest, out);
    } else if what == b"in-place".as_slice() {
        return extend(alloc, true, rest, out);
    } else {
        return Ok(false);
    }
    Ok(true)
}
