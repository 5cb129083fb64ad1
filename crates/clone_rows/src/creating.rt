//! Repositories that are created.

use fetch_clone::create::{self, Error, Kind, Options};
use fetch_clone::init;
use fetch_store::{Files, NoMemory};
use rows::{say, somebody, split_word};
use std::alloc::Global;

/// How a refusal is called.
fn word_of(e: &Error) -> &'static [u8] {
    match e {
        Error::IoOpen { .. } => b"IoOpen",
        Error::IoWrite { .. } => b"IoWrite",
        Error::CreateDirectory { .. } => b"CreateDirectory",
        Error::DirectoryNotEmpty { .. } => b"DirectoryNotEmpty",
        Error::DirectoryExists { .. } => b"DirectoryExists",
        Error::NoMemory => b"NoMemory",
    }
}

/// Options of SHA-256, where there are no symbolic links.
fn other_options() -> Options {
    Options {
        object_hash: Some(fetch_store::Kind::Sha256),
        fs_capabilities: Some(create::Capabilities {
            executable_bit: true,
            symlink: false,
            ignore_case: false,
            precompose_unicode: false,
        }),
        ..Options::default()
    }
}

/// Creates a repository, and tells where it stands, or how it was refused.
fn tell_created<F: Files>(
    alloc: Global,
    files: &mut F,
    directory: &[u8],
    kind: Kind,
    options: Options,
    out: &mut Vec<u8>,
) -> Result<(), NoMemory> {
    match create::into(alloc, files, directory, kind, options) {
        Ok(path) => say(out, &[b"created", path.git_dir.as_bytes()]),
        Err(e) => say(out, &[b"refused", word_of(&e)]),
    }
}

/// `bare`, `beside` or `other`, and a directory: creates a bare repository, one with a work tree, or one with a work tree
/// and other options. Whether the words are these.
pub(crate) fn tell<F: Files>(
    alloc: Global,
    files: &mut F,
    words: &[u8],
    out: &mut Vec<u8>,
) -> Result<bool, NoMemory> {
    let (what, directory) = split_word(words);
    let (kind, options) = if what == b"bare".as_slice() {
        (Kind::Bare, Options::default())
    } else if what == b"beside".as_slice() {
        (Kind::WithWorktree, Options::default())
    } else if what == b"other".as_slice() {
        (Kind::WithWorktree, other_options())
    } else {
        return Ok(false);
    };
    tell_created(alloc, files, directory, kind, options, out)?;
    Ok(true)
}

/// How a refused step is called, and its path.
fn say_step(e: &Error, out: &mut Vec<u8>) -> Result<(), NoMemory> {
    match e {
        Error::IoOpen { path } => say(out, &[b"IoOpen", path.as_bytes()]),
        Error::IoWrite { path } => say(out, &[b"IoWrite", path.as_bytes()]),
        Error::CreateDirectory { path } => say(out, &[b"CreateDirectory", path.as_bytes()]),
        Error::DirectoryNotEmpty { path } => say(out, &[b"DirectoryNotEmpty", path.as_bytes()]),
        Error::DirectoryExists { path } => say(out, &[b"DirectoryExists", path.as_bytes()]),
        Error::NoMemory => say(out, &[b"NoMemory"]),
    }
}

/// How a refusal is called.
fn say_refusal(e: &init::Error, out: &mut Vec<u8>) -> Result<(), NoMemory> {
    match e {
        init::Error::Init(e) => say_step(e, out),
        init::Error::Open(_) => say(out, &[b"Open"]),
        init::Error::InvalidBranchName { .. } => say(out, &[b"InvalidBranchName"]),
        init::Error::NoMemory => say(out, &[b"NoMemory"]),
    }
}

/// Creates and opens a bare repository, and tells that it is created, or what refused it.
pub(crate) fn tell_opened<F: Files>(
    alloc: Global,
    files: &mut F,
    directory: &[u8],
    out: &mut Vec<u8>,
) -> Result<(), NoMemory> {
    let committer = somebody(alloc)?;
    match init::init(
        alloc,
        files,
        directory,
        Kind::Bare,
        Options::default(),
        committer,
    ) {
        Ok(_) => say(out, &[b"created"]),
        Err(e) => say_refusal(&e, out),
    }
}
