//! How refusals are told.

use fetch_remote::find::{existing, for_fetch};
use fetch_remote::{
    Direction, OpenError, branch, connect, delete, find, name, remote, save, upstream,
};
use fetch_specs::{FullName, SpecError};
use fetch_store::{NoMemory, Text};
use itoa::Buffer;
use rows::{say, say_texts};

/// A refusal with these words after it.
pub(crate) fn refused(out: &mut Vec<u8>, words: &[&[u8]]) -> Result<(), NoMemory> {
    out.extend_from_slice(b"refused ")?;
    say(out, words)
}

fn refused_at(out: &mut Vec<u8>, word: &[u8], place: usize) -> Result<(), NoMemory> {
    let mut buffer = Buffer::new();
    refused(out, &[word, buffer.format(place).as_bytes()])
}

fn word_of(e: &SpecError) -> &[u8] {
    match e {
        SpecError::Empty => b"Empty",
        SpecError::NegativeWithDestination => b"NegativeWithDestination",
        SpecError::NegativeObjectHash => b"NegativeObjectHash",
        SpecError::PatternUnbalanced => b"PatternUnbalanced",
        SpecError::PatternUnsupported => b"PatternUnsupported",
        SpecError::InvalidName { .. } => b"InvalidName",
        SpecError::NoMemory => b"NoMemory",
    }
}

fn side(direction: &Direction) -> &[u8] {
    direction.as_str().as_bytes()
}

pub(crate) fn find(out: &mut Vec<u8>, e: &find::Error) -> Result<(), NoMemory> {
    match e {
        find::Error::TagOpt { value } => refused(out, &[b"TagOpt", value.as_bytes()]),
        find::Error::Url { kind, remote_name } => {
            refused(out, &[b"Url", side(kind), remote_name.as_bytes()])
        }
        find::Error::RefSpec {
            kind,
            remote_name,
            source,
        } => refused(
            out,
            &[
                b"RefSpec",
                side(kind),
                remote_name.as_bytes(),
                word_of(source),
            ],
        ),
        find::Error::NoMemory => Err(NoMemory),
    }
}

pub(crate) fn existing(out: &mut Vec<u8>, e: &existing::Error) -> Result<(), NoMemory> {
    match e {
        existing::Error::Find(e) => find(out, e),
        existing::Error::NotFound { name } => refused(out, &[b"NotFound", name.as_bytes()]),
        existing::Error::UrlParse => refused(out, &[b"UrlParse"]),
        existing::Error::NoMemory => Err(NoMemory),
    }
}

pub(crate) fn init(out: &mut Vec<u8>, e: &remote::init::Error) -> Result<(), NoMemory> {
    match e {
        remote::init::Error::Url => refused(out, &[b"Url"]),
        remote::init::Error::NoMemory => Err(NoMemory),
    }
}

pub(crate) fn for_fetch(out: &mut Vec<u8>, e: &for_fetch::Error) -> Result<(), NoMemory> {
    match e {
        for_fetch::Error::FindExisting(e) => existing(out, e),
        for_fetch::Error::Init(e) => init(out, e),
        for_fetch::Error::ExactlyOneRemoteNotAvailable => {
            refused(out, &[b"ExactlyOneRemoteNotAvailable"])
        }
        for_fetch::Error::NoMemory => Err(NoMemory),
    }
}

pub(crate) fn branch(out: &mut Vec<u8>, e: &branch::Error) -> Result<(), NoMemory> {
    match e {
        branch::Error::Name { place } => refused_at(out, b"Name", *place),
        branch::Error::Remote(e) => existing(out, e),
        branch::Error::PushDefault { value } => refused(out, &[b"PushDefault", value.as_bytes()]),
        branch::Error::NoMemory => Err(NoMemory),
    }
}

/// A refusal, and a line for each of these texts.
fn refused_over(out: &mut Vec<u8>, words: &[&[u8]], texts: &[Text]) -> Result<(), NoMemory> {
    refused(out, words)?;
    say_texts(out, b"with", texts)
}

pub(crate) fn upstream(out: &mut Vec<u8>, e: &upstream::Error) -> Result<(), NoMemory> {
    match e {
        upstream::Error::BranchCategory { full_name } => {
            refused(out, &[b"BranchCategory", full_name.as_bytes()])
        }
        upstream::Error::FindRemote(e) => existing(out, e),
        upstream::Error::AmbiguousRemotes { remotes } => {
            refused_over(out, &[b"AmbiguousRemotes"], remotes.as_slice())
        }
        upstream::Error::ValidateUpstreamBranch { place } => {
            refused_at(out, b"ValidateUpstreamBranch", *place)
        }
        upstream::Error::NoMemory => Err(NoMemory),
    }
}

pub(crate) fn named(out: &mut Vec<u8>, e: &name::Error) -> Result<(), NoMemory> {
    match e {
        name::Error::Invalid { source, name } => {
            refused(out, &[b"Invalid", word_of(source), name.as_bytes()])
        }
        name::Error::NoMemory => Err(NoMemory),
    }
}

pub(crate) fn save(out: &mut Vec<u8>, e: &save::Error) -> Result<(), NoMemory> {
    match e {
        save::Error::NameMissing { url } => refused(out, &[b"NameMissing", url.as_bytes()]),
        save::Error::Value { place } => refused_at(out, b"Value", *place),
        save::Error::NoMemory => Err(NoMemory),
    }
}

pub(crate) fn save_as(out: &mut Vec<u8>, e: &save::AsError) -> Result<(), NoMemory> {
    match e {
        save::AsError::Save(e) => save(out, e),
        save::AsError::Name(e) => named(out, e),
        save::AsError::NoMemory => Err(NoMemory),
    }
}

pub(crate) fn connect(out: &mut Vec<u8>, e: &connect::Error) -> Result<(), NoMemory> {
    match e {
        connect::Error::MissingUrl { direction } => refused(out, &[b"MissingUrl", side(direction)]),
        connect::Error::Connect => refused(out, &[b"Connect"]),
        connect::Error::NoMemory => Err(NoMemory),
    }
}

pub(crate) fn opened(out: &mut Vec<u8>, e: &OpenError) -> Result<(), NoMemory> {
    match e {
        OpenError::Io => refused(out, &[b"Io"]),
        OpenError::Missing { path } => refused(out, &[b"Missing", path.as_bytes()]),
        OpenError::Config { line } => refused_at(out, b"Config", *line),
        OpenError::Override { text } => refused(out, &[b"Override", text.as_bytes()]),
        OpenError::NoMemory => Err(NoMemory),
    }
}

fn cleanup(
    out: &mut Vec<u8>,
    references: &[FullName],
    source: delete::CleanupError,
) -> Result<(), NoMemory> {
    match source {
        delete::CleanupError::Write => refused(out, &[b"Cleanup", b"Write"])?,
        delete::CleanupError::Commit => refused(out, &[b"Cleanup", b"Commit"])?,
    }
    for name in references {
        say(out, &[b"with", name.as_bytes()])?;
    }
    Ok(())
}

fn unread(out: &mut Vec<u8>, cause: &OpenError) -> Result<(), NoMemory> {
    refused(out, &[b"ConfigRead"])?;
    opened(out, cause)
}

pub(crate) fn deleted(out: &mut Vec<u8>, e: &delete::Error) -> Result<(), NoMemory> {
    match e {
        delete::Error::NotLocal { name } => refused(out, &[b"NotLocal", name.as_bytes()]),
        delete::Error::WorktreeListing => refused(out, &[b"WorktreeListing"]),
        delete::Error::OpenWorktreeRepo => refused(out, &[b"OpenWorktreeRepo"]),
        delete::Error::FollowSymref => refused(out, &[b"FollowSymref"]),
        delete::Error::CheckedOut {
            name,
            worktree_dirs,
        } => refused_over(
            out,
            &[b"CheckedOut", name.as_bytes()],
            worktree_dirs.as_slice(),
        ),
        delete::Error::ConfigRead { cause } => unread(out, cause),
        delete::Error::Cleanup { references, source } => {
            cleanup(out, references.as_slice(), *source)
        }
        delete::Error::NoMemory => Err(NoMemory),
    }
}
