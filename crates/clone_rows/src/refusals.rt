//! How refusals are told.

use fetch_clone::clone::fetch::Error;
use fetch_clone::with_revision;
use fetch_remote::{OpenError, connect, fetch, name, prepare, ref_map, save};
use fetch_specs::NameError;
use fetch_store::{NoMemory, ObjectId, Text, append_hex};
use fetch_wire::WireError;
use rows::{say, say_texts};

/// A refusal with these words after it.
fn refused(out: &mut Vec<u8>, words: &[&[u8]]) -> Result<(), NoMemory> {
    out.extend_from_slice(b"refused ")?;
    say(out, words)
}

pub(crate) fn of_name(out: &mut Vec<u8>, e: &name::Error) -> Result<(), NoMemory> {
    match e {
        name::Error::NoMemory => Err(NoMemory),
        _ => refused(out, &[b"Invalid"]),
    }
}

pub(crate) fn of_ref_name(out: &mut Vec<u8>, e: NameError) -> Result<(), NoMemory> {
    match e {
        NameError::Invalid { .. } => refused(out, &[b"Invalid"]),
        NameError::NoMemory => Err(NoMemory),
    }
}

pub(crate) fn of_revision(out: &mut Vec<u8>, e: &with_revision::Error) -> Result<(), NoMemory> {
    match e {
        with_revision::Error::Parse(_) => refused(out, &[b"Parse"]),
        with_revision::Error::Invalid => refused(out, &[b"Invalid"]),
        with_revision::Error::NoMemory => Err(NoMemory),
    }
}

/// A refusal of a maker of peers.
fn of_connect(out: &mut Vec<u8>, e: connect::Error) -> Result<(), NoMemory> {
    match e {
        connect::Error::MissingUrl { .. } => refused(out, &[b"Connect", b"MissingUrl"]),
        connect::Error::Connect => refused(out, &[b"Connect"]),
        connect::Error::NoMemory => Err(NoMemory),
    }
}

fn open_word(e: &OpenError) -> &'static [u8] {
    match e {
        OpenError::Io => b"Io",
        OpenError::Missing { .. } => b"Missing",
        OpenError::Config { .. } => b"Config",
        OpenError::Override { .. } => b"Override",
        OpenError::NoMemory => b"NoMemory",
    }
}

fn wire_word(e: &WireError) -> &'static [u8] {
    match e {
        WireError::Malformed { .. } => b"Malformed",
        WireError::ServerError { .. } => b"ServerError",
        WireError::MissingFeature { .. } => b"MissingFeature",
        _ => b"Wire",
    }
}

fn listing_word(e: &ref_map::Error) -> &'static [u8] {
    match e {
        ref_map::Error::Handshake(e) => wire_word(e),
        ref_map::Error::Transport => b"Transport",
        ref_map::Error::Interrupted => b"Interrupted",
        ref_map::Error::InitRefMap(_) => b"InitRefMap",
        _ => b"RefMap",
    }
}

fn preparing_word(e: &prepare::Error) -> &'static [u8] {
    match e {
        prepare::Error::RefMap(e) => listing_word(e),
        _ => b"MissingRefSpecs",
    }
}

fn receiving_word(e: &fetch::Error) -> &'static [u8] {
    match e {
        fetch::Error::Fetch(e) => wire_word(e),
        fetch::Error::Client => b"Client",
        fetch::Error::Interrupted => b"Interrupted",
        fetch::Error::Disconnected { .. } => b"Disconnected",
        fetch::Error::KeepFile { .. } => b"KeepFile",
        fetch::Error::RemovePackKeepFile { .. } => b"RemovePackKeepFile",
        fetch::Error::IncompatibleObjectHash { .. } => b"IncompatibleObjectHash",
        fetch::Error::RejectShallowRemote { .. } => b"RejectShallowRemote",
        fetch::Error::UpdateRefs(_) => b"UpdateRefs",
        _ => b"Pack",
    }
}

fn saving_word(e: &save::AsError) -> &'static [u8] {
    match e {
        save::AsError::NoMemory => b"NoMemory",
        _ => b"Save",
    }
}

/// A refusal that keeps a refusal of a call.
fn of_call(out: &mut Vec<u8>, e: &Error) -> Result<(), NoMemory> {
    match e {
        Error::Connect(e) => of_connect(out, *e),
        Error::RefMap(e) => refused(out, &[b"RefMap", listing_word(e)]),
        Error::PrepareFetch(e) => refused(out, &[b"PrepareFetch", preparing_word(e)]),
        Error::Fetch(e) => refused(out, &[b"Fetch", receiving_word(e)]),
        Error::LoadConfig(e) => refused(out, &[b"LoadConfig", open_word(e)]),
        Error::ReopenWithObjectHash(e) => refused(out, &[b"ReopenWithObjectHash", open_word(e)]),
        Error::SaveConfig(e) => refused(out, &[b"SaveConfig", saving_word(e)]),
        Error::RemoteName(_) => refused(out, &[b"RemoteName"]),
        _ => Err(NoMemory),
    }
}

/// A refusal of a name that may mean several references, which are told.
fn of_candidates(out: &mut Vec<u8>, wanted: &[u8], candidates: &[Text]) -> Result<(), NoMemory> {
    refused(out, &[b"RefNameAmbiguous", wanted])?;
    say_texts(out, b"may be", candidates)
}

/// A refusal of what is meant by a text.
fn of_text(out: &mut Vec<u8>, e: &Error) -> Result<(), NoMemory> {
    match e {
        Error::RefNameMissing { wanted } => {
            refused(out, &[b"RefNameMissing", wanted.as_bytes()])
        }
        Error::RefNameAmbiguous { wanted, candidates } => {
            of_candidates(out, wanted.as_bytes(), candidates.as_slice())
        }
        Error::InvalidHeadRef { head_ref_name } => {
            refused(out, &[b"InvalidHeadRef", head_ref_name.as_bytes()])
        }
        Error::ReferenceName { name } => refused(out, &[b"ReferenceName", name.as_bytes()]),
        Error::RevisionMissing { wanted } => {
            refused(out, &[b"RevisionMissing", wanted.as_bytes()])
        }
        _ => of_call(out, e),
    }
}

/// A refusal of a clone.
pub(crate) fn of_clone(out: &mut Vec<u8>, e: &Error) -> Result<(), NoMemory> {
    match e {
        Error::Consumed => refused(out, &[b"Consumed"]),
        Error::SaveConfigIo => refused(out, &[b"SaveConfigIo"]),
        Error::ParseConfig { text } => refused(out, &[b"ParseConfig", text.as_bytes()]),
        Error::RemoteConnection { text } => refused(out, &[b"RemoteConnection", text.as_bytes()]),
        Error::RemoteConfiguration { text } => {
            refused(out, &[b"RemoteConfiguration", text.as_bytes()])
        }
        Error::FindRevision { id } => of_id(out, b"FindRevision", id),
        Error::PeelRevision { id } => of_id(out, b"PeelRevision", id),
        _ => of_text(out, e),
    }
}

/// A refusal that keeps an id.
fn of_id(out: &mut Vec<u8>, word: &[u8], id: &ObjectId) -> Result<(), NoMemory> {
    let mut digits = Vec::new(*out.allocator());
    append_hex(&mut digits, id)?;
    refused(out, &[word, &digits])
}
