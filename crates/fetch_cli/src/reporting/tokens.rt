//! How a report tells a refusal.

ghost use Rattle.std.specs.Prelude.{◌≡◌, ◌++◌, decimal, OnOk};
ghost use Rattle.fetch_base.specs.Digits.{hex_of};
ghost use Rattle.fetch_cli.specs.Tokens as spec;

use crate::reporting::lines::append_target;
use fetch_pack::PackError;
use fetch_refs::{RefError, Target};
use fetch_remote::{FetchError, fetch, prepare, ref_map};
use fetch_store::{Kind, NoMemory, ObjectId, Text, append_hex, append_number};
use fetch_update::update;
use fetch_wire::WireError;

/// A name, and the text that it keeps.
#[tactic(auto, unfolding(crate::specs::Tokens::keeping))]
pub fn append_text(out: &mut Vec<u8>, word: &[u8], text: &[u8]) -> Result<(), NoMemory>
    ensures { OnOk result (out.new.items ≡ out.old.items ++ spec.keeping word.now text.now) }
{
    out.extend_from_slice(word)?;
    out.extend_from_slice(b" ")?;
    out.extend_from_slice(text)?;
    Ok(())
}

fn append_value(out: &mut Vec<u8>, word: &[u8], value: &Text) -> Result<(), NoMemory>
    ensures { OnOk result (out.new.items ≡ out.old.items ++ spec.keeping word.now value.now) }
{
    append_text(out, word, value.as_bytes())
}

/// A name, and the number that it keeps.
#[tactic(auto, unfolding(crate::specs::Tokens::keeping))]
pub fn append_count(out: &mut Vec<u8>, word: &[u8], n: usize) -> Result<(), NoMemory>
    ensures { OnOk result (out.new.items ≡ out.old.items ++ spec.keeping word.now (decimal n)) }
{
    out.extend_from_slice(word)?;
    out.extend_from_slice(b" ")?;
    append_number(out, n)
}

/// A name, and the id that it keeps.
#[tactic(auto, unfolding(crate::specs::Tokens::keeping))]
pub fn append_digits(out: &mut Vec<u8>, word: &[u8], id: &ObjectId) -> Result<(), NoMemory>
    ensures { OnOk result (out.new.items ≡ out.old.items ++ spec.keeping word.now (hex_of id.now)) }
{
    out.extend_from_slice(word)?;
    out.extend_from_slice(b" ")?;
    append_hex(out, id)
}

/// A name that keeps nothing.
pub fn append_word(out: &mut Vec<u8>, word: &[u8]) -> Result<(), NoMemory>
    ensures { OnOk result (out.new.items ≡ out.old.items ++ word.now) }
{
    out.extend_from_slice(word)?;
    Ok(())
}

#[tactic(auto, unfolding(crate::specs::Tokens::keeping))]
fn append_place(out: &mut Vec<u8>, word: &[u8], text: &[u8], n: usize) -> Result<(), NoMemory>
    ensures { OnOk result (out.new.items ≡ out.old.items ++ spec.keeping (spec.keeping word.now text.now) (decimal n)) }
{
    append_text(out, word, text)?;
    out.extend_from_slice(b" ")?;
    append_number(out, n)
}

#[tactic(auto, unfolding(crate::specs::Tokens::wire_token))]
fn append_wire(out: &mut Vec<u8>, refusal: &WireError) -> Result<(), NoMemory>
    ensures { OnOk result (out.new.items ≡ out.old.items ++ spec.wire_token refusal.now) }
{
    match refusal {
        WireError::Malformed { place } => append_count(out, b"Malformed", *place),
        WireError::ServerError { text } => append_text(out, b"ServerError", text.as_bytes()),
        WireError::ReplyTooLong { bound } => append_count(out, b"ReplyTooLong", *bound as usize),
        WireError::MissingFeature { name } => append_text(out, b"MissingFeature", name.as_bytes()),
        WireError::LineTooLong { length } => append_count(out, b"LineTooLong", *length),
        WireError::BadParameter { text, place } => {
            append_place(out, b"BadParameter", text.as_bytes(), *place)
        }
        WireError::NoMemory => append_word(out, b"NoMemory"),
    }
}

/// A name, and the two ids that it keeps.
#[tactic(auto, unfolding(crate::specs::Tokens::keeping))]
pub fn append_both(
    out: &mut Vec<u8>,
    word: &[u8],
    first: &ObjectId,
    second: &ObjectId,
) -> Result<(), NoMemory>
    ensures { OnOk result (out.new.items ≡ out.old.items ++ spec.keeping (spec.keeping word.now (hex_of first.now)) (hex_of second.now)) }
{
    append_digits(out, word, first)?;
    out.extend_from_slice(b" ")?;
    append_hex(out, second)
}

#[tactic(auto, unfolding(crate::specs::Tokens::pack_token))]
fn append_pack(out: &mut Vec<u8>, refusal: &PackError) -> Result<(), NoMemory>
    ensures { OnOk result (out.new.items ≡ out.old.items ++ spec.pack_token refusal.now) }
{
    match refusal {
        PackError::Malformed { place } => append_count(out, b"Malformed", *place),
        PackError::PackDigest { found, computed } => {
            append_both(out, b"PackDigest", found, computed)
        }
        PackError::IdMismatch { written, computed } => {
            append_both(out, b"IdMismatch", written, computed)
        }
        PackError::Collision { id } => append_digits(out, b"Collision", id),
        PackError::NoMemory => append_word(out, b"NoMemory"),
    }
}

/// What stands at a name, or `none`.
#[tactic(auto, unfolding(crate::specs::Tokens::found_text))]
pub fn append_found(out: &mut Vec<u8>, found: &Option<Target>) -> Result<(), NoMemory>
    ensures { OnOk result (out.new.items ≡ out.old.items ++ spec.found_text found.now) }
{
    match found {
        None => append_word(out, b"none"),
        Some(target) => append_target(out, &target.as_ref()),
    }
}

#[tactic(auto, unfolding(crate::specs::Tokens::keeping))]
fn append_expectation(
    out: &mut Vec<u8>,
    word: &[u8],
    index: usize,
    found: &Option<Target>,
) -> Result<(), NoMemory>
    ensures { OnOk result (out.new.items ≡ out.old.items
        ++ spec.keeping (spec.keeping word.now (decimal index)) (spec.found_text found.now)) }
{
    append_count(out, word, index)?;
    out.extend_from_slice(b" ")?;
    append_found(out, found)
}

#[tactic(auto, unfolding(crate::specs::Tokens::refs_token))]
fn append_refs(out: &mut Vec<u8>, refusal: &RefError) -> Result<(), NoMemory>
    ensures { OnOk result (out.new.items ≡ out.old.items ++ spec.refs_token refusal.now) }
{
    match refusal {
        RefError::Expectation { index, found } => {
            append_expectation(out, b"Expectation", *index, found)
        }
        RefError::Cycle { name } => append_text(out, b"Cycle", name.as_bytes()),
        RefError::Depth { name } => append_text(out, b"Depth", name.as_bytes()),
        RefError::Unborn { name } => append_text(out, b"Unborn", name.as_bytes()),
        RefError::MissingObject { id } => append_digits(out, b"MissingObject", id),
        RefError::TagCycle { id } => append_digits(out, b"TagCycle", id),
        RefError::NoMemory => append_word(out, b"NoMemory"),
    }
}

#[tactic(auto, unfolding(crate::specs::Tokens::keeping))]
fn append_cause(
    out: &mut Vec<u8>,
    word: &[u8],
    name: &[u8],
    cause: &RefError,
) -> Result<(), NoMemory>
    ensures { OnOk result (out.new.items ≡ out.old.items ++ spec.keeping (spec.keeping word.now name.now) (spec.refs_token cause.now)) }
{
    append_text(out, word, name)?;
    out.extend_from_slice(b" ")?;
    append_refs(out, cause)
}

#[tactic(auto, unfolding(crate::specs::Tokens::update_token))]
fn append_update(out: &mut Vec<u8>, refusal: &update::Error) -> Result<(), NoMemory>
    ensures { OnOk result (out.new.items ≡ out.old.items ++ spec.update_token refusal.now) }
{
    match refusal {
        update::Error::FindReference { name } => append_text(
            out,
            b"FindReference",
            name.as_bytes(),
        ),
        update::Error::InvalidRefName { name } => {
            append_text(out, b"InvalidRefName", name.as_bytes())
        }
        update::Error::FindCommit { id } => append_digits(out, b"FindCommit", id),
        update::Error::PeelToId { name, cause } => {
            append_cause(out, b"PeelToId", name.as_bytes(), cause)
        }
        update::Error::WorktreeListing => append_word(out, b"WorktreeListing"),
        update::Error::OpenWorktreeRepo => append_word(out, b"OpenWorktreeRepo"),
        update::Error::FollowSymref => append_word(out, b"FollowSymref"),
        update::Error::NoMemory => append_word(out, b"NoMemory"),
    }
}

#[tactic(auto, unfolding(crate::specs::Tokens::ref_map_token))]
fn append_ref_map(out: &mut Vec<u8>, refusal: &ref_map::Error) -> Result<(), NoMemory>
    ensures { OnOk result (out.new.items ≡ out.old.items ++ spec.ref_map_token refusal.now) }
{
    match refusal {
        ref_map::Error::Handshake(e) => append_wire(out, e),
        ref_map::Error::Transport => append_word(out, b"Transport"),
        ref_map::Error::Interrupted => append_word(out, b"Interrupted"),
        ref_map::Error::InitRefMap(_) => append_word(out, b"InitRefMap"),
        ref_map::Error::NoMemory => append_word(out, b"NoMemory"),
    }
}

#[tactic(auto, unfolding(crate::specs::Tokens::prepare_token))]
fn append_prepare(out: &mut Vec<u8>, refusal: &prepare::Error) -> Result<(), NoMemory>
    ensures { OnOk result (out.new.items ≡ out.old.items ++ spec.prepare_token refusal.now) }
{
    match refusal {
        prepare::Error::MissingRefSpecs => append_word(out, b"MissingRefSpecs"),
        prepare::Error::RefMap(e) => append_ref_map(out, e),
        prepare::Error::NoMemory => append_word(out, b"NoMemory"),
    }
}

/// The name of a hash.
fn append_kind(out: &mut Vec<u8>, kind: Kind) -> Result<(), NoMemory>
    ensures { OnOk result (out.new.items ≡ out.old.items ++ spec.hash_text kind) }
{
    match kind {
        Kind::Sha1 => append_word(out, b"sha1"),
        Kind::Sha256 => append_word(out, b"sha256"),
    }
}

#[tactic(auto, unfolding(crate::specs::Tokens::keeping))]
fn append_kinds(out: &mut Vec<u8>, word: &[u8], local: Kind, remote: Kind) -> Result<(), NoMemory>
    ensures { OnOk result (out.new.items ≡ out.old.items
        ++ spec.keeping (spec.keeping word.now (spec.hash_text local)) (spec.hash_text remote)) }
{
    out.extend_from_slice(word)?;
    out.extend_from_slice(b" ")?;
    append_kind(out, local)?;
    out.extend_from_slice(b" ")?;
    append_kind(out, remote)
}

#[tactic(auto, unfolding(crate::specs::Tokens::receive_token))]
fn append_receive(out: &mut Vec<u8>, refusal: &fetch::Error) -> Result<(), NoMemory>
    ensures { OnOk result (out.new.items ≡ out.old.items ++ spec.receive_token refusal.now) }
{
    match refusal {
        fetch::Error::NoMapping {
            num_remote_refs,
            ..
        } => append_count(out, b"NoMapping", *num_remote_refs),
        fetch::Error::IncompatibleObjectHash { local, remote } => {
            append_kinds(out, b"IncompatibleObjectHash", *local, *remote)
        }
        fetch::Error::Disconnected { link } => {
            append_both(out, b"Disconnected", &link.from, &link.to)
        }
        fetch::Error::RejectShallowRemoteConfig { value } => {
            append_value(out, b"RejectShallowRemoteConfig", value)
        }
        fetch::Error::NegotiationAlgorithmConfig { value } => {
            append_value(out, b"NegotiationAlgorithmConfig", value)
        }
        fetch::Error::PackThreads { value } => append_value(out, b"PackThreads", value),
        fetch::Error::Fetch(e) => append_wire(out, e),
        fetch::Error::Client => append_word(out, b"Client"),
        fetch::Error::Interrupted => append_word(out, b"Interrupted"),
        fetch::Error::RejectShallowRemote { id } => {
            append_digits(out, b"RejectShallowRemote", id)
        }
        fetch::Error::Pack(e) => append_pack(out, e),
        fetch::Error::Collision { id } => append_digits(out, b"Collision", id),
        fetch::Error::KeepFile { path } => append_value(out, b"KeepFile", path),
        fetch::Error::UpdateRefs(e) => append_update(out, e),
        fetch::Error::RemovePackKeepFile { path } => {
            append_value(out, b"RemovePackKeepFile", path)
        }
        fetch::Error::NoMemory => append_word(out, b"NoMemory"),
    }
}

/// The name of a refusal, and what it keeps.
#[tactic(auto, unfolding(crate::specs::Tokens::token))]
pub fn append_token(out: &mut Vec<u8>, refusal: &FetchError) -> Result<(), NoMemory>
    ensures { OnOk result (out.new.items ≡ out.old.items ++ spec.token refusal.now) }
{
    match refusal {
        FetchError::Prepare(e) => append_prepare(out, e),
        FetchError::Receive(e) => append_receive(out, e),
        FetchError::NoMemory => append_word(out, b"NoMemory"),
    }
}
