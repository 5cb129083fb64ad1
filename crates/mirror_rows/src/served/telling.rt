//! What is told of a fetch.

use fetch_cli::{append_keep, append_map, append_refused, append_state, append_token};
use fetch_remote::{FetchError, Outcome, Repository, Status};
use fetch_store::{NoMemory, Text};
use fetch_update::Update;
use fetch_wire::Mapping;
use rows::say;
use std::alloc::Global;

fn updates_of(status: &Status) -> &[Update] {
    match status {
        Status::NoPackReceived { update_refs, .. } => update_refs.updates.as_slice(),
        Status::Change { update_refs, .. } => update_refs.updates.as_slice(),
    }
}

fn append_maps(
    out: &mut Vec<u8>,
    mappings: &[Mapping],
    updates: &[Update],
) -> Result<(), NoMemory> {
    for update in updates {
        if let Some(mapping) = mappings.get(update.mapping_index) {
            append_map(out, update, mapping)?;
        }
    }
    Ok(())
}

/// The path of the keep file that stays, where one does.
fn kept(status: &Status) -> Option<&Text> {
    match status {
        Status::NoPackReceived { .. } => None,
        Status::Change {
            write_pack_bundle,
            ..
        } => write_pack_bundle.keep_path.as_ref(),
    }
}

fn append_kept(out: &mut Vec<u8>, status: &Status) -> Result<(), NoMemory> {
    match kept(status) {
        Some(path) => append_keep(out, path.as_bytes()),
        None => Ok(()),
    }
}

/// What a report tells of a fetch that was done, but what was sent.
fn append_done(out: &mut Vec<u8>, outcome: &Outcome, repo: &Repository) -> Result<(), NoMemory> {
    append_maps(
        out,
        outcome.ref_map.mappings.as_slice(),
        updates_of(&outcome.status),
    )?;
    append_state(out, repo)?;
    append_kept(out, &outcome.status)?;
    say(out, &[b"ok"])
}

/// What a report tells of a fetch that was refused, but what was sent.
fn append_undone(
    out: &mut Vec<u8>,
    refusal: &FetchError,
    repo: &Repository,
) -> Result<(), NoMemory> {
    let mut token = Vec::new(*out.allocator());
    append_token(&mut token, refusal)?;
    append_refused(out, &token)?;
    append_state(out, repo)
}

/// What a report tells of a fetch but what was sent. The answer is boxed, so that its end is one call.
pub(crate) fn append_answer(
    alloc: Global,
    answer: Result<Outcome, FetchError>,
    repo: &Repository,
    out: &mut Vec<u8>,
) -> Result<(), NoMemory> {
    let answer = Box::new(alloc, answer)?;
    match &*answer {
        Ok(outcome) => append_done(out, outcome, repo),
        Err(refusal) => append_undone(out, refusal, repo),
    }
}
