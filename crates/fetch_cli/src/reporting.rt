//! The report of a scene.

pub mod fetch_case;
pub mod heard;
mod keep_files;
pub mod lines;
pub mod map_lines;
pub mod state_lines;
pub mod summary;
pub mod tokens;

ghost use Rattle.std.specs.Prelude.{◌≡◌, ◌++◌, false, IfOk, OnOk};
ghost use Rattle.std.specs.List.{concat};
ghost use Rattle.std.specs.Option.{option_copied};
ghost use Rattle.fetch_store.specs.Stores.{AreOf};
ghost use Rattle.fetch_remote.specs.Keeping.{keep_in};
ghost use Rattle.fetch_remote.specs.Repositories.{state_of, setup_of};
ghost use Rattle.fetch_cli.specs.Fetched.{HasFetched};
ghost use Rattle.fetch_cli.specs.Heard.{lines_heard};
ghost use Rattle.fetch_cli.specs.Report as spec;
ghost use Rattle.fetch_cli.specs.Report.{Reports};
ghost use Rattle.fetch_cli.specs.ReportLines.{refused_line};
ghost use Rattle.fetch_cli.specs.Tokens.{token};

use crate::reporting::fetch_case::{FetchCase, open_scene};
use crate::reporting::heard::append_heard;
use crate::reporting::keep_files::first_kept;
use crate::reporting::lines::{append_keep, append_refused};
use crate::reporting::map_lines::append_map;
use crate::reporting::state_lines::append_state;
use crate::reporting::tokens::append_token;
use fetch_remote::{FetchError, Outcome, Repository, Status};
use fetch_scene::Scene;
use fetch_store::{Files, List, MemoryFiles, NoMemory, Text};
use fetch_update::{ScriptedWorktrees, Update, update};
use fetch_wire::{Mapping, ScriptedInterrupt, ScriptedPeer};
use std::alloc::Global;
use std::thread::Threads;

/// A fetch that was made: what it answered, the repository that it left, and its peer.
pub(crate) struct Fetched {
    result: Result<Outcome, FetchError>,
    repo: Repository,
    peer: ScriptedPeer,
}

impl Drop for Fetched {
    fn drop(self) {
        let Fetched {
            result: _,
            repo: _,
            peer: _,
        } = self;
    }
}

/// Fetches as it is set up, from a peer, with files and worktrees that never fail; and gives the files back, too.
fn fetch<R: Threads + Sync>(rt: &R, alloc: Global, fetch_case: FetchCase) -> (Fetched, MemoryFiles)
    ensures fetched { HasFetched (record { remote = fetch_case.remote; options = fetch_case.options; setup = setup_of fetch_case.repo })
        fetch_case.worktrees (state_of fetch_case.repo) (concat fetch_case.pieces)
        result.0.result (state_of result.0.repo) result.1.tree result.0.peer.heard }
    ensures setup { setup_of result.0.repo ≡ setup_of fetch_case.repo }
    ensures calm { ⟦<MemoryFiles as Files>⟧.may_fail result.1 ≡ false }
{
    let FetchCase {
        repo,
        remote,
        options,
        worktrees,
        pieces,
    } = fetch_case;
    let mut repo = repo;
    let mut peer = ScriptedPeer::new(alloc, pieces.into_vec(), Vec::new(alloc));
    let mut interrupt = ScriptedInterrupt::new(Vec::new(alloc));
    let mut files = MemoryFiles::new(alloc, Vec::new(alloc));
    let mut worktrees = ScriptedWorktrees::new(worktrees.into_vec(), Vec::new(alloc));
    let result = remote.fetch(
        rt,
        alloc,
        &mut repo,
        &mut peer,
        &mut interrupt,
        &mut files,
        &mut worktrees,
        options,
    );
    (Fetched { result, repo, peer }, files)
}

/// The line of an update, where its mapping is there.
fn append_map_at(
    out: &mut Vec<u8>,
    update: &Update,
    mapping: Option<&Mapping>,
) -> Result<(), NoMemory>
    ensures { OnOk result (out.new.items ≡ out.old.items ++ spec.map_line_at update.now (option_copied mapping.entry)) }
{
    match mapping {
        Some(mapping) => append_map(out, update, mapping),
        None => Ok(()),
    }
}

fn append_update(out: &mut Vec<u8>, mappings: &[Mapping], update: &Update) -> Result<(), NoMemory>
    ensures { OnOk result (out.new.items ≡ out.old.items ++ spec.update_line mappings.now update.now) }
{
    append_map_at(out, update, mappings.get(update.mapping_index))
}

fn append_maps(out: &mut Vec<u8>, mappings: &[Mapping], updates: &[Update]) -> Result<(), NoMemory>
    ensures { OnOk result (out.new.items ≡ out.old.items ++ spec.map_lines mappings.now updates.now) }
{
    for update in updates {
        append_update(out, mappings, update)?;
    }
    Ok(())
}

fn updates_of(status: &Status) -> &update::Outcome
    ensures { result.now ≡ spec.updates_of status.now }
{
    match status {
        Status::NoPackReceived { update_refs, .. } => update_refs,
        Status::Change { update_refs, .. } => update_refs,
    }
}

/// The line of a keep file, where there is one.
fn append_keep_at(out: &mut Vec<u8>, path: &Option<Text>) -> Result<(), NoMemory>
    ensures { OnOk result (out.new.items ≡ out.old.items ++ spec.keep_lines path.now) }
{
    match path {
        Some(path) => append_keep(out, path.as_bytes()),
        None => Ok(()),
    }
}

/// The keep file, where one stays.
fn append_keep_of(out: &mut Vec<u8>, status: &Status) -> Result<(), NoMemory>
    ensures { OnOk result (out.new.items ≡ out.old.items ++ spec.keep_lines (keep_in status.now)) }
{
    match status {
        Status::NoPackReceived { .. } => Ok(()),
        Status::Change {
            write_pack_bundle,
            ..
        } => append_keep_at(out, &write_pack_bundle.keep_path),
    }
}

/// The report of a fetch that was done.
#[tactic(auto, unfolding(crate::specs::Report::done_text))]
fn append_done(
    out: &mut Vec<u8>,
    heard: &[u8],
    outcome: &Outcome,
    repo: &Repository,
) -> Result<(), NoMemory>
    ensures { OnOk result (out.new.items ≡ out.old.items ++ spec.done_text (lines_heard heard.now) outcome.now (state_of repo.now)) }
{
    append_heard(out, heard)?;
    append_maps(
        out,
        outcome.ref_map.mappings.as_slice(),
        updates_of(&outcome.status).updates.as_slice(),
    )?;
    append_state(out, repo)?;
    append_keep_of(out, &outcome.status)?;
    out.extend_from_slice(b"ok\n")?;
    Ok(())
}

/// The line of a refusal.
fn append_refusal(out: &mut Vec<u8>, refusal: &FetchError) -> Result<(), NoMemory>
    ensures { OnOk result (out.new.items ≡ out.old.items ++ refused_line (token refusal.now)) }
{
    let mut token = Vec::new(*out.allocator());
    append_token(&mut token, refusal)?;
    append_refused(out, &token)
}

/// The report of a fetch that was refused.
#[tactic(auto, unfolding(crate::specs::Report::refused_text))]
fn append_refused_fetch(
    out: &mut Vec<u8>,
    heard: &[u8],
    refusal: &FetchError,
    repo: &Repository,
    keep: &Option<Text>,
) -> Result<(), NoMemory>
    ensures { OnOk result (out.new.items ≡ out.old.items
        ++ spec.refused_text (lines_heard heard.now) refusal.now (state_of repo.now) keep.now) }
{
    append_heard(out, heard)?;
    append_refusal(out, refusal)?;
    append_state(out, repo)?;
    append_keep_at(out, keep)
}

/// The report of a fetch, and its status. At a refusal it left this keep file.
fn append_report(out: &mut Vec<u8>, fetched: &Fetched, keep: &Option<Text>) -> Result<u8, NoMemory>
    ensures { IfOk result (λ status. spec.Tells out.old.items out.new.items status fetched.now.result
        (state_of fetched.now.repo) keep.now fetched.now.peer.heard) }
{
    let heard = fetched.peer.heard();
    match &fetched.result {
        Ok(outcome) => {
            append_done(out, heard, outcome, &fetched.repo)?;
            Ok(0)
        }
        Err(FetchError::NoMemory) => Err(NoMemory),
        Err(refusal) => {
            append_refused_fetch(out, heard, refusal, &fetched.repo, keep)?;
            Ok(1)
        }
    }
}

/// Fetches as a scene says, and puts the report after what is there: its status, which is 0 where the fetch was done and
/// 1 where it was refused. After an error a part of the report may stand there.
///
/// The objects of the scene are of its hash, as those that are read are.
pub fn report<R: Threads + Sync>(
    rt: &R,
    alloc: Global,
    scene: Scene,
    out: &mut Vec<u8>,
) -> Result<u8, NoMemory>
    requires { AreOf scene.hash scene.objects }
    ensures { IfOk result (λ status. Reports scene out.old.items out.new.items status) }
{
    let fetch_case = open_scene(alloc, scene)?;
    let (fetched, files) = fetch(rt, alloc, fetch_case);
    let keep = first_kept(alloc, files, fetched.repo.git_dir())?;
    append_report(out, &fetched, &keep)
}
