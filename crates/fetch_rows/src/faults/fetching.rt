//! A fetch in which calls fail.

use super::failing::Failing;
use fetch_cli::FetchCase;
use fetch_remote::phases::Progress;
use fetch_remote::{FetchError, FetchOptions, Outcome, Prepare, Remote, Repository, fetch};
use fetch_store::{MemoryFiles, NoMemory, Text};
use fetch_update::{RefLogMessage, ScriptedWorktrees};
use fetch_wire::{ScriptedInterrupt, ScriptedPeer};
use std::alloc::Global;
use std::thread::Threads;

/// A fetch with all that it takes but its options.
pub(crate) struct Fetch {
    pub(crate) repo: Repository,
    remote: Remote,
    pub(crate) peer: ScriptedPeer,
    interrupt: ScriptedInterrupt,
    pub(crate) files: MemoryFiles,
    worktrees: ScriptedWorktrees,
    pub(crate) told: Told,
}

impl Drop for Fetch {
    fn drop(self) {
        let Fetch {
            repo: _,
            remote: _,
            peer: _,
            interrupt: _,
            files: _,
            worktrees: _,
            told: _,
        } = self;
    }
}

/// What is told of a server's progress, a line each. What memory doesn't suffice for is left out.
#[derive(Drop)]
pub(crate) struct Told {
    pub(crate) lines: Vec<u8>,
}

impl Told {
    fn add(&mut self, band: &[u8]) -> Result<(), NoMemory> {
        self.lines.extend_from_slice(b"told ")?;
        self.lines.extend_from_slice(band)?;
        self.lines.push(b'\n')?;
        Ok(())
    }
}

impl Progress for Told {
    fn text(&mut self, band: &[u8]) {
        let _ = self.add(band);
    }
}

/// The fetch with this message, where one is chosen.
fn with_message<'a>(
    prepare: Prepare<'a, ScriptedPeer>,
    message: Option<RefLogMessage>,
) -> Prepare<'a, ScriptedPeer> {
    match message {
        Some(message) => prepare.with_reflog_message(message),
        None => prepare,
    }
}

fn received(answer: Result<Outcome, fetch::Error>) -> Result<Outcome, FetchError> {
    match answer {
        Ok(outcome) => Ok(outcome),
        Err(refusal) => Err(FetchError::from(refusal)),
    }
}

impl Fetch {
    /// The fetch as it is set up, where the peer says this, and these calls fail, and its options. There are no files
    /// before.
    pub(crate) fn new(
        alloc: Global,
        fetch_case: FetchCase,
        pieces: Vec<Text>,
        failing: Failing,
    ) -> (Fetch, FetchOptions) {
        let FetchCase {
            repo,
            remote,
            options,
            worktrees,
            ..
        } = fetch_case;
        let Failing {
            peer,
            interrupt,
            files,
            listings,
        } = failing;
        let fetch = Fetch {
            repo,
            remote,
            peer: ScriptedPeer::new(alloc, pieces, peer),
            interrupt: ScriptedInterrupt::new(interrupt),
            files: MemoryFiles::new(alloc, files),
            worktrees: ScriptedWorktrees::new(worktrees.into_vec(), listings),
            told: Told {
                lines: Vec::new(alloc),
            },
        };
        (fetch, options)
    }

    /// Fetches by one call.
    pub(crate) fn at_once(
        &mut self,
        rt: &(impl Threads + Sync),
        alloc: Global,
        options: FetchOptions,
    ) -> Result<Outcome, FetchError> {
        self.remote.fetch(
            rt,
            alloc,
            &mut self.repo,
            &mut self.peer,
            &mut self.interrupt,
            &mut self.files,
            &mut self.worktrees,
            options,
        )
    }

    /// Fetches by the calls for the steps of a fetch: lists what the remote has, chooses, and receives.
    pub(crate) fn in_steps(
        &mut self,
        rt: &(impl Threads + Sync),
        alloc: Global,
        options: FetchOptions,
    ) -> Result<Outcome, FetchError> {
        let connection = self.remote.to_connection_with_transport(&mut self.peer);
        match connection.prepare_fetch(alloc, &self.repo, &mut self.interrupt, options.map) {
            Ok(prepare) => {
                let prepare = prepare
                    .with_dry_run(options.dry_run)
                    .with_write_packed_refs_only(options.write_packed_refs_only)
                    .with_shallow(options.shallow);
                received(with_message(prepare, options.reflog_message).receive(
                    rt,
                    alloc,
                    &mut self.repo,
                    &mut self.told,
                    &mut self.interrupt,
                    &mut self.files,
                    &mut self.worktrees,
                ))
            }
            Err(refusal) => Err(FetchError::from(refusal)),
        }
    }
}
