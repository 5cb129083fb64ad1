//! Clones that are given up, or dropped.

use crate::clone_case::{agrees, as_it_is, options};
use crate::standing::say_place;
use fetch_clone::create::{Kind, Options};
use fetch_clone::{HostFiles, PrepareFetch};
use fetch_remote::ScriptedConnect;
use fetch_store::{MemoryFiles, NoMemory};
use fetch_wire::ScriptedPeer;
use rows::{say, somebody};
use std::alloc::{Alloc, Global};
use std::fs::Files as HostCalls;

/// Prepares a clone at `/w` and gives it up. Answers the files.
pub(crate) fn give_up(
    alloc: Global,
    files: MemoryFiles,
    place: Options,
    out: &mut Vec<u8>,
) -> Result<MemoryFiles, NoMemory> {
    let options = options(alloc, true)?;
    let committer = somebody(alloc)?;
    let clone = PrepareFetch::new(
        alloc,
        b"/srv/a.git",
        b"/w",
        Kind::WithWorktree,
        place,
        options,
        committer,
        files,
        ScriptedConnect::new(alloc, Vec::new(alloc), Vec::new(alloc)),
        as_it_is,
        agrees::<ScriptedPeer>,
    );
    match clone {
        Ok(clone) => Ok(clone.abandon()),
        Err((files, _e)) => {
            say(out, &[b"unprepared"])?;
            Ok(files)
        }
    }
}

/// Prepares a clone on the host in the directory `made` where the program runs, tells whether it stands, and drops it.
pub(crate) fn tell_dropped<R: HostCalls + Alloc<A = Global> + Clone + Drop>(
    alloc: Global,
    own: HostFiles<R>,
    files: &mut HostFiles<R>,
    out: &mut Vec<u8>,
) -> Result<(), NoMemory> {
    let options = options(alloc, true)?;
    let committer = somebody(alloc)?;
    let clone = PrepareFetch::new(
        alloc,
        b"/srv/a.git",
        b"made",
        Kind::WithWorktree,
        Options::default(),
        options,
        committer,
        own,
        ScriptedConnect::new(alloc, Vec::new(alloc), Vec::new(alloc)),
        as_it_is,
        agrees::<ScriptedPeer>,
    );
    let told = say_place(files, b"made/.git/config", out);
    drop(clone);
    told
}
