//! A clone of one commit: at a tag, or at its id.

use crate::serving::{self, Asked};
use crate::setting::committer;
use crate::telling::{tell_border, tell_refs};
use anyhow::Result;
use fetch_clone::create::{Kind, Options};
use fetch_clone::{ConfigureFault, PrepareFetch};
use fetch_host::{Dial, NoInterrupt, NoWorktrees, StreamConnect, StreamPeer};
use fetch_negotiate::{Depth, Shallow};
use fetch_remote::{NoProgress, OpenOptions, Remote, Repository};
use fetch_store::MemoryFiles;
use std::alloc::Global;
use std::io;
use std::thread::Threads;

/// The server of the examples, where an own type would open a socket.
#[derive(Drop)]
struct Server {
    alloc: Global,
}

impl Dial for Server {
    type Reader = io::Cursor<Vec<u8>>;

    type Writer = Vec<u8>;

    fn dial(&mut self, _address: &[u8]) -> io::Result<(io::Cursor<Vec<u8>>, Vec<u8>)> {
        match serving::said(self.alloc, Asked::Shallow) {
            Ok(said) => Ok((io::Cursor::new(said), Vec::new(self.alloc))),
            Err(_) => Err(io::Error::from(io::ErrorKind::OutOfMemory)),
        }
    }
}

fn as_it_is(remote: Remote) -> Result<Remote, ConfigureFault> {
    Ok(remote)
}

fn agrees(_peer: &mut StreamPeer<io::Cursor<Vec<u8>>, Vec<u8>>) -> Result<(), ConfigureFault> {
    Ok(())
}

/// Clones this revision at depth 1, by one connection.
fn clone_revision<R: Threads + Sync>(rt: &R, alloc: Global, revision: &[u8]) -> Result<Repository> {
    let committer = committer(alloc)?;
    let clone = PrepareFetch::new(
        alloc,
        b"/srv/a.git",
        b"/dep",
        Kind::Bare,
        Options::default(),
        OpenOptions::new(alloc),
        committer,
        MemoryFiles::new(alloc, Vec::new(alloc)),
        StreamConnect::new(Server { alloc }),
        as_it_is,
        agrees,
    );
    let clone = clone.map_err(|(_files, e)| e)?;
    let clone = clone.with_shallow(Shallow::DepthAtRemote(Depth::new(1).unwrap()));
    let mut clone = match clone.with_revision(Some(revision)) {
        Ok(clone) => clone,
        Err((_clone, e)) => return Err(e.into()),
    };
    let mut trees = NoWorktrees::new(alloc);
    let (repo, _) = clone.fetch_only(rt, &mut NoProgress, &mut NoInterrupt, &mut trees)?;
    Ok(repo)
}

/// The references of a clone, and its border.
fn tell<R: Print>(rt: &R, alloc: Global, repo: &Repository) -> Result<()> {
    tell_refs(rt, alloc, repo.refs())?;
    tell_border(rt, alloc, repo.border())
}

pub(crate) fn run<R: Threads + Sync + Print>(rt: &R, alloc: Global, revision: &[u8]) -> Result<()> {
    let repo = clone_revision(rt, alloc, revision)?;
    tell(rt, alloc, &repo)
}
