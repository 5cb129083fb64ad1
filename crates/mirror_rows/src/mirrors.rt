//! How a repository is mirrored, and what is told of its mirror.

ghost use Rattle.std.specs.Prelude.{◌≡◌, IfOk, length};

use fetch_mirror::{MirrorError, MirrorOptions, Mirrored, mirror_from};
use fetch_remote::Repository;
use fetch_store::NoMemory;
use fetch_wire::{Peer, ReplyBound};
use mirror_cli::{append_mirror, append_mirror_token};
use rows::say;
use std::alloc::Global;
use std::sync::Wait;
use std::thread::Threads;

/// By so many workers with this bound, and by the repository's own committer.
pub(crate) fn options_for(
    repo: &Repository,
    workers: u32,
    bound: ReplyBound,
) -> Result<MirrorOptions, NoMemory>
    ensures { IfOk result (λ options. options.workers ≡ workers) }
{
    Ok(MirrorOptions {
        workers,
        committer: repo.settings().committer.try_clone()?,
        max_reply_bytes: bound,
    })
}

/// The mirror of a repository by two workers with these peers, over what this lister lists.
pub(crate) fn mirror_by_two<P: Peer + Send>(
    rt: &(impl Threads + Wait + Sync),
    alloc: Global,
    repo: &Repository,
    lister: &mut P,
    peers: &mut [P],
) -> Result<Mirrored, MirrorError>
    requires { length peers.old ≡ 2 }
{
    let options = options_for(repo, 2, ReplyBound::default())?;
    mirror_from(rt, alloc, repo.store().kind(), lister, peers, options)
}

fn tell_refusal(alloc: Global, refusal: MirrorError, out: &mut Vec<u8>) -> Result<(), NoMemory> {
    let mut token = Vec::new(alloc);
    append_mirror_token(&mut token, refusal)?;
    say(out, &[b"refused", &token])
}

/// Puts down what a mirror has, and answers how many entries were made.
fn tell_done(alloc: Global, mirrored: Mirrored, out: &mut Vec<u8>) -> Result<usize, NoMemory> {
    let mirrored = Box::new(alloc, mirrored)?;
    append_mirror(out, &mirrored.repo)?;
    Ok(mirrored.journal.len())
}

/// Puts down what a mirror has, or why there is none, and answers how many entries were made.
pub(crate) fn tell_mirror(
    alloc: Global,
    mirror: Result<Mirrored, MirrorError>,
    out: &mut Vec<u8>,
) -> Result<usize, NoMemory> {
    match mirror {
        Ok(mirrored) => tell_done(alloc, mirrored, out),
        Err(refusal) => {
            tell_refusal(alloc, refusal, out)?;
            Ok(0)
        }
    }
}

/// Puts down that a mirror is done, or why there is none. Whether it is done.
pub(crate) fn tell_outcome(
    alloc: Global,
    mirror: Result<Mirrored, MirrorError>,
    out: &mut Vec<u8>,
) -> Result<bool, NoMemory> {
    match mirror {
        Ok(mirrored) => {
            drop(mirrored);
            say(out, &[b"done"])?;
            Ok(true)
        }
        Err(refusal) => {
            tell_refusal(alloc, refusal, out)?;
            Ok(false)
        }
    }
}
