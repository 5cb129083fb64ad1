//! The mirror of a scene's repository, and what is told of it.

ghost use Rattle.std.specs.Prelude.{◌≡◌, IfOk, IfErr};
ghost use Rattle.fetch_store.specs.Stores.{AreOf};
ghost use Rattle.fetch_mirror.specs.Copying.{IsCopied, IsUncopied};
ghost use Rattle.fetch_mirror.specs.Mirrors.{IsMirrored};
ghost use Rattle.fetch_remote.specs.Repositories.{setup_of, state_of};
ghost use Rattle.mirror_cli.specs.MirrorRun.{IsMirrorOf, IsTold, served_in, mirror_options};

use crate::reporting::{mirror_report, refused_report};
use fetch_cli::{Answer, ServerScene, open_local};
use fetch_mirror::{MirrorError, MirrorOptions, Mirrored, run_mirror};
use fetch_remote::Repository;
use fetch_store::NoMemory;
use fetch_wire::ReplyBound;
use std::alloc::Global;
use std::sync::Wait;
use std::thread::Threads;

/// How a repository is mirrored: by its own committer, with the usual bound of replies.
fn options_for(repo: &Repository, workers: u32) -> Result<MirrorOptions, NoMemory>
    ensures { IfOk result (λ options. options ≡ mirror_options workers (setup_of repo.now).settings.committer) }
{
    Ok(MirrorOptions {
        workers,
        committer: repo.settings().committer.try_clone()?,
        max_reply_bytes: ReplyBound::default(),
    })
}

/// The mirror of a repository, or why there is none.
fn copied<R: Threads + Wait + Sync>(
    rt: &R,
    alloc: Global,
    repo: &Repository,
    options: MirrorOptions,
) -> Result<Mirrored, MirrorError>
    ensures mirrored { IfOk result (λ m. IsMirrored
        (served_in (state_of repo.now)) options.workers options.committer m.journal m.repo) }
    ensures copied { IfOk result (λ m. IsCopied
        (served_in (state_of repo.now)) options.committer options.workers options.max_reply_bytes m.repo m.journal) }
    ensures refused { IfErr result (λ e. IsUncopied (served_in (state_of repo.now)) (state_of repo.now).border
        options.committer options.workers options.max_reply_bytes e) }
{
    run_mirror(rt, alloc, repo.store(), repo.refs(), repo.border(), options)
}

/// The report of a mirror, or why there is none. Out of memory stays out of memory.
fn told(alloc: Global, mirror: Result<Mirrored, MirrorError>) -> Result<Answer, NoMemory>
    ensures { IfOk result (λ x. IsTold mirror x.0 x.1.items) }
{
    match mirror {
        Ok(mirror) => Ok((0, mirror_report(alloc, &mirror.repo)?)),
        Err(MirrorError::NoMemory) => Err(NoMemory),
        Err(refusal) => Ok((1, refused_report(alloc, refusal)?)),
    }
}

/// Mirrors the repository of a server scene by so many workers, and tells what became of it.
pub(crate) fn mirrored<R: Threads + Wait + Sync>(
    rt: &R,
    alloc: Global,
    workers: u32,
    scene: ServerScene,
) -> Result<Answer, NoMemory>
    requires { AreOf scene.local.head.hash scene.objects }
    ensures { IfOk result (λ x. IsMirrorOf workers scene x.0 x.1.items) }
{
    let (repo, _) = open_local(alloc, scene.local, scene.objects)?;
    let options = options_for(&repo, workers)?;
    let mirror = copied(rt, alloc, &repo, options);
    told(alloc, mirror)
}
