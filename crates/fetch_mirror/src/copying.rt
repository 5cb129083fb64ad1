//! A mirror of a repository, from servers of it.

ghost use Rattle.std.specs.Prelude.{◌≡◌, ◌≢◌, replicate, IfOk, IfErr, OnOk};
ghost use Rattle.std.specs.FinSet as set;
ghost use Rattle.fetch_mirror.specs.Completeness.{CanBeMirrored, MayBeRefused};
ghost use Rattle.fetch_mirror.specs.Copying.{IsCopied, IsUncopied, fresh};
ghost use Rattle.fetch_mirror.specs.Limits.{IsLimited};
ghost use Rattle.fetch_mirror.specs.Mirrors.{IsMirrored};
ghost use Rattle.fetch_mirror.specs.declared.error.MirrorError.TheVariants as errors;
ghost use Rattle.fetch_serve.specs.Servable.{IsServable, IsTrouble};
ghost use Rattle.fetch_serve.specs.Served.{data_of};
ghost use Rattle.fetch_serve.specs.Servings.{unfed};

use crate::error::MirrorError;
use crate::mirroring::{is_few, mirror_from};
use crate::options::{MirrorOptions, Mirrored};
use fetch_refs::Refs;
use fetch_serve::{ServeError, Server, ServerPeer};
use fetch_store::{Border, NoMemory, Store};
use std::alloc::Global;
use std::sync::Wait;
use std::thread::Threads;

/// Mirrors a repository: makes servers of these parts, and lets the workers fetch from them, as `mirror_from` does. The
/// mirror has the references under `refs/` that aren't unborn, each as its id, and all that they reach, and nothing else,
/// however the workers' steps lie. Its hash is the store's.
///
/// `Workers` comes first, exactly where there are fewer workers than one or more than eight; then `Server`, exactly where
/// `Server::new` refuses, and then `List` and `Worker`. `List` is `ReplyTooLong` alone, and comes only where the greeting or the
/// listing passes `max_reply_bytes`.
///
/// Where the repository can be served and nothing is too long, no reply, request or pack, the mirror is made, unless memory runs
/// out or two texts have one id.
pub fn run_mirror<R: Threads + Wait + Sync>(
    rt: &R,
    alloc: Global,
    store: &Store,
    refs: &Refs,
    border: &Border,
    options: MirrorOptions,
) -> Result<Mirrored, MirrorError>
    ensures whole { OnOk result (border.now ≡ set.empty) }
    ensures mirrored { IfOk result (λ m. IsMirrored
        (data_of store.now refs.now) options.workers options.committer m.journal m.repo) }
    ensures copied { IfOk result (λ m. IsCopied
        (data_of store.now refs.now) options.committer options.workers options.max_reply_bytes m.repo m.journal) }
    ensures refused { IfErr result (λ e. IsUncopied
        (data_of store.now refs.now) border.now options.committer options.workers options.max_reply_bytes e) }
    ensures limited { IfErr result (λ e. IsLimited (data_of store.now refs.now) options.max_reply_bytes e) }
    ensures complete { IfErr result (λ e. CanBeMirrored
        (data_of store.now refs.now) border.now options.workers options.max_reply_bytes → MayBeRefused (data_of store.now refs.now) e) }
{
    if !is_few(options.workers) {
        return Err(MirrorError::Workers {
            count: options.workers,
        });
    }
    let server = match Server::new(alloc, store, refs, border) {
        Ok(server) => server,
        Err(ServeError::NoMemory) => return Err(MirrorError::NoMemory),
        Err(e) => return Err(MirrorError::Server(e)),
    };
    let mut lister = ServerPeer::new(server.fresh());
    let mut peers = peers_of(alloc, &server, options.workers)?;
    mirror_from(
        rt,
        alloc,
        store.kind(),
        &mut lister,
        peers.as_mut_slice(),
        options,
    )
}

/// So many peers of a server.
#[tactic(auto, using(crate::proofs::Copied::one_more_peer))]
fn peers_of<'a>(
    alloc: Global,
    server: &Server<'a>,
    count: u32,
) -> Result<Vec<ServerPeer<'a>>, NoMemory>
    ensures { IfOk result (λ peers. peers.items ≡ replicate count (fresh server.now.served)) }
{
    let mut peers = Vec::with_capacity(alloc, count as usize)?;
    for _ in 0..count {
        peers.push(ServerPeer::new(server.fresh()))?;
    }
    Ok(peers)
}
