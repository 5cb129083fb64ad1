//! Fetches from a server that answers in memory, beside the same fetches from a script.

ghost use Rattle.std.specs.Prelude.{IfOk, IfSome};
ghost use Rattle.fetch_store.specs.Stores.{AreOf};

mod fetching;
mod telling;

use self::fetching::append_fetch;
use fetch_cli::{Scene, SceneFault, open_scene, read_scene, report};
use fetch_remote::Repository;
use fetch_serve::{Server, ServerPeer};
use fetch_store::{NoMemory, after, split_first};
use fetch_wire::Peer;
use peer_rows::repository_of;
use rows::{decoded, say};
use std::alloc::Global;
use std::thread::Threads;

/// `server <text>`: the repository that a server scene says, in which `%` and two hexadecimal digits stand for a byte. None
/// where the line is no such line.
fn served_of(
    rt: &(impl Threads + Sync),
    alloc: Global,
    line: &[u8],
) -> Result<Option<Box<Repository>>, NoMemory> {
    let Some(text) = after(b"server ", line) else {
        return Ok(None);
    };
    let bytes = decoded(alloc, text)?;
    repository_of(rt, alloc, &bytes)
}

/// The scene that the bytes are. None where they are none.
fn scene_of(
    rt: &(impl Threads + Sync),
    alloc: Global,
    bytes: &[u8],
) -> Result<Option<Scene>, NoMemory>
    ensures { IfOk result (λ found. IfSome found (λ scene. AreOf scene.hash scene.objects)) }
{
    match read_scene(rt, alloc, bytes) {
        Ok(scene) => Ok(Some(scene)),
        Err(SceneFault::Malformed { .. }) => Ok(None),
        Err(SceneFault::NoMemory) => Err(NoMemory),
    }
}

/// Puts down what a report tells but what was sent.
fn append_without_sent(report: &[u8], out: &mut Vec<u8>) -> Result<(), NoMemory> {
    let mut rest = report;
    for _ in 0..report.len() {
        let Some((line, behind)) = split_first(b'\n', rest) else {
            break;
        };
        if !line.starts_with(b"> ") {
            say(out, &[line])?;
        }
        rest = behind;
    }
    Ok(())
}

/// Puts down what the report of a fetch from the script of a scene tells but what was sent. Whether the bytes are a scene.
fn tell_scripted(
    rt: &(impl Threads + Sync),
    alloc: Global,
    bytes: &[u8],
    out: &mut Vec<u8>,
) -> Result<bool, NoMemory> {
    let Some(scene) = scene_of(rt, alloc, bytes)? else {
        return Ok(false);
    };
    let mut told = Vec::new(alloc);
    report(rt, alloc, scene, &mut told)?;
    append_without_sent(&told, out)?;
    Ok(true)
}

/// Puts down what a fetch of a scene from this peer tells. Whether the bytes are a scene.
fn tell_fetch<P: Peer>(
    rt: &(impl Threads + Sync),
    alloc: Global,
    bytes: &[u8],
    peer: &mut P,
    out: &mut Vec<u8>,
) -> Result<bool, NoMemory> {
    let Some(scene) = scene_of(rt, alloc, bytes)? else {
        return Ok(false);
    };
    append_fetch(rt, alloc, open_scene(alloc, scene)?, peer, out)?;
    Ok(true)
}

/// Puts down what a fetch of a scene from the server that a line says tells. Whether the bytes are a scene, and the line says a
/// repository that can be served.
fn tell_served(
    rt: &(impl Threads + Sync),
    alloc: Global,
    bytes: &[u8],
    line: &[u8],
    out: &mut Vec<u8>,
) -> Result<bool, NoMemory> {
    let Some(repo) = served_of(rt, alloc, line)? else {
        return Ok(false);
    };
    match Server::new(alloc, repo.store(), repo.refs(), repo.border()) {
        Ok(server) => tell_fetch(rt, alloc, bytes, &mut ServerPeer::new(server), out),
        Err(_) => Ok(false),
    }
}

/// Puts down what the fetch from the server tells, and where the one from the script tells something else, that.
fn append_both(out: &mut Vec<u8>, served: &[u8], scripted: &[u8]) -> Result<(), NoMemory> {
    out.extend_from_slice(served)?;
    if scripted != served {
        say(out, &[b"from a script"])?;
        out.extend_from_slice(scripted)?;
    }
    Ok(())
}

/// Fetches what a scene says from the server that a line says, and from the scene's own script. Whether the line says a
/// repository that can be served, and the scene is one.
pub(crate) fn tell(
    rt: &(impl Threads + Sync),
    alloc: Global,
    scene: &[u8],
    line: &[u8],
    out: &mut Vec<u8>,
) -> Result<bool, NoMemory> {
    let mut served = Vec::new(alloc);
    let mut scripted = Vec::new(alloc);
    if !tell_served(rt, alloc, scene, line, &mut served)?
        || !tell_scripted(rt, alloc, scene, &mut scripted)?
    {
        return Ok(false);
    }
    append_both(out, &served, &scripted)?;
    Ok(true)
}
