//! The scene of a server: a repository alone.

ghost use Rattle.std.specs.Prelude.{IfOk};
ghost use Rattle.fetch_store.specs.Stores.{AreOf};
ghost use Rattle.fetch_scene.specs.Gives.{Gives};
ghost use Rattle.fetch_cli.specs.ServerScenes as spec;

use fetch_scene::{
    Lines, Local, MAX_SCENE, SceneFault, read_end, read_lines, read_local, read_pack_objects,
};
use fetch_store::{List, Object, ObjectId};
use std::alloc::Global;
use std::thread::Threads;

/// The scene of a server: a repository.
// Not copied: it is read from a text, which can be read again.
#[derive(Drop)]
pub struct ServerScene {
    /// The repository, without its objects.
    pub local: Local,
    /// Each under its id, in the order of the pack.
    pub objects: List<(ObjectId, Object)>,
}

#[tactic(auto, unfolding(crate::specs::ServerScenes::server_in))]
fn read_parts<R: Threads + Sync>(
    rt: &R,
    alloc: Global,
    len: usize,
    lines: Lines<'_>,
) -> Result<ServerScene, SceneFault>
    ensures found { Gives result (spec.server_in len lines.entry) }
    ensures of_hash { IfOk result (λ scene. AreOf scene.local.head.hash scene.objects) }
{
    let (local, lines) = read_local(alloc, lines)?;
    let (objects, lines) = read_pack_objects(rt, alloc, local.head.hash, lines)?;
    read_end(alloc, len, lines)?;
    Ok(ServerScene { local, objects })
}

/// The scene of a server that the bytes are. `Malformed` tells the place of the first line that breaks the grammar: a
/// delimiter after the objects is such a line. A pack that breaks is malformed at its first payload, or at the line after it
/// where it has none, and a text longer than a scene may be at the limit.
#[tactic(auto, unfolding(crate::specs::ServerScenes::server_scene_of))]
pub fn read_server_scene<R: Threads + Sync>(
    rt: &R,
    alloc: Global,
    bytes: &[u8],
) -> Result<ServerScene, SceneFault>
    ensures found { Gives result (spec.server_scene_of bytes.now) }
    // The objects are of the scene's hash.
    ensures of_hash { IfOk result (λ scene. AreOf scene.local.head.hash scene.objects) }
{
    if bytes.len() > MAX_SCENE {
        return Err(SceneFault::Malformed { place: MAX_SCENE });
    }
    let (lines, last) = read_lines(alloc, bytes)?;
    read_parts(rt, alloc, bytes.len(), Lines::from_parts(&lines, last))
}
