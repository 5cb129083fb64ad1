//! A scene: all that a fetch needs, and what the peer says; and how it is read.

ghost use Rattle.std.specs.Prelude.{◌≡◌, ◌≤◌, ◌^◌, length, IfOk};
ghost use Rattle.fetch_store.specs.Stores.{AreOf};
ghost use Rattle.fetch_scene.specs.Gives.{Gives};
ghost use Rattle.fetch_scene.specs.Scene as spec;

use crate::fault::SceneFault;
use crate::head::Head;
use crate::lines::Lines;
use crate::local::{Local, read_local};
use crate::objects::read_objects;
use crate::options::SceneOptions;
use crate::pieces::{read_end, read_payloads};
use crate::references::Reference;
use crate::remote_part::{RemotePart, read_remote};
use crate::text_lines::read_lines;
use fetch_config::File;
use fetch_specs::{RefSpec, Tags};
use fetch_store::{Border, Kind, List, Object, ObjectId, Text};
use fetch_update::Worktree;
use std::alloc::Global;
use std::thread::Threads;

/// The most bytes of a scene.
pub const MAX_SCENE: usize = 1 << 30;

/// A scene: a repository, a remote, how to fetch from it, and what the peer says.
// Not copied: it is read from a text, which can be read again.
#[derive(Drop)]
pub struct Scene {
    /// The hash of the repository's ids.
    pub hash: Kind,
    /// The Git directory.
    pub git_dir: Text,
    /// The work tree, where there is one.
    pub workdir: Option<Text>,
    /// Whether settings that can't be read count as absent.
    pub lenient: bool,
    /// No name comes twice.
    pub refs: List<Reference>,
    /// The commits whose parents are left out.
    pub border: Border,
    /// The repository's own, and trusted.
    pub config: File,
    /// Which branches are checked out, and where.
    pub worktrees: List<Worktree>,
    /// Each under its id, in the order of the pack.
    pub objects: List<(ObjectId, Object)>,
    /// The remote's one address.
    pub address: Text,
    /// The remote's refspecs.
    pub specs: List<RefSpec>,
    /// Which tags are fetched.
    pub tags: Tags,
    /// Refspecs for this fetch alone.
    pub extra: List<RefSpec>,
    /// What all options say together.
    pub options: SceneOptions,
    /// What the peer says, piece by piece.
    pub pieces: List<Text>,
}

#[tactic(auto, unfolding(crate::specs::Scene::pieces_of))]
fn read_pieces(alloc: Global, len: usize, lines: Lines<'_>) -> Result<List<Text>, SceneFault>
    ensures { Gives result (spec.pieces_of len lines.entry) }
{
    let (pieces, lines) = read_payloads(alloc, lines)?;
    read_end(alloc, len, lines)?;
    Ok(pieces)
}

#[tactic(auto, unfolding(crate::specs::Scene::talk_of))]
fn read_talk(
    alloc: Global,
    len: usize,
    lines: Lines<'_>,
) -> Result<(RemotePart, List<Text>), SceneFault>
    ensures { Gives result (spec.talk_of len lines.entry) }
{
    let (remote, lines) = read_remote(alloc, lines)?;
    let pieces = read_pieces(alloc, len, lines)?;
    Ok((remote, pieces))
}

/// The parts of a scene: its repository, the objects in it, the remote, and what the peer says.
pub type SceneParts = (Local, List<(ObjectId, Object)>, RemotePart, List<Text>);

impl Scene {
    fn from_parts(
        local: Local,
        objects: List<(ObjectId, Object)>,
        remote: RemotePart,
        pieces: List<Text>,
    ) -> Scene
        ensures { result ≡ spec.scene_with local objects remote pieces }
    {
        let Local {
            head,
            refs,
            border,
            config,
            worktrees,
        } = local;
        Scene {
            hash: head.hash,
            git_dir: head.git_dir,
            workdir: head.workdir,
            lenient: head.lenient,
            refs,
            border,
            config,
            worktrees,
            objects,
            address: remote.address,
            specs: remote.specs,
            tags: remote.tags,
            extra: remote.extra,
            options: remote.options,
            pieces,
        }
    }

    /// The repository of the scene, its objects, its remote, and what its peer says.
    pub fn into_parts(self) -> SceneParts
        ensures { result ≡ (spec.local_in self, self.objects, spec.remote_in self, self.pieces) }
    {
        let head = Head {
            hash: self.hash,
            git_dir: self.git_dir,
            workdir: self.workdir,
            lenient: self.lenient,
        };
        let local = Local {
            head,
            refs: self.refs,
            border: self.border,
            config: self.config,
            worktrees: self.worktrees,
        };
        let remote = RemotePart {
            address: self.address,
            specs: self.specs,
            tags: self.tags,
            extra: self.extra,
            options: self.options,
        };
        (local, self.objects, remote, self.pieces)
    }
}

fn read_parts<R: Threads + Sync>(
    rt: &R,
    alloc: Global,
    len: usize,
    lines: Lines<'_>,
) -> Result<Scene, SceneFault>
    ensures found { Gives result (spec.scene_in len lines.entry) }
    ensures of_hash { IfOk result (λ scene. AreOf scene.hash scene.objects) }
{
    let (local, lines) = read_local(alloc, lines)?;
    let (objects, lines) = read_objects(rt, alloc, local.head.hash, lines)?;
    let (remote, pieces) = read_talk(alloc, len, lines)?;
    Ok(Scene::from_parts(local, objects, remote, pieces))
}

/// The scene that the bytes are. A text longer than a scene may be is malformed at the limit.
#[tactic(auto, unfolding(crate::specs::Scene::scene_of))]
pub fn read_scene<R: Threads + Sync>(
    rt: &R,
    alloc: Global,
    bytes: &[u8],
) -> Result<Scene, SceneFault>
    ensures found { Gives result (spec.scene_of bytes.now) }
    // The objects are of the scene's hash.
    ensures of_hash { IfOk result (λ scene. AreOf scene.hash scene.objects) }
{
    if bytes.len() > MAX_SCENE {
        return Err(SceneFault::Malformed { place: MAX_SCENE });
    }
    let (lines, last) = read_lines(alloc, bytes)?;
    read_parts(rt, alloc, bytes.len(), Lines::from_parts(&lines, last))
}
