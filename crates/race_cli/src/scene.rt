//! The scene of a race: a repository, and the jobs that fetch into it.

pub mod jobs;

ghost use Rattle.std.specs.Prelude.{◌≤◌, ◌^◌, length, IfOk};
ghost use Rattle.fetch_store.specs.Stores.{AreOf};
ghost use Rattle.fetch_scene.specs.Gives.{Gives};
ghost use Rattle.race_cli.specs.Jobs.{AreFew};
ghost use Rattle.race_cli.specs.RaceScenes as spec;

use crate::scene::jobs::{RaceJob, read_jobs};
use fetch_cli::{
    Lines, Local, MAX_SCENE, SceneFault, read_end, read_lines, read_local, read_objects,
};
use fetch_store::{List, Object, ObjectId};
use std::alloc::Global;
use std::thread::Threads;

/// The scene of a race: a repository, and the jobs that fetch into it.
// Not copied: it is read from a text, which can be read again.
#[derive(Drop)]
pub struct RaceScene {
    /// The repository, without its objects.
    pub local: Local,
    /// Each under its id, in the order of the pack.
    pub objects: List<(ObjectId, Object)>,
    /// One to eight.
    pub jobs: List<RaceJob>,
}

#[tactic(auto, unfolding(crate::specs::RaceScenes::race_in))]
fn read_parts<R: Threads + Sync>(
    rt: &R,
    alloc: Global,
    len: usize,
    lines: Lines<'_>,
) -> Result<RaceScene, SceneFault>
    ensures found { Gives result (spec.race_in len lines.entry) }
    ensures of_hash { IfOk result (λ scene. AreOf scene.local.head.hash scene.objects) }
    ensures few { IfOk result (λ scene. AreFew scene.jobs) }
{
    let (local, lines) = read_local(alloc, lines)?;
    let (objects, lines) = read_objects(rt, alloc, local.head.hash, lines)?;
    let (jobs, lines) = read_jobs(alloc, lines)?;
    read_end(alloc, len, lines)?;
    Ok(RaceScene {
        local,
        objects,
        jobs,
    })
}

/// The scene of a race that the bytes are. `Malformed` tells the place of the first line that breaks the grammar: the
/// delimiter before a ninth job is such a line, and so is what stands in place of the delimiter before the first. A text
/// longer than a scene may be is malformed at the limit.
#[tactic(auto, unfolding(crate::specs::RaceScenes::race_scene_of))]
pub fn read_race_scene<R: Threads + Sync>(
    rt: &R,
    alloc: Global,
    bytes: &[u8],
) -> Result<RaceScene, SceneFault>
    ensures found { Gives result (spec.race_scene_of bytes.now) }
    // The objects are of the scene's hash.
    ensures of_hash { IfOk result (λ scene. AreOf scene.local.head.hash scene.objects) }
    // There are one to eight jobs.
    ensures few { IfOk result (λ scene. AreFew scene.jobs) }
{
    if bytes.len() > MAX_SCENE {
        return Err(SceneFault::Malformed { place: MAX_SCENE });
    }
    let (lines, last) = read_lines(alloc, bytes)?;
    read_parts(rt, alloc, bytes.len(), Lines::from_parts(&lines, last))
}
