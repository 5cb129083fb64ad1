//! The scene of a bench.

ghost use Rattle.std.specs.Prelude.{◌≡◌, ◌<◌, ◌≤◌, IfOk, option_to_list, option_map};
ghost use Rattle.fetch_store.specs.Stores.{AreOf};
ghost use Rattle.fetch_bench_scene.specs.Bench as spec;
ghost use Rattle.fetch_scene.specs.LineKinds.{refspec_in};

use fetch_bench::Generated;
use fetch_config::{File, Meta, Origin};
use fetch_refs::Target;
use fetch_scene::{Reference, Scene, SceneOptions, refspec};
use fetch_specs::{FullName, NameError, RefSpec, Tags};
use fetch_store::{Border, Kind, List, NoMemory, ObjectId, Text};
use std::alloc::Global;

/// The most commits of a bench.
pub const MAX_BENCH: usize = 100_000;

/// The configuration of the scene. It has no broken line, so that memory alone may refuse it.
#[tactic(auto, unfolding(crate::specs::Bench::config))]
fn config(alloc: Global) -> Result<File, NoMemory>
    ensures { IfOk result (λ file. file ≡ spec.config) }
{
    let meta = Meta {
        source: Origin::Local,
        level: 0,
        path: None,
        trusted: true,
    };
    match File::read(alloc, b"[fetch]\nnegotiationAlgorithm = noop\n", meta) {
        Ok(file) => Ok(file),
        Err(_) => Err(NoMemory),
    }
}

/// The reference that an earlier fetch left. Its name is full, so that memory alone may refuse it.
fn tracking(alloc: Global, id: ObjectId) -> Result<Reference, NoMemory>
    ensures { IfOk result (λ reference. reference ≡ spec.tracking id) }
{
    match FullName::new(alloc, b"refs/remotes/origin/main") {
        Ok(name) => Ok(Reference {
            name,
            target: Target::Object(id),
        }),
        Err(NameError::Invalid { .. } | NameError::NoMemory) => Err(NoMemory),
    }
}

fn references(alloc: Global, tip: Option<ObjectId>) -> Result<List<Reference>, NoMemory>
    ensures { IfOk result (λ refs. refs ≡ option_to_list (option_map spec.tracking tip)) }
{
    let mut refs = List::new(alloc);
    if let Some(id) = tip {
        refs.push(tracking(alloc, id)?)?;
    }
    Ok(refs)
}

fn refspecs(alloc: Global) -> Result<List<RefSpec>, NoMemory>
    ensures { IfOk result (λ specs. specs ≡ option_to_list (refspec_in spec.refspec)) }
{
    let mut specs = List::new(alloc);
    if let Some(found) = refspec(alloc, b"+refs/heads/*:refs/remotes/origin/*")? {
        specs.push(found)?;
    }
    Ok(specs)
}

/// The scene in which the second half of a line of `count` commits is fetched, from 1 to 100,000.
#[tactic(auto, unfolding(crate::specs::Bench::scene_with))]
pub fn bench_scene(alloc: Global, count: usize) -> Result<Scene, NoMemory>
    requires some { 0 < count }
    requires few { count ≤ MAX_BENCH }
    ensures exact { IfOk result (λ scene. scene ≡ spec.generated_scene count) }
    // The objects are of the scene's hash.
    ensures of_hash { IfOk result (λ scene. AreOf scene.hash scene.objects) }
{
    let Generated {
        objects,
        tip,
        pieces,
    } = fetch_bench::generate(alloc, count)?;
    Ok(Scene {
        hash: Kind::Sha1,
        git_dir: Text::new(alloc, b"/b/.git")?,
        workdir: Some(Text::new(alloc, b"/b")?),
        lenient: false,
        refs: references(alloc, tip)?,
        border: Border::new(alloc),
        config: config(alloc)?,
        worktrees: List::new(alloc),
        objects,
        address: Text::new(alloc, b"/b/s.git")?,
        specs: refspecs(alloc)?,
        tags: Tags::None,
        extra: List::new(alloc),
        options: SceneOptions::none(alloc),
        pieces,
    })
}
