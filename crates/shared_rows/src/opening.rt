//! Repositories that scenes say.

ghost use Rattle.fetch_store.specs.Stores.{AreOf};

use fetch_config::{File, Meta, Origin};
use fetch_refs::Refs;
use fetch_remote::{OpenOptions, Parts, Repository};
use fetch_scene::{Scene, SceneFault, read_scene};
use fetch_store::{List, NoMemory, Store, Text};
use rows::nobody;
use std::alloc::Global;
use std::thread::Threads;

/// Nothing before the repository's own configuration, and nothing after it.
fn options(alloc: Global) -> OpenOptions {
    let meta = Meta {
        source: Origin::Local,
        level: 0,
        path: None,
        trusted: true,
    };
    OpenOptions {
        lenient_config: false,
        api_config_overrides: List::new(alloc),
        base: File::new(alloc, meta).unwrap(),
    }
}

/// The repository with a scene's objects, border and configuration, without references, and what the server says.
fn set_up(alloc: Global, scene: Scene) -> Result<(Repository, List<Text>), NoMemory>
    requires { AreOf scene.hash scene.objects }
{
    let Scene {
        hash,
        git_dir,
        workdir,
        border,
        config,
        objects,
        pieces,
        ..
    } = scene;
    let mut store = Store::new(alloc, hash);
    if store.add_all(objects.into_vec()).is_err() {
        return Err(NoMemory);
    }
    let parts = Parts {
        store,
        refs: Refs::new(alloc, hash),
        border,
        local: config,
        committer: nobody(alloc),
        git_dir,
        workdir,
        options: options(alloc),
    };
    match Repository::from_parts(alloc, parts) {
        Ok(repo) => Ok((repo, pieces)),
        Err(_) => Err(NoMemory),
    }
}

/// The repository that a scene says, without references, and the packs that stand in place of what its server says. None
/// where the bytes are no scene.
pub(crate) fn open(
    rt: &(impl Threads + Sync),
    alloc: Global,
    bytes: &[u8],
) -> Result<Option<(Repository, List<Text>)>, NoMemory> {
    match read_scene(rt, alloc, bytes) {
        Ok(scene) => Ok(Some(set_up(alloc, scene)?)),
        Err(SceneFault::Malformed { .. }) => Ok(None),
        Err(SceneFault::NoMemory) => Err(NoMemory),
    }
}
