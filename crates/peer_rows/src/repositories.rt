//! The repository that the scene of a server says. What is large stands in a box, so that each end of it is one call.

ghost use Rattle.fetch_store.specs.Stores.{AreOf};

use fetch_cli::{SceneFault, ServerScene, open_local, read_server_scene};
use fetch_remote::Repository;
use fetch_store::NoMemory;
use std::alloc::Global;
use std::thread::Threads;

fn set_up(alloc: Global, scene: ServerScene) -> Result<Box<Repository>, NoMemory>
    requires { AreOf scene.local.head.hash scene.objects }
{
    let (repo, _) = open_local(alloc, scene.local, scene.objects)?;
    Ok(Box::new(alloc, repo)?)
}

/// The repository that the bytes say. None where they are no scene of a server.
pub fn repository_of(
    rt: &(impl Threads + Sync),
    alloc: Global,
    bytes: &[u8],
) -> Result<Option<Box<Repository>>, NoMemory> {
    match read_server_scene(rt, alloc, bytes) {
        Ok(scene) => Ok(Some(set_up(alloc, scene)?)),
        Err(SceneFault::Malformed { .. }) => Ok(None),
        Err(SceneFault::NoMemory) => Err(NoMemory),
    }
}
