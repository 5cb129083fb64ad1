//! The empty mirror that the workers fetch into.

ghost use Rattle.std.specs.Prelude.{◌≡◌, IfOk};
ghost use Rattle.fetch_mirror.specs.Opening as spec;
ghost use Rattle.fetch_config.specs.Lines.{sections_of};
ghost use Rattle.fetch_mirror.specs.Settings.{own_meta};

use fetch_config::{File, Meta, Origin};
use fetch_refs::{Refs, Signature};
use fetch_remote::{OpenOptions, Parts, Repository};
use fetch_store::{Border, Kind, List, NoMemory, Store, Text};
use std::alloc::Global;

/// The settings of a mirror: no commit is told as one that is there.
const SETTINGS: &[u8] = b"[fetch]\nnegotiationAlgorithm = noop\n";

/// An empty bare repository of this hash. Its settings can be read, so that memory alone may refuse it.
pub(crate) fn empty_mirror(
    alloc: Global,
    kind: Kind,
    committer: Signature,
) -> Result<Repository, NoMemory>
    ensures { IfOk result (λ repo. repo ≡ spec.empty_mirror kind committer) }
{
    let parts = Parts {
        store: Store::new(alloc, kind),
        refs: Refs::new(alloc, kind),
        border: Border::new(alloc),
        local: read(alloc, SETTINGS)?,
        committer,
        git_dir: Text::new(alloc, b".")?,
        workdir: None,
        options: OpenOptions {
            lenient_config: false,
            api_config_overrides: List::new(alloc),
            base: read(alloc, b"")?,
        },
    };
    match Repository::from_parts(alloc, parts) {
        Ok(repo) => Ok(repo),
        Err(_) => Err(NoMemory),
    }
}

/// A configuration of the repository's own.
fn read(alloc: Global, text: &[u8]) -> Result<File, NoMemory>
    ensures { IfOk result (λ file. file ≡ record { meta = own_meta; sections = sections_of own_meta text.now }) }
{
    let meta = Meta {
        source: Origin::Local,
        level: 0,
        path: None,
        trusted: true,
    };
    match File::read(alloc, text, meta) {
        Ok(file) => Ok(file),
        Err(_) => Err(NoMemory),
    }
}
