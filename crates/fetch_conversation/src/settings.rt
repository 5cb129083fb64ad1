//! What a fetch reads of a repository beside objects, border and references.

ghost use Rattle.std.specs.Prelude.{◌≡◌, IfOk};

use fetch_config::File;
use fetch_refs::Signature;
use fetch_store::{Kind, NoMemory, Text};
use std::alloc::Global;

/// What a fetch reads of a repository beside objects, border and references.
#[derive(Debug, Drop)]
pub struct Settings {
    /// The hash of ids and objects.
    pub kind: Kind,
    /// All configuration together: base, local file, overrides.
    pub config: File,
    /// Take a setting that can't be read as absent.
    pub lenient: bool,
    /// The path of the git directory, as the repository was opened with it.
    pub git_dir: Text,
    /// Who writes the lines of reflogs.
    pub committer: Signature,
}

impl Settings {
    /// Equal settings.
    pub fn try_clone(&self, alloc: Global) -> Result<Settings, NoMemory>
        ensures { IfOk result (λ copy. copy ≡ self.now) }
    {
        Ok(Settings {
            kind: self.kind,
            config: self.config.try_clone(alloc)?,
            lenient: self.lenient,
            git_dir: self.git_dir.try_clone()?,
            committer: self.committer.try_clone()?,
        })
    }
}
