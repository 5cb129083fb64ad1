//! A repository with other overrides, or with another committer.

ghost use Rattle.std.specs.Prelude.{◌≡◌, IfErr, OnOk, OnErr, Some, true};
ghost use Rattle.fetch_remote.specs.Overriding.{overridden};
ghost use Rattle.fetch_remote.specs.Repositories.{state_of, setup_of, with_committer, IsOpenRefusal};
ghost use Rattle.fetch_remote.specs.RepositoryValues.{are_overrides};

use super::Repository;
use crate::remotes::resolving::resolved;
use crate::repository::open_error::OpenError;
use fetch_refs::Signature;
use fetch_store::{List, Text};
use std::alloc::Global;

impl Repository {
    /// The overrides, each `section.key=value` or `section.subsection.key=value`. They come last.
    pub fn overrides(&self) -> &[Text]
        ensures { result.now ≡ (setup_of self.now).overrides }
    {
        self.overrides.as_slice()
    }

    /// Puts overrides in place of those that the repository has, and resolves configuration, settings and logging anew. The
    /// first that isn't one is told. After an error the repository is as before.
    pub fn replace_overrides(
        &mut self,
        alloc: Global,
        overrides: List<Text>,
    ) -> Result<(), OpenError>
        ensures state { state_of self.new ≡ state_of self.old }
        ensures ok { OnOk result (overridden (setup_of self.old) overrides ≡ Some (setup_of self.new)) }
        ensures accepted { OnOk result (are_overrides overrides ≡ true) }
        ensures refused { IfErr result (IsOpenRefusal overrides) }
        ensures err { OnErr result (setup_of self.new ≡ setup_of self.old) }
    {
        let config = resolved(alloc, &self.base, &self.local, overrides.as_slice())?;
        self.overrides = overrides;
        self.settings.config = config;
        Ok(())
    }

    /// Puts another in place of the one who writes the lines of reflogs. This takes no memory.
    pub fn replace_committer(&mut self, committer: Signature)
        ensures state { state_of self.new ≡ state_of self.old }
        ensures setup { setup_of self.new ≡ with_committer committer (setup_of self.old) }
    {
        self.settings.committer = committer;
    }
}
