//! The names of remotes and branches.

ghost use Rattle.std.specs.Prelude.{◌≡◌, IfOk};
ghost use Rattle.fetch_lookup.specs.Names as names;
ghost use Rattle.fetch_remote.specs.Finding.{sections_of};

use crate::remotes::direction::Direction;
use crate::repository::Repository;
use fetch_lookup::{Name, Names};
use fetch_store::{NoMemory, Text};
use std::alloc::Global;
use std::collections::BTreeSet;

impl Repository {
    /// The names of the remotes: the subsections of the trusted sections `remote`.
    pub fn remote_names(&self, alloc: Global) -> Result<Names, NoMemory>
        ensures { IfOk result (λ found. found.keys ≡ names.remote_names_of (sections_of self.now)) }
    {
        fetch_lookup::remote_names(alloc, self.config())
    }

    /// The remote that is meant where none is named. To push, a trusted `remote.pushDefault` comes first. Else it is the
    /// only remote, or `origin` among several.
    pub fn remote_default_name(
        &self,
        alloc: Global,
        direction: Direction,
    ) -> Result<Option<Text>, NoMemory>
        ensures { IfOk result (λ name. name ≡ names.default_name_of (sections_of self.now) direction) }
    {
        fetch_lookup::remote_default_name(alloc, self.config(), direction)
    }

    /// The names of the branches: the subsections of the trusted sections `branch` that are UTF-8.
    pub fn branch_names(&self, alloc: Global) -> Result<BTreeSet<Text>, NoMemory>
        ensures { IfOk result (λ found. found.keys ≡ names.branch_names_of (sections_of self.now)) }
    {
        fetch_lookup::branch_names(alloc, self.config())
    }

    /// Which remote a branch has: to push, that of `branch.<short>.pushRemote`, or else of `remote.pushDefault`, or else,
    /// as to fetch, of `branch.<short>.remote`. None also where that text is neither a place nor UTF-8.
    pub fn branch_remote_name(
        &self,
        alloc: Global,
        short: &[u8],
        direction: Direction,
    ) -> Result<Option<Name>, NoMemory>
        ensures { IfOk result (λ name. name ≡ names.branch_name_of (sections_of self.now) short.now direction) }
    {
        fetch_lookup::branch_remote_name(alloc, self.config(), short, direction)
    }
}
