//! The hash of a repository that has no id yet.

ghost use Rattle.std.specs.Prelude.{◌≡◌, ◌↔◌, IsTrue};
ghost use Rattle.fetch_remote.specs.Hashing.{HasNoIds, of_hash, with_kind};
ghost use Rattle.fetch_remote.specs.Repositories.{state_of, setup_of};

use super::Repository;
use fetch_store::{Kind, Store};

impl Repository {
    /// Whether nothing has an id: there is no object and no commit in the border, each reference leads to a name, and no
    /// reflog has a line.
    pub fn has_no_ids(&self) -> bool
        ensures { IsTrue result ↔ HasNoIds (state_of self.now) }
    {
        self.store().is_empty() && self.border().is_empty() && self.refs().has_no_ids()
    }

    /// The same repository of another hash, where nothing has an id; the packed list is empty then. This takes no memory.
    pub fn change_hash(&mut self, kind: Kind)
        requires { HasNoIds (state_of self.old) }
        ensures state { state_of self.new ≡ of_hash kind (state_of self.old) }
        ensures setup { setup_of self.new ≡ with_kind kind (setup_of self.old) }
    {
        let alloc = self.overrides.allocator();
        self.store = Store::new(alloc, kind);
        self.refs.change_hash(kind);
        self.settings.kind = kind;
    }
}
