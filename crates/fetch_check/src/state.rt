//! What a bundle leaves to go on with.

ghost use Rattle.std.specs.Prelude.{◌≡◌, IfOk};
ghost use Rattle.fetch_store.specs.Stores.{map_of};
ghost use Rattle.fetch_check.specs.Reading.{IsBundle, bundle_of};

use crate::reading::{Bundle, store_of};
use fetch_refs::Refs;
use fetch_store::{Border, NoMemory, Store};
use std::alloc::Global;

/// Objects, references and a border, as a repository is made of them.
// Not copied: a repository is made of it, which can be copied.
#[derive(Drop)]
pub struct State {
    /// The objects.
    pub store: Store,
    /// The references, of the hash of the objects.
    pub refs: Refs,
    /// The commits whose parents are left out.
    pub border: Border,
}

impl Bundle {
    /// What the bundle holds, ready for `Repository::from_parts`: its objects in a store, its references, and its border.
    /// Reflogs, and objects that no direct reference reaches, aren't kept by a bundle. The only error is out of memory.
    pub fn into_state(self, alloc: Global) -> Result<State, NoMemory>
        requires { IsBundle (bundle_of self) }
        ensures hash { IfOk result (λ state. state.store.hash ≡ self.hash) }
        ensures objects { IfOk result (λ state. state.store.objects ≡ map_of self.objects) }
        ensures refs { IfOk result (λ state. state.refs ≡ self.refs) }
        ensures border { IfOk result (λ state. state.border ≡ self.border) }
    {
        let Bundle {
            hash,
            refs,
            border,
            objects,
        } = self;
        let store = store_of(alloc, hash, objects.into_vec())?;
        Ok(State {
            store,
            refs,
            border,
        })
    }
}
