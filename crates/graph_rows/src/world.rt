//! What a row's lines have put down.

use fetch_refs::{RefEdit, Refs};
use fetch_store::{Kind, ObjectId, Store};
use fetch_update::Worktree;
use std::alloc::Global;

/// Objects, references, and what is to be done with them.
#[derive(Drop)]
pub(crate) struct World {
    pub(crate) store: Store,
    /// The commits of the border.
    pub(crate) border: Vec<ObjectId>,
    pub(crate) refs: Refs,
    /// The edits that aren't made yet.
    pub(crate) edits: Vec<RefEdit>,
    /// Where branches are checked out.
    pub(crate) worktrees: Vec<Worktree>,
}

impl World {
    /// Nothing, for ids of this hash.
    pub(crate) fn new(alloc: Global, hash: Kind) -> World {
        World {
            store: Store::new(alloc, hash),
            border: Vec::new(alloc),
            refs: Refs::new(alloc, hash),
            edits: Vec::new(alloc),
            worktrees: Vec::new(alloc),
        }
    }
}
