//! What a server gives from.

use fetch_refs::Refs;
use fetch_store::Store;
use std::alloc::Global;

/// The objects and the references of a repository, lent.
#[derive(Clone, Copy)]
pub(crate) struct Parts<'a> {
    /// Where copies of what it gives are made.
    pub alloc: Global,
    /// Its objects.
    pub store: &'a Store,
    /// Its references.
    pub refs: &'a Refs,
}
