//! An iterator over a store.

ghost use Rattle.std.specs.Prelude.{All};
ghost use Rattle.fetch_store.specs.Buffers.{IsLent};

use crate::span::Span;
use fetch_base::{Kind, ObjectId};

/// The ids of a store with their objects, lent, by ascending id.
#[derive(Drop)]
pub struct StoreIter<'a> {
    pub(crate) hash: Kind,
    pub(crate) buffer: &'a [u8],
    pub(crate) index: &'a [(ObjectId, Span)],
    ghost lent: { All (IsLent hash buffer.now) index.now },
}
