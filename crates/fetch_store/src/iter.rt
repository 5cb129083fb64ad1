//! The objects of a store in the order of their ids.

ghost use Rattle.std.specs.Prelude.{◌≡◌};
ghost use Rattle.std.specs.Iterator.{YieldsFirstBy, item_count};
ghost use Rattle.std.specs.FinMap as map;
ghost use Rattle.fetch_store.specs.Iter.{left, shown};

use crate::buffer::lend;
use crate::store_iter::StoreIter;
use fetch_base::ObjectId;
use fetch_objects::ObjectRef;

impl<'a> Iterator for StoreIter<'a> {
    type Item = (ObjectId, ObjectRef<'a>);

    ghost next_gives = { YieldsFirstBy shown left };

    ghost remaining = { item_count left };

    fn next(&mut self) -> Option<(ObjectId, ObjectRef<'a>)> {
        let index = self.index;
        let [(id, span), rest @ ..] = index else {
            return None;
        };
        let object = lend(self.hash, self.buffer, span);
        self.index = rest;
        Some((*id, object))
    }
}

impl ExactSizeIterator for StoreIter<'_> {
    fn len(&self) -> usize {
        self.index.len()
    }
}
