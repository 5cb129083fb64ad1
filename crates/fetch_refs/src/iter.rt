//! References in the order of their names.

ghost use Rattle.std.specs.Prelude.{◌≡◌, length};
ghost use Rattle.std.specs.FinMap as map;
ghost use Rattle.std.specs.Iterator.{YieldsFirstBy, item_count};
ghost use Rattle.fetch_refs.specs.Iter.{left, shown, standing_in};

use crate::refs::Refs;
use crate::slot::Slot;
use crate::target::TargetRef;
use fetch_specs::FullName;
use std::collections::{BTreeMap, btree_map};
use std::marker::Model;

/// References by ascending name. Contracts see it as those that are left.
#[derive(Drop)]
pub struct RefIter<'a> {
    entries: btree_map::Iter<'a, FullName, Slot>,
    /// How many references are left.
    count: usize,
}

impl<'a> Model for RefIter<'a> {
    ghost use Rattle.fetch_refs.specs.Iter.{References, coded_references};

    ghost Value = { References };

    ghost coded = { coded_references };

    ghost use Rattle.std.specs.Prelude.{◌≡◌, length};
    ghost use Rattle.fetch_refs.specs.Iter.{standing_in};

    ghost view = { λ it. standing_in it.entries };

    ghost invariant = { λ it. it.count ≡ length (standing_in it.entries) };
}

impl Refs {
    /// The references by ascending name. This takes no memory.
    pub fn iter(&self) -> RefIter<'_>
        ensures { left result ≡ map.entries self.now.names }
    {
        RefIter {
            entries: self.contents.names.iter(),
            count: count_of(&self.contents.names),
        }
    }
}

/// How many places hold a value.
fn count_of(names: &BTreeMap<FullName, Slot>) -> usize
    ensures { result ≡ length (standing_in names.now.entries) }
{
    // No more than there are places.
    let _places = names.len();
    let mut count = 0;
    'places: for entry in names {
        if entry.1.value.is_some() {
            count += 1;
        }
    }
    count
}

/// The first reference of the places that are left.
fn first<'a>(entries: &mut btree_map::Iter<'a, FullName, Slot>) -> Option<(&'a [u8], TargetRef<'a>)>
    ensures { YieldsFirstBy shown standing_in entries.old result entries.new }
{
    'entries: while let Some((name, slot)) = entries.next() {
        if let Some(target) = &slot.value {
            return Some((name.as_bytes(), target.as_ref()));
        }
    }
    None
}

impl<'a> Iterator for RefIter<'a> {
    type Item = (&'a [u8], TargetRef<'a>);

    ghost next_gives = { YieldsFirstBy shown left };

    ghost remaining = { item_count left };

    fn next(&mut self) -> Option<(&'a [u8], TargetRef<'a>)> {
        let item = first(&mut self.entries)?;
        self.count -= 1;
        Some(item)
    }
}

impl ExactSizeIterator for RefIter<'_> {
    /// How many references are left.
    fn len(&self) -> usize {
        self.count
    }
}
