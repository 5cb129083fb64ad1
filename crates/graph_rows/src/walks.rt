//! A walk over what leads to one id.

ghost use Rattle.std.specs.Prelude.{◌≡◌, ◌<◌, ◌∷◌, [], Some};

use crate::words::{id_of, say_ids};
use fetch_store::{List, Next, NoMemory, ObjectId, Steps, decimal, spread};
use rows::split_word;
use std::alloc::Global;
use std::marker::Brand;
use std::sync::ledger::{Blank, Ledger};

/// Each id leads to one and the same.
#[derive(Drop)]
struct ToOne(ObjectId);

impl Next for ToOne {
    ghost nexts = { λ one id. Some (one.0 ∷ []) };

    fn is_there(&self, _id: &ObjectId) -> bool {
        true
    }

    fn append_next(&self, _id: &ObjectId, into: &mut Vec<ObjectId>) -> Result<(), NoMemory> {
        into.push(self.0)?;
        Ok(())
    }
}

fn count_spread<L: Ledger>(
    alloc: Global,
    next: &ToOne,
    start: ObjectId,
    limit: u64,
    blank: Blank,
) -> Result<List<ObjectId>, NoMemory>
    requires name { blank.name ≡ L.name }
    requires parts { blank.parts ≡ L.parts }
    requires some { 0 < blank.parts }
{
    let mut steps: Steps<L> = Steps::new(blank);
    spread(alloc, next, [start].as_slice(), Some(limit), &mut steps)
}

fn spread_from(
    alloc: Global,
    next: &ToOne,
    start: ObjectId,
    limit: u64,
) -> Result<List<ObjectId>, NoMemory> {
    count_spread::<Brand>(alloc, next, start, limit, Blank::new(1))
}

/// `<id> <id> <steps>`: tells what is reached from the first by so many steps, where each id leads to the second. Whether
/// the words are these.
pub(crate) fn tell(alloc: Global, rest: &[u8], out: &mut Vec<u8>) -> Result<bool, NoMemory> {
    let (start, rest) = split_word(rest);
    let (to, limit) = split_word(rest);
    let (Some(start), Some(to), Some(limit)) = (id_of(start), id_of(to), decimal(limit)) else {
        return Ok(false);
    };
    let found = spread_from(alloc, &ToOne(to), start, limit)?;
    say_ids(out, b"walk", found.as_slice())?;
    Ok(true)
}
