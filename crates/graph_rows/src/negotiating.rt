//! Which commits are told, in which order.

ghost use Rattle.fetch_negotiate.specs.Any.{known_by};
ghost use Rattle.fetch_negotiate.specs.Reading.{IsTold};

use crate::reaching::border_of;
use crate::words::{id_of, say_ids};
use crate::world::World;
use fetch_negotiate::{Algorithm, AnyNegotiator, Negotiator};
use fetch_store::{Border, NoMemory, ObjectId, Objects, Store};
use rows::split_word;
use std::alloc::Global;

fn algorithm_of(word: &[u8]) -> Algorithm {
    if word == b"noop".as_slice() {
        Algorithm::Noop
    } else if word == b"skipping".as_slice() {
        Algorithm::Skipping
    } else {
        Algorithm::Consecutive
    }
}

/// The commits that are told, to the end.
fn told<O: Objects>(
    alloc: Global,
    negotiator: &mut AnyNegotiator,
    objects: &O,
) -> Result<Vec<ObjectId>, NoMemory>
    requires { IsTold (known_by negotiator.old) (O.graph objects.now) }
    ensures { IsTold (known_by negotiator.new) (O.graph objects.now) }
{
    let mut ids = Vec::new(alloc);
    for _ in 0..100 {
        match negotiator.next(alloc, objects)? {
            Some(next) => ids.push(next)?,
            None => return Ok(ids),
        }
    }
    Ok(ids)
}

/// The same of a new negotiation, in which the other side has one commit, if any.
#[tactic(auto, using(fetch_negotiate::specs::Unread::unread_told))]
fn run(
    alloc: Global,
    store: &Store,
    border: &Border,
    algorithm: Algorithm,
    tip: ObjectId,
    common: Option<ObjectId>,
) -> Result<Vec<ObjectId>, NoMemory> {
    let mut negotiator = AnyNegotiator::new(alloc, algorithm, &[tip], border)?;
    if let Some(id) = common {
        negotiator.in_common(alloc, store, &id)?;
    }
    told(alloc, &mut negotiator, store)
}

/// `<algorithm> <tip> <id>`, or without an id that the other side has: tells the commits. Whether the words are these.
pub(crate) fn tell_haves(
    alloc: Global,
    world: &World,
    rest: &[u8],
    out: &mut Vec<u8>,
) -> Result<bool, NoMemory> {
    let (algorithm, rest) = split_word(rest);
    let (tip, common) = split_word(rest);
    let Some(tip) = id_of(tip) else {
        return Ok(false);
    };
    let border = border_of(alloc, world.border.as_slice())?;
    let algorithm = algorithm_of(algorithm);
    let ids = run(alloc, &world.store, &border, algorithm, tip, id_of(common))?;
    say_ids(out, b"told", ids.as_slice())?;
    Ok(true)
}
