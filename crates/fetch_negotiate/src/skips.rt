//! The pairs of commits.

ghost use Rattle.std.specs.Prelude.{◌≡◌, ◌+◌, ◌<◌, ◌≤◌, ◌++◌, map, IfOk, OnOk, length, take, vec_len, vec_capacity};
ghost use Rattle.fetch_negotiate.specs.Copies.{IsSameSkips};
ghost use Rattle.fetch_negotiate.specs.Paired.{IsPaired, skip_in};
ghost use Rattle.fetch_negotiate.specs.Skips as spec;

use crate::skip::Skip;
use fetch_store::{NoMemory, ObjectId};
use std::alloc::Global;
use std::collections::BTreeMap;

/// The pairs that were handed to commits, in order. Of the first `entered` of them each commit has the one that reaches
/// furthest.
#[derive(Debug, Drop)]
pub(crate) struct Skips {
    pub(crate) handed: Vec<(ObjectId, Skip)>,
    entered: usize,
    pairs: BTreeMap<ObjectId, Skip>,
}

impl Skips {
    /// The pairs of the tips.
    pub(crate) fn new(alloc: Global, tips: &[ObjectId]) -> Result<Skips, NoMemory>
        ensures handed { IfOk result (λ skips. skips.handed.items ≡ map (λ tip. (tip, spec.no_skip)) tips.now) }
        ensures paired { IfOk result (λ skips. IsPaired skips) }
    {
        Ok(Skips {
            handed: first_pairs(alloc, tips)?,
            entered: 0,
            pairs: BTreeMap::new(alloc),
        })
    }

    /// The first pairs alone. Each commit gets its pair anew.
    pub(crate) fn cut(&mut self, handed: usize)
        ensures handed { self.new.handed.items ≡ take handed self.old.handed.items }
        ensures paired { IsPaired self.new }
    {
        self.handed.truncate(handed);
        self.entered = 0;
        self.pairs.clear();
    }

    /// Equal pairs.
    pub(crate) fn try_clone(&self) -> Result<Skips, NoMemory>
        ensures { IfOk result (λ copy. IsSameSkips copy self.now) }
    {
        Ok(Skips {
            handed: self.handed.clone()?,
            entered: self.entered,
            pairs: self.pairs.clone()?,
        })
    }
}

fn first_pairs(alloc: Global, tips: &[ObjectId]) -> Result<Vec<(ObjectId, Skip)>, NoMemory>
    ensures { IfOk result (λ pairs. pairs.items ≡ map (λ tip. (tip, spec.no_skip)) tips.now) }
{
    let mut pairs = Vec::new(alloc);
    for tip in tips {
        pairs.push((*tip, Skip::none()))?;
    }
    Ok(pairs)
}

/// The pair of a commit, of all that were handed to it.
pub(crate) fn pair(skips: &mut Skips, id: &ObjectId) -> Result<Skip, NoMemory>
    requires { IsPaired skips.old }
    ensures paired { IsPaired skips.new }
    ensures handed { skips.new.handed ≡ skips.old.handed }
    ensures pair { IfOk result (λ skip. skip ≡ spec.pair_of skips.old.handed.items id.now) }
{
    enter(skips)?;
    Ok(skip_of(&skips.pairs, id))
}

/// The pair that a commit has so far.
fn skip_of(pairs: &BTreeMap<ObjectId, Skip>, id: &ObjectId) -> Skip
    ensures { result ≡ skip_in pairs.now id.now }
{
    match pairs.get(id) {
        Some(skip) => *skip,
        None => Skip::none(),
    }
}

/// Gives each commit its pair.
fn enter(skips: &mut Skips) -> Result<(), NoMemory>
    requires { IsPaired skips.old }
    ensures paired { IsPaired skips.new }
    ensures handed { skips.new.handed ≡ skips.old.handed }
    ensures entered { OnOk result (length skips.new.handed.items ≤ skips.new.entered) }
{
    'handed: while skips.entered < skips.handed.len() {
        enter_next(skips)?;
    }
    Ok(())
}

fn enter_next(skips: &mut Skips) -> Result<(), NoMemory>
    requires paired { IsPaired skips.old }
    requires open { skips.old.entered < length skips.old.handed.items }
    ensures paired { IsPaired skips.new }
    ensures handed { skips.new.handed ≡ skips.old.handed }
    ensures entered { OnOk result (skips.new.entered ≡ skips.old.entered + 1) }
{
    let (id, skip) = skips.handed[skips.entered];
    let own = skip_of(&skips.pairs, &id);
    skips.pairs.insert(id, own.higher(skip))?;
    skips.entered += 1;
    Ok(())
}

/// Makes room for that many more pairs.
pub(crate) fn make_room(skips: &mut Skips, count: usize) -> Result<(), NoMemory>
    requires { IsPaired skips.old }
    ensures paired { IsPaired skips.new }
    ensures handed { skips.new.handed.items ≡ skips.old.handed.items }
    ensures room { OnOk result (vec_len skips.new.handed + count ≤ vec_capacity skips.new.handed) }
{
    skips.handed.reserve(count)?;
    Ok(())
}

/// Hands a pair to commits, for which there is room.
pub(crate) fn hand(skips: &mut Skips, ids: &[ObjectId], skip: Skip)
    requires paired { IsPaired skips.old }
    requires room { vec_len skips.old.handed + length ids.now ≤ vec_capacity skips.old.handed }
    ensures paired { IsPaired skips.new }
    ensures handed { skips.new.handed.items ≡ skips.old.handed.items ++ map (λ id. (id, skip)) ids.now }
{
    for id in ids {
        skips.handed.push_reserved((*id, skip));
    }
}
