//! Fewer and fewer commits, the further back they stand.

ghost use Rattle.std.specs.Prelude.{◌≡◌, ◌++◌, [], Some, true, false, is_some, map as listed, IfOk, IfSome, OnOk, OnErr};
ghost use Rattle.std.specs.FinMap as map;
ghost use Rattle.std.specs.List.{list_any};
ghost use Rattle.std.specs.Option.{option_to_list};
ghost use Rattle.fetch_negotiate.specs.Commits.{IsStoredCommit, has};
ghost use Rattle.fetch_negotiate.specs.Haves.{started, taking, acknowledging, next_taken};
ghost use Rattle.fetch_negotiate.specs.Kept.{read_by};
ghost use Rattle.fetch_negotiate.specs.Paired.{IsPaired};
ghost use Rattle.fetch_negotiate.specs.Reading.{Grows, IsTold, commit_at, links_at, read_in};
ghost use Rattle.fetch_negotiate.specs.Sharing.{Covers};
ghost use Rattle.fetch_negotiate.specs.Skipped.{IsSkipping, AnyStored, HasParents, IsOffered};
ghost use Rattle.fetch_negotiate.specs.Skips.{offers, next_offered};
ghost use Rattle.fetch_negotiate.specs.Walking.{GoesOn, IsWalk, IsWalkOver, IsRead, ReadsOn, so_far_in, known_in};

use crate::commits::{Table, read};
use crate::links::links;
use crate::negotiator::Negotiator;
use crate::returning::{Mark, give_back};
use crate::skip::Skip;
use crate::skips::{Skips, hand, make_room, pair};
use crate::walk::{HaveWalk, come_next, share, take};
use fetch_store::{Border, NoMemory, ObjectId, Objects};
use std::alloc::Global;
use std::marker::Model;

/// Tells the latest commits one by one, and then fewer and fewer. Contracts see it as what it read, the negotiation so
/// far, which has the commits that were passed over too, and the commits offered.
#[derive(Debug, Drop)]
pub struct Skipping {
    walk: HaveWalk,
    skips: Skips,
    offered: Vec<ObjectId>,
}

impl Model for Skipping {
    ghost use Rattle.fetch_negotiate.specs.Kept.{KeptOffers, coded_offers};

    ghost Value = { KeptOffers };

    ghost coded = { coded_offers };

    ghost use Rattle.fetch_negotiate.specs.Sharing.{Covers};
    ghost use Rattle.fetch_negotiate.specs.Skipped.{IsSkipping};
    ghost use Rattle.fetch_negotiate.specs.Walking.{so_far_in, known_in};

    ghost view = { λ s. record { known = known_in s.walk.table; so_far = so_far_in s.walk; offered = s.offered.items } };

    ghost invariant = { λ s. record { skipping : IsSkipping s.walk s.skips; taken : Covers s.offered.items s.walk.frontier.taken.items } };
}

impl Skipping {
    /// A negotiation from these tips on, which leaves the parents of border commits aside.
    pub fn new(alloc: Global, tips: &[ObjectId], border: &Border) -> Result<Skipping, NoMemory>
        ensures so_far { IfOk result (λ negotiator. negotiator.so_far ≡ started tips.now border.now) }
        ensures offered { IfOk result (λ negotiator. negotiator.offered ≡ []) }
        ensures known { IfOk result (λ negotiator. negotiator.known ≡ map.empty) }
    {
        Ok(Skipping {
            walk: HaveWalk::new(alloc, tips, border)?,
            skips: Skips::new(alloc, tips)?,
            offered: Vec::new(alloc),
        })
    }

    /// An equal negotiator.
    pub fn try_clone(&self, alloc: Global) -> Result<Skipping, NoMemory>
        ensures { IfOk result (λ copy. copy ≡ self.now) }
    {
        Ok(Skipping {
            walk: self.walk.try_clone(alloc)?,
            skips: self.skips.try_clone()?,
            offered: self.offered.clone()?,
        })
    }
}

impl Negotiator for Skipping {
    ghost known = { λ s. read_by s.known };

    ghost given = { λ s. s.offered };

    fn next<O: Objects>(&mut self, alloc: Global, objects: &O) -> Result<Option<ObjectId>, NoMemory>
        requires { IsTold (read_by self.old.known) (O.graph objects.now) }
        ensures next { IfOk result (λ next. next ≡ (next_offered (O.graph objects.now) self.old.so_far).have) }
        ensures ok { OnOk result (self.new.so_far ≡ (next_offered (O.graph objects.now) self.old.so_far).later) }
        ensures unchanged { OnErr result (self.new.so_far ≡ self.old.so_far) }
        ensures later { OnErr result (next_offered (O.graph objects.now) self.new.so_far
            ≡ next_offered (O.graph objects.now) self.old.so_far) }
        ensures stored { IfOk result (λ next. IfSome next (λ id. IsStoredCommit (O.graph objects.now) id)) }
        ensures fresh { IfOk result (λ next. IfSome next (λ id. has self.old.offered id ≡ false)) }
        ensures given { IfOk result (λ next. self.new.offered ≡ self.old.offered ++ option_to_list next) }
        ensures err { OnErr result (self.new.offered ≡ self.old.offered) }
        ensures told { IsTold (read_by self.new.known) (O.graph objects.now) }
    {
        self.offered.reserve(1)?;
        let mark = Mark::of(&self.walk, &self.skips);
        let next = match skip_on(&mut self.walk, &mut self.skips, alloc, objects) {
            Ok(next) => next,
            Err(NoMemory) => {
                give_back(&mut self.walk, &mut self.skips, mark);
                return Err(NoMemory);
            }
        };
        match next {
            Some(id) => {
                self.offered.push_reserved(id);
                Ok(Some(id))
            }
            None => Ok(None),
        }
    }

    fn in_common<O: Objects>(
        &mut self,
        _alloc: Global,
        _objects: &O,
        id: &ObjectId,
    ) -> Result<(), NoMemory>
        requires { IsTold (read_by self.old.known) (O.graph _objects.now) }
        ensures ok { OnOk result (self.new.so_far ≡ acknowledging self.old.so_far id.now) }
        ensures unchanged { OnErr result (self.new.so_far ≡ self.old.so_far) }
        ensures given { self.new.offered ≡ self.old.offered }
        ensures told { IsTold (read_by self.new.known) (O.graph _objects.now) }
    {
        share(&mut self.walk, id)
    }
}

/// Takes commits until one is offered or none is left. Where memory runs out, some may have been taken.
fn skip_on<O: Objects>(
    walk: &mut HaveWalk,
    skips: &mut Skips,
    alloc: Global,
    objects: &O,
) -> Result<Option<ObjectId>, NoMemory>
    requires skipping { IsSkipping walk.old skips.old }
    requires told { IsTold (read_in walk.old.table) (O.graph objects.now) }
    ensures skipping { IsSkipping walk.new skips.new }
    ensures told { IsTold (read_in walk.new.table) (O.graph objects.now) }
    ensures next { IfOk result (λ next. next ≡ (next_offered (O.graph objects.now) (so_far_in walk.old)).have) }
    ensures ok { OnOk result (so_far_in walk.new ≡ (next_offered (O.graph objects.now) (so_far_in walk.old)).later) }
    ensures goes { GoesOn walk.old walk.new }
    ensures more { Covers walk.old.frontier.taken.items walk.new.frontier.taken.items }
{
    while let Some(id) = come_next(walk, alloc, objects)? {
        if pass(walk, skips, alloc, objects, &id)? {
            return Ok(Some(id));
        }
    }
    Ok(None)
}

/// Takes a commit and hands its pair on, and tells whether it is offered.
fn pass<O: Objects>(
    walk: &mut HaveWalk,
    skips: &mut Skips,
    alloc: Global,
    objects: &O,
    id: &ObjectId,
) -> Result<bool, NoMemory>
    requires skipping { IsSkipping walk.old skips.old }
    requires told { IsTold (read_in walk.old.table) (O.graph objects.now) }
    requires read { IsRead walk.old id.now }
    ensures skipping { IsSkipping walk.new skips.new }
    ensures told { IsTold (read_in walk.new.table) (O.graph objects.now) }
    ensures grows { Grows (read_in walk.old.table) (read_in walk.new.table) }
    ensures offered { IfOk result (λ offered. offered ≡ offers (O.graph objects.now) (so_far_in walk.old) id.now) }
    ensures ok { OnOk result (so_far_in walk.new ≡ taking (so_far_in walk.old) (Some id.now)) }
    ensures err { OnErr result (so_far_in walk.new ≡ so_far_in walk.old) }
{
    let skip = pair(skips, id)?;
    let offered = is_offered(walk, alloc, objects, skip, id)?;
    hand_on(walk, skips, id, skip.handed(offered))?;
    Ok(offered)
}

/// Takes a commit, and hands a pair to its parents.
fn hand_on(
    walk: &mut HaveWalk,
    skips: &mut Skips,
    id: &ObjectId,
    skip: Skip,
) -> Result<(), NoMemory>
    requires walk { IsWalk walk.old }
    requires paired { IsPaired skips.old }
    requires read { IsRead walk.old id.now }
    ensures walk { IsWalk walk.new }
    ensures paired { IsPaired skips.new }
    ensures table { walk.new.table ≡ walk.old.table }
    ensures ok { OnOk result (so_far_in walk.new ≡ taking (so_far_in walk.old) (Some id.now)) }
    ensures err { OnErr result (so_far_in walk.new ≡ so_far_in walk.old) }
    ensures handed { OnOk result (skips.new.handed.items ≡ skips.old.handed.items
        ++ listed (λ p. (p, skip)) (links_at (read_in walk.old.table) walk.old.border id.now)) }
    ensures kept { OnErr result (skips.new.handed.items ≡ skips.old.handed.items) }
{
    make_room(skips, links(&walk.table, &walk.border, id).len())?;
    take(walk, id)?;
    hand(skips, links(&walk.table, &walk.border, id), skip);
    Ok(())
}

/// Whether a commit with this pair is offered.
fn is_offered<O: Objects>(
    walk: &mut HaveWalk,
    alloc: Global,
    objects: &O,
    skip: Skip,
    id: &ObjectId,
) -> Result<bool, NoMemory>
    requires over { IsWalkOver (O.graph objects.now) walk.old }
    requires read { IsRead walk.old id.now }
    ensures stays { ReadsOn (O.graph objects.now) walk.old walk.new }
    ensures offered { IfOk result (λ offered. IsOffered (read_in walk.new.table) walk.old.border skip id.now offered) }
{
    if skip.left == 0 {
        return Ok(true);
    }
    let has = has_parents(walk, alloc, objects, id)?;
    Ok(!has)
}

/// Whether a commit has a stored parent.
fn has_parents<O: Objects>(
    walk: &mut HaveWalk,
    alloc: Global,
    objects: &O,
    id: &ObjectId,
) -> Result<bool, NoMemory>
    requires over { IsWalkOver (O.graph objects.now) walk.old }
    requires read { IsRead walk.old id.now }
    ensures stays { ReadsOn (O.graph objects.now) walk.old walk.new }
    ensures has { IfOk result (λ has. HasParents (read_in walk.new.table) walk.old.border id.now has) }
{
    any_stored(&mut walk.table, &walk.border, alloc, objects, id)
}

/// Whether one of a commit's parents is a stored commit.
fn any_stored<O: Objects>(
    table: &mut Table,
    border: &Border,
    alloc: Global,
    objects: &O,
    id: &ObjectId,
) -> Result<bool, NoMemory>
    requires told { IsTold (read_in table.old) (O.graph objects.now) }
    requires read { is_some (commit_at (read_in table.old) id.now) ≡ true }
    ensures told { IsTold (read_in table.new) (O.graph objects.now) }
    ensures grows { Grows (read_in table.old) (read_in table.new) }
    ensures any { IfOk result (λ any. AnyStored (read_in table.new) (links_at (read_in table.old) border.now id.now) any) }
{
    let count = links(table, border, id).len();
    for index in 0..count {
        let parent = links(table, border, id)[index];
        if read(table, alloc, objects, &parent)? {
            return Ok(true);
        }
    }
    Ok(false)
}
