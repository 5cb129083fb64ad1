//! A walk down a history, from the latest commits on.

ghost use Rattle.std.specs.Prelude.{◌≡◌, not, ◌&&◌, Some, IfOk, IfSome, IfNone, OnOk, OnErr};
ghost use Rattle.std.specs.FinMap as map;
ghost use Rattle.fetch_negotiate.specs.Commits.{has};
ghost use Rattle.fetch_negotiate.specs.Copies.{IsSameWalk};
ghost use Rattle.fetch_negotiate.specs.Haves.{started, taking, acknowledging, next_taken};
ghost use Rattle.fetch_negotiate.specs.Queues.{IsChosen, IsNone};
ghost use Rattle.fetch_negotiate.specs.Reading.{IsTold, read_in};
ghost use Rattle.fetch_negotiate.specs.Walking.{IsWalk, IsWalkOver, IsReady, IsRead, ReadsOn, so_far_in, known_in};

use crate::commits::{Table, copy_table};
use crate::common::{Common, acknowledge, mark_acknowledged};
use crate::frontier::{Frontier, enter, front, take_one};
use fetch_store::{Border, NoMemory, ObjectId, Objects};
use std::alloc::Global;
use std::collections::BTreeMap;

/// What was read, what is common, and what may be told next.
#[derive(Debug, Drop)]
pub(crate) struct HaveWalk {
    pub(crate) border: Border,
    pub(crate) table: Table,
    pub(crate) common: Common,
    pub(crate) frontier: Frontier,
}

impl HaveWalk {
    /// A walk from these tips, before its first commit.
    pub(crate) fn new(
        alloc: Global,
        tips: &[ObjectId],
        border: &Border,
    ) -> Result<HaveWalk, NoMemory>
        ensures walk { IfOk result (λ walk. IsWalk walk) }
        ensures so_far { IfOk result (λ walk. so_far_in walk ≡ started tips.now border.now) }
        ensures known { IfOk result (λ walk. known_in walk.table ≡ map.empty) }
    {
        Ok(HaveWalk {
            border: border.try_clone()?,
            table: BTreeMap::new(alloc),
            common: Common::new(alloc),
            frontier: Frontier::new(alloc, tips)?,
        })
    }

    /// An equal walk.
    pub(crate) fn try_clone(&self, alloc: Global) -> Result<HaveWalk, NoMemory>
        ensures { IfOk result (λ copy. IsSameWalk copy self.now) }
    {
        Ok(HaveWalk {
            border: self.border.try_clone()?,
            table: copy_table(alloc, &self.table)?,
            common: self.common.try_clone()?,
            frontier: self.frontier.try_clone()?,
        })
    }
}

/// The commit that comes next, if there is one. It isn't taken yet.
pub(crate) fn come_next<O: Objects>(
    walk: &mut HaveWalk,
    alloc: Global,
    objects: &O,
) -> Result<Option<ObjectId>, NoMemory>
    requires { IsWalkOver (O.graph objects.now) walk.old }
    ensures stays { ReadsOn (O.graph objects.now) walk.old walk.new }
    ensures next { IfOk result (λ next. next ≡ next_taken (O.graph objects.now) (so_far_in walk.old)) }
    ensures read { IfOk result (λ next. IfSome next (IsRead walk.new)) }
{
    prepare(walk, alloc, objects)?;
    Ok(choose(walk))
}

/// Takes a commit.
pub(crate) fn take(walk: &mut HaveWalk, id: &ObjectId) -> Result<(), NoMemory>
    requires walk { IsWalk walk.old }
    requires read { IsRead walk.old id.now }
    ensures walk { IsWalk walk.new }
    ensures table { walk.new.table ≡ walk.old.table }
    ensures ok { OnOk result (so_far_in walk.new ≡ taking (so_far_in walk.old) (Some id.now)) }
    ensures err { OnErr result (so_far_in walk.new ≡ so_far_in walk.old) }
{
    take_one(
        &mut walk.frontier,
        &walk.table,
        &walk.border,
        &walk.common,
        id,
    )
}

/// Takes the commit that comes next, if there is one.
pub(crate) fn advance<O: Objects>(
    walk: &mut HaveWalk,
    alloc: Global,
    objects: &O,
) -> Result<Option<ObjectId>, NoMemory>
    requires { IsWalkOver (O.graph objects.now) walk.old }
    ensures walk { IsWalk walk.new }
    ensures told { IsTold (read_in walk.new.table) (O.graph objects.now) }
    ensures next { IfOk result (λ next. next ≡ next_taken (O.graph objects.now) (so_far_in walk.old)) }
    ensures ok { IfOk result (λ next. so_far_in walk.new ≡ taking (so_far_in walk.old) next) }
    ensures err { OnErr result (so_far_in walk.new ≡ so_far_in walk.old) }
{
    match come_next(walk, alloc, objects)? {
        Some(id) => {
            take(walk, &id)?;
            Ok(Some(id))
        }
        None => Ok(None),
    }
}

/// Takes in an id that the other side has.
pub(crate) fn share(walk: &mut HaveWalk, id: &ObjectId) -> Result<(), NoMemory>
    requires walk { IsWalk walk.old }
    ensures walk { IsWalk walk.new }
    ensures table { walk.new.table ≡ walk.old.table }
    ensures ok { OnOk result (so_far_in walk.new ≡ acknowledging (so_far_in walk.old) id.now) }
    ensures err { OnErr result (so_far_in walk.new ≡ so_far_in walk.old) }
{
    acknowledge(&mut walk.common, &walk.table, &walk.border, id)
}

/// Marks what is common, and puts each candidate into the queue.
fn prepare<O: Objects>(walk: &mut HaveWalk, alloc: Global, objects: &O) -> Result<(), NoMemory>
    requires { IsWalkOver (O.graph objects.now) walk.old }
    ensures stays { ReadsOn (O.graph objects.now) walk.old walk.new }
    ensures ready { OnOk result (IsReady (O.graph objects.now) walk.new) }
{
    mark_acknowledged(
        &mut walk.common,
        &mut walk.table,
        &walk.border,
        alloc,
        objects,
    )?;
    enter(
        &mut walk.frontier,
        &mut walk.table,
        &walk.border,
        &walk.common,
        alloc,
        objects,
    )
}

/// The commit of the queue that comes first of those that are neither taken nor common. What comes before it leaves.
fn choose(walk: &mut HaveWalk) -> Option<ObjectId>
    requires { IsWalk walk.old }
    ensures walk { IsWalk walk.new }
    ensures table { walk.new.table ≡ walk.old.table }
    ensures border { walk.new.border ≡ walk.old.border }
    ensures common { walk.new.common ≡ walk.old.common }
    ensures tips { walk.new.frontier.tips ≡ walk.old.frontier.tips }
    ensures candidates { walk.new.frontier.candidates ≡ walk.old.frontier.candidates }
    ensures entered { walk.new.frontier.entered ≡ walk.old.frontier.entered }
    ensures taken { walk.new.frontier.taken ≡ walk.old.frontier.taken }
    ensures chosen { IfSome result (IsChosen (read_in walk.new.table) walk.new.common.commits.items walk.new.frontier.taken.items
        walk.new.frontier.queue) }
    ensures none { IfNone result (IsNone walk.new.frontier.queue) }
    ensures read { IfSome result (IsRead walk.new) }
{
    while let Some(rank) = front(&walk.frontier.queue) {
        let id = rank.1;
        if is_open(walk, &id) {
            return Some(id);
        }
        let _ = walk.frontier.queue.remove(&rank);
    }
    None
}

/// Whether a commit is neither common nor taken.
fn is_open(walk: &HaveWalk, id: &ObjectId) -> bool
    requires { IsWalk walk.now }
    ensures { result ≡ (not (has walk.now.common.commits.items id.now) && not (has walk.now.frontier.taken.items id.now)) }
{
    !walk.common.contains(id) && !walk.frontier.told.contains(id)
}
