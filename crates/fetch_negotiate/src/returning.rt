//! Commits that were taken are given back, where memory runs out.

ghost use Rattle.std.specs.Prelude.{◌≡◌, ◌-◌, ◌++◌, ◌∷◌, [], length, take};
ghost use Rattle.std.specs.Ordering.{eq_by_cmp};
ghost use Rattle.fetch_base.specs.Id.{id_cmp};
ghost use Rattle.fetch_negotiate.specs.Commits.{has};
ghost use Rattle.fetch_negotiate.specs.Paired.{IsPaired};
ghost use Rattle.fetch_negotiate.specs.Sharing.{IsMarked};

use crate::frontier::Frontier;
use crate::skips::Skips;
use crate::walk::HaveWalk;
use fetch_store::ObjectId;
use std::collections::BTreeSet;

/// How much was taken, and handed on, at a moment.
#[derive(Clone, Copy)]
pub(crate) struct Mark {
    taken: usize,
    candidates: usize,
    handed: usize,
}

impl Mark {
    /// How much was taken and handed on so far.
    pub(crate) fn of(walk: &HaveWalk, skips: &Skips) -> Mark
        ensures taken { result.taken ≡ length walk.now.frontier.taken.items }
        ensures candidates { result.candidates ≡ length walk.now.frontier.candidates.items }
        ensures handed { result.handed ≡ length skips.now.handed.items }
    {
        Mark {
            taken: walk.frontier.taken.len(),
            candidates: walk.frontier.candidates.len(),
            handed: skips.handed.len(),
        }
    }
}

/// What was taken and handed on since goes. What was read stays, and candidates go into the queue anew. This takes no
/// memory.
pub(crate) fn give_back(walk: &mut HaveWalk, skips: &mut Skips, mark: Mark)
    requires { IsMarked walk.old.frontier.told walk.old.frontier.taken.items }
    ensures border { walk.new.border ≡ walk.old.border }
    ensures table { walk.new.table ≡ walk.old.table }
    ensures common { walk.new.common ≡ walk.old.common }
    ensures tips { walk.new.frontier.tips ≡ walk.old.frontier.tips }
    ensures candidates { walk.new.frontier.candidates.items ≡ take mark.candidates walk.old.frontier.candidates.items }
    ensures entered { walk.new.frontier.entered ≡ 0 }
    ensures queue { walk.new.frontier.queue.keys ≡ [] }
    ensures taken { walk.new.frontier.taken.items ≡ take mark.taken walk.old.frontier.taken.items }
    ensures told { IsMarked walk.new.frontier.told walk.new.frontier.taken.items }
    ensures handed { skips.new.handed.items ≡ take mark.handed skips.old.handed.items }
    ensures paired { IsPaired skips.new }
{
    untake(&mut walk.frontier, mark.taken);
    walk.frontier.candidates.truncate(mark.candidates);
    walk.frontier.entered = 0;
    walk.frontier.queue.clear();
    skips.cut(mark.handed);
}

/// The commits after the first ones aren't taken any more.
fn untake(frontier: &mut Frontier, count: usize)
    requires { IsMarked frontier.old.told frontier.old.taken.items }
    ensures tips { frontier.new.tips ≡ frontier.old.tips }
    ensures candidates { frontier.new.candidates ≡ frontier.old.candidates }
    ensures taken { frontier.new.taken.items ≡ take count frontier.old.taken.items }
    ensures told { IsMarked frontier.new.told frontier.new.taken.items }
{
    'taken: while frontier.taken.len() > count {
        untake_last(frontier);
    }
}

/// The last commit isn't taken any more.
fn untake_last(frontier: &mut Frontier)
    requires { IsMarked frontier.old.told frontier.old.taken.items }
    ensures tips { frontier.new.tips ≡ frontier.old.tips }
    ensures candidates { frontier.new.candidates ≡ frontier.old.candidates }
    ensures taken { frontier.new.taken.items ≡ take (length frontier.old.taken.items - 1) frontier.old.taken.items }
    ensures told { IsMarked frontier.new.told frontier.new.taken.items }
{
    match frontier.taken.pop() {
        Some(id) => forget(&mut frontier.told, frontier.taken.as_slice(), &id),
        None => {}
    }
}

/// A commit leaves the set of those taken, unless it is among the others.
fn forget(told: &mut BTreeSet<ObjectId>, others: &[ObjectId], id: &ObjectId)
    requires { IsMarked told.old (others.now ++ id.now ∷ []) }
    ensures { IsMarked told.new others.now }
{
    if is_among(others, id) {
        return;
    }
    let _ = told.remove(id);
}

fn is_among(ids: &[ObjectId], id: &ObjectId) -> bool
    ensures { result ≡ has ids.now id.now }
{
    for other in ids {
        if is_same(id, other) {
            return true;
        }
    }
    false
}

#[tactic(auto, using(fetch_base::proofs::Orders::eq_is))]
fn is_same(id: &ObjectId, other: &ObjectId) -> bool
    ensures { result ≡ eq_by_cmp id_cmp id.now other.now }
{
    *id == *other
}
