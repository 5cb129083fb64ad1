//! Walks over ids, level by level.

ghost use Rattle.std.specs.Prelude.{◌≡◌, ◌↔◌, ◌+◌, ◌++◌, ◌≤◌, ◌<◌, length, drop, is_some, sum_by, IsTrue, IfOk, IfSome, OnOk, Contains};
ghost use Rattle.std.specs.List.Sorted.{IsStrictlySortedBy};
ghost use Rattle.fetch_base.specs.declared.id.ObjectId.{ObjectId};
ghost use Rattle.fetch_store.specs.Found.{there, with_each, with_next};
ghost use Rattle.fetch_store.specs.Spread.{Nexts, IsWithin, looked_at, next_to};
ghost use Rattle.fetch_base.specs.Id.{id_cmp};

use fetch_base::{Distinct, List, NoMemory, ObjectId, Steps};
use std::alloc::Global;
use std::sync::ledger::Ledger;

/// Where a walk goes from an id.
pub trait Next {
    /// The ids one step away; None where nothing is there.
    ghost nexts: { Self → Nexts };

    /// Whether something is there.
    fn is_there(&self, id: &ObjectId) -> bool
        ensures { result ≡ is_some (nexts self.now id.now) };

    /// Puts the ids one step away after the others. After an error some of them may stand there: the walk is given up
    /// then.
    fn append_next(&self, id: &ObjectId, into: &mut Vec<ObjectId>) -> Result<(), NoMemory>
        ensures { OnOk result (into.new.items ≡ into.old.items ++ next_to (nexts self.now) id.now) };
}

/// The ids to which a path leads from one of the starts, of no more steps than the limit, if there is one: each once,
/// in ascending order. They are found level by level, those one step further after all that are nearer, and each id
/// is left once. A step is one id that is looked at: a start, or an id one step away from one that was found. Steps only
/// grow, also where memory runs out.
pub fn spread<N: Next, L: Ledger>(
    alloc: Global,
    next: &N,
    starts: &[ObjectId],
    limit: Option<u64>,
    steps: &mut Steps<L>,
) -> Result<List<ObjectId>, NoMemory>
    ensures ids { IfOk result (λ ids. (id : ObjectId) → Contains ids id ↔ IsWithin (N.nexts next.now) starts.now limit id) }
    ensures ascending { IfOk result (λ ids. IsStrictlySortedBy id_cmp ids) }
    ensures cost { IfOk result (λ ids. steps.new ≤ steps.old + looked_at (N.nexts next.now) starts.now ids) }
    ensures grows { steps.old ≤ steps.new }
{
    let mut found = Distinct::new(alloc);
    add_each(next, &mut found, starts, steps)?;
    let mut done = 0;
    let mut level: u64 = 0;
    while done < found.len() && is_below(level, limit) {
        done = add_level(alloc, next, &mut found, done, steps)?;
        level += 1;
    }
    let mut ids = found.into_vec();
    ids.sort_unstable();
    Ok(List::from(ids))
}

fn is_below(level: u64, limit: Option<u64>) -> bool
    ensures { IsTrue result ↔ IfSome limit (λ n. level < n) }
{
    match limit {
        Some(limit) => level < limit,
        None => true,
    }
}

/// Looks at each of the ids, and adds those at which something is.
fn add_each<N: Next, L: Ledger>(
    next: &N,
    found: &mut Distinct<ObjectId, ObjectId>,
    ids: &[ObjectId],
    steps: &mut Steps<L>,
) -> Result<(), NoMemory>
    ensures found { OnOk result (found.new ≡ with_each found.old (there (N.nexts next.now) ids.now)) }
    ensures steps { OnOk result (steps.new ≡ steps.old + length ids.now) }
    ensures grows { steps.old ≤ steps.new }
{
    for id in ids {
        steps.tick();
        if next.is_there(id) {
            found.add(*id)?;
        }
    }
    Ok(())
}

/// Adds what is one step away from those found from this place on, and answers where the new ones begin.
fn add_level<N: Next, L: Ledger>(
    alloc: Global,
    next: &N,
    found: &mut Distinct<ObjectId, ObjectId>,
    from: usize,
    steps: &mut Steps<L>,
) -> Result<usize, NoMemory>
    requires { from ≤ length found.old }
    ensures found { OnOk result (found.new ≡ with_next (N.nexts next.now) found.old (drop from found.old)) }
    ensures begin { IfOk result (λ begin. begin ≡ length found.old) }
    ensures steps { OnOk result (steps.new ≡ steps.old + sum_by (λ id. length (next_to (N.nexts next.now) id)) (drop from found.old)) }
    ensures grows { steps.old ≤ steps.new }
{
    let end = found.len();
    let mut ids = Vec::new(alloc);
    for place in from..end {
        ids.clear();
        next.append_next(&found.as_slice()[place], &mut ids)?;
        add_each(next, found, ids.as_slice(), steps)?;
    }
    Ok(end)
}
