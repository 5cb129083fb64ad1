//! Whether a dated path leads from one commit to another.

ghost use Rattle.std.specs.Prelude.{◌≡◌, ◌↔◌, ◌+◌, ◌<◌, ◌≤◌, IsTrue, IfOk};
ghost use Rattle.fetch_update.specs.Dated.{IsCommit, HasDatedPath, commit_count, link_count};

use crate::commits::read_commit;
use crate::walk::Walk;
use fetch_store::{NoMemory, ObjectId, Objects, Steps, same_id};
use std::alloc::Global;
use std::marker::Brand;
use std::sync::ledger::{Blank, Ledger};

/// Whether a dated path leads from one stored commit to another: stored commits, each next one a parent of the one
/// before, none with fewer seconds than the last. One step is one commit read or one parent link read. Of one id no more than
/// one commit is read.
pub fn is_dated_ancestor<O: Objects, L: Ledger>(
    alloc: Global,
    objects: &O,
    from: &ObjectId,
    to: &ObjectId,
    steps: &mut Steps<L>,
) -> Result<bool, NoMemory>
    requires from { IsCommit (O.graph objects.now) from.now }
    requires to { IsCommit (O.graph objects.now) to.now }
    ensures path { IfOk result (λ found. IsTrue found ↔ HasDatedPath (O.graph objects.now) from.now to.now) }
    ensures cost { steps.new ≤ steps.old + (commit_count (O.graph objects.now) + link_count (O.graph objects.now)) }
    ensures equal { from.now ≡ to.now → steps.new ≤ steps.old + 1 }
    ensures rises { steps.old ≤ steps.new }
{
    if same_id(from, to) {
        return Ok(true);
    }
    let limit = read_commit(objects, to, steps).unwrap_or(0);
    let mut walk = Walk::new(alloc, limit, *to)?;
    walk.discover(objects, *from, steps)?;
    'commits: while let Some(id) = walk.pop() {
        if walk.expand(objects, &id, to, steps)? {
            return Ok(true);
        }
    }
    Ok(false)
}

/// Whether a dated path leads from one commit to the other: `is_dated_ancestor`, where nobody counts the steps.
pub fn has_dated_path<O: Objects>(
    alloc: Global,
    objects: &O,
    from: &ObjectId,
    to: &ObjectId,
) -> Result<bool, NoMemory>
    requires from { IsCommit (O.graph objects.now) from.now }
    requires to { IsCommit (O.graph objects.now) to.now }
    ensures { IfOk result (λ found. IsTrue found ↔ HasDatedPath (O.graph objects.now) from.now to.now) }
{
    counted::<O, Brand>(alloc, objects, from, to, Blank::new(1))
}

fn counted<O: Objects, L: Ledger>(
    alloc: Global,
    objects: &O,
    from: &ObjectId,
    to: &ObjectId,
    blank: Blank,
) -> Result<bool, NoMemory>
    requires from { IsCommit (O.graph objects.now) from.now }
    requires to { IsCommit (O.graph objects.now) to.now }
    requires name { blank.name ≡ L.name }
    requires parts { blank.parts ≡ L.parts }
    requires some { 0 < blank.parts }
    ensures { IfOk result (λ found. IsTrue found ↔ HasDatedPath (O.graph objects.now) from.now to.now) }
{
    let mut steps: Steps<L> = Steps::new(blank);
    is_dated_ancestor(alloc, objects, from, to, &mut steps)
}
