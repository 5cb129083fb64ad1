//! The acknowledged commits and their ancestors.

ghost use Rattle.std.specs.Prelude.{◌≡◌, [], ◌∷◌, ◌++◌, true, IfOk, OnOk, OnErr, is_some, if◌then◌else◌};
ghost use Rattle.std.specs.FinSet as set;
ghost use Rattle.fetch_base.specs.Id.{id_cmp};
ghost use Rattle.fetch_negotiate.specs.Commits.{has};
ghost use Rattle.fetch_negotiate.specs.Copies.{IsSameCommon};
ghost use Rattle.fetch_negotiate.specs.Exact.{IsExact};
ghost use Rattle.fetch_negotiate.specs.Reading.{Grows, IsTold, commit_at, links_at, read_in};
ghost use Rattle.fetch_negotiate.specs.Sharing.{IsMarked, IsFinished, IsCommonIn, IsWithin, AreWithin, IsDone, AreDone, Extends, Covers};

use crate::commits::{Table, read};
use crate::links::links;
use fetch_store::{Border, NoMemory, ObjectId, Objects};
use std::alloc::Global;
use std::collections::BTreeSet;

/// What is known to be on both sides. The first `finished` of the acknowledged ids are marked, so far as they are
/// stored commits, and so are the parents of the first `closed` of the commits that are marked.
#[derive(Debug, Drop)]
pub(crate) struct Common {
    pub(crate) acknowledged: Vec<ObjectId>,
    finished: usize,
    pub(crate) commits: Vec<ObjectId>,
    closed: usize,
    marked: BTreeSet<ObjectId>,
}

impl Common {
    pub(crate) fn new(alloc: Global) -> Common
        ensures acknowledged { result.acknowledged.items ≡ [] }
        ensures commits { result.commits.items ≡ [] }
        ensures finished { result.finished ≡ 0 }
        ensures closed { result.closed ≡ 0 }
        ensures marked { result.marked.keys ≡ [] }
    {
        Common {
            acknowledged: Vec::new(alloc),
            finished: 0,
            commits: Vec::new(alloc),
            closed: 0,
            marked: BTreeSet::new(alloc),
        }
    }

    /// Equal marks.
    pub(crate) fn try_clone(&self) -> Result<Common, NoMemory>
        ensures { IfOk result (λ copy. IsSameCommon copy self.now) }
    {
        Ok(Common {
            acknowledged: self.acknowledged.clone()?,
            finished: self.finished,
            commits: self.commits.clone()?,
            closed: self.closed,
            marked: self.marked.clone()?,
        })
    }

    /// Whether a commit is marked.
    pub(crate) fn contains(&self, id: &ObjectId) -> bool
        requires { IsMarked self.now.marked self.now.commits.items }
        ensures { result ≡ has self.now.commits.items id.now }
    {
        self.marked.contains(id)
    }
}

/// Marks a commit.
fn mark(common: &mut Common, alloc: Global, id: &ObjectId) -> Result<(), NoMemory>
    requires { IsMarked common.old.marked common.old.commits.items }
    ensures marked { IsMarked common.new.marked common.new.commits.items }
    ensures ok { OnOk result (common.new.commits.items
        ≡ (if has common.old.commits.items id.now then common.old.commits.items else common.old.commits.items ++ id.now ∷ [])) }
    ensures err { OnErr result (common.new.commits.items ≡ common.old.commits.items) }
    ensures acknowledged { common.new.acknowledged ≡ common.old.acknowledged }
    ensures finished { common.new.finished ≡ common.old.finished }
    ensures closed { common.new.closed ≡ common.old.closed }
{
    if common.contains(id) {
        return Ok(());
    }
    common.commits.reserve(1)?;
    common.marked.insert(*id)?;
    common.commits.push_reserved(*id);
    Ok(())
}

/// Reads an id, and marks it where it is a stored commit.
fn mark_one<O: Objects>(
    common: &mut Common,
    table: &mut Table,
    alloc: Global,
    objects: &O,
    id: &ObjectId,
) -> Result<(), NoMemory>
    requires marked { IsMarked common.old.marked common.old.commits.items }
    requires told { IsTold (read_in table.old) (O.graph objects.now) }
    ensures common { (border : set.FinSet id_cmp) → IsCommonIn (read_in table.old) border common.old
        → IsWithin (read_in table.old) border common.old.acknowledged.items id.now → IsCommonIn (read_in table.new) border common.new }
    ensures told { IsTold (read_in table.new) (O.graph objects.now) }
    ensures grows { Grows (read_in table.old) (read_in table.new) }
    ensures more { Extends common.old.commits.items common.new.commits.items }
    ensures done { OnOk result (IsDone (read_in table.new) common.new.commits.items id.now) }
    ensures acknowledged { common.new.acknowledged ≡ common.old.acknowledged }
    ensures finished { common.new.finished ≡ common.old.finished }
    ensures closed { common.new.closed ≡ common.old.closed }
{
    let stored = read(table, alloc, objects, id)?;
    if !stored {
        return Ok(());
    }
    mark(common, alloc, id)?;
    Ok(())
}

/// Reads the parents of a commit, and marks those that are stored commits.
fn mark_parents<O: Objects>(
    common: &mut Common,
    table: &mut Table,
    border: &Border,
    alloc: Global,
    objects: &O,
    id: &ObjectId,
) -> Result<(), NoMemory>
    requires common { IsCommonIn (read_in table.old) border.now common.old }
    requires told { IsTold (read_in table.old) (O.graph objects.now) }
    requires read { is_some (commit_at (read_in table.old) id.now) ≡ true }
    requires within { AreWithin (read_in table.old) border.now common.old.acknowledged.items
        (links_at (read_in table.old) border.now id.now) }
    ensures common { IsCommonIn (read_in table.new) border.now common.new }
    ensures told { IsTold (read_in table.new) (O.graph objects.now) }
    ensures grows { Grows (read_in table.old) (read_in table.new) }
    ensures more { Extends common.old.commits.items common.new.commits.items }
    ensures done { OnOk result (AreDone (read_in table.new) common.new.commits.items (links_at (read_in table.old) border.now id.now)) }
    ensures acknowledged { common.new.acknowledged ≡ common.old.acknowledged }
    ensures finished { common.new.finished ≡ common.old.finished }
    ensures closed { common.new.closed ≡ common.old.closed }
{
    let count = links(table, border, id).len();
    for index in 0..count {
        let parent = links(table, border, id)[index];
        mark_one(common, table, alloc, objects, &parent)?;
    }
    Ok(())
}

/// Marks each acknowledged commit and each ancestor of one.
pub(crate) fn mark_acknowledged<O: Objects>(
    common: &mut Common,
    table: &mut Table,
    border: &Border,
    alloc: Global,
    objects: &O,
) -> Result<(), NoMemory>
    requires common { IsCommonIn (read_in table.old) border.now common.old }
    requires told { IsTold (read_in table.old) (O.graph objects.now) }
    ensures common { IsCommonIn (read_in table.new) border.now common.new }
    ensures told { IsTold (read_in table.new) (O.graph objects.now) }
    ensures grows { Grows (read_in table.old) (read_in table.new) }
    ensures more { Covers common.old.commits.items common.new.commits.items }
    ensures acknowledged { common.new.acknowledged ≡ common.old.acknowledged }
    ensures finished { OnOk result (IsFinished (read_in table.new) border.now common.new.acknowledged.items common.new.commits.items) }
    ensures exact { OnOk result (IsExact (O.graph objects.now) border.now common.new.acknowledged.items common.new.commits.items) }
{
    'acknowledged: while common.finished < common.acknowledged.len() {
        let id = common.acknowledged[common.finished];
        mark_one(common, table, alloc, objects, &id)?;
        common.finished += 1;
    }
    'marked: while common.closed < common.commits.len() {
        let id = common.commits[common.closed];
        mark_parents(common, table, border, alloc, objects, &id)?;
        common.closed += 1;
    }
    Ok(())
}

/// Takes in an acknowledged id, which isn't marked yet.
pub(crate) fn acknowledge(
    common: &mut Common,
    table: &Table,
    border: &Border,
    id: &ObjectId,
) -> Result<(), NoMemory>
    requires common { IsCommonIn (read_in table.now) border.now common.old }
    ensures common { IsCommonIn (read_in table.now) border.now common.new }
    ensures ok { OnOk result (common.new.acknowledged.items ≡ common.old.acknowledged.items ++ id.now ∷ []) }
    ensures err { OnErr result (common.new.acknowledged.items ≡ common.old.acknowledged.items) }
    ensures commits { common.new.commits ≡ common.old.commits }
{
    common.acknowledged.push(*id)?;
    Ok(())
}
