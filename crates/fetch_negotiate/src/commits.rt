//! What was read of the graph.

ghost use Rattle.std.specs.Prelude.{◌≡◌, IfOk, OnOk, Some, is_some, option_map};
ghost use Rattle.std.specs.BTreeMap.{insert_entry};
ghost use Rattle.fetch_base.specs.declared.id.ObjectId.{ObjectId};
ghost use Rattle.fetch_base.specs.Id.{id_cmp};
ghost use Rattle.fetch_negotiate.specs.Commits.{commit_of, parents_in};
ghost use Rattle.fetch_negotiate.specs.Reading.{Grows, IsTold, read_in};

use fetch_store::{List, NoMemory, ObjectId, Objects};
use std::alloc::Global;
use std::collections::BTreeMap;

/// What a stored commit says of its history.
#[derive(Debug, Drop)]
pub(crate) struct Commit {
    pub(crate) seconds: u64,
    pub(crate) parents: List<ObjectId>,
}

impl Commit {
    /// An equal commit.
    fn try_clone(&self) -> Result<Commit, NoMemory>
        ensures { IfOk result (λ copy. copy ≡ self.now) }
    {
        let parents = Vec::from_slice(self.parents.allocator(), self.parents.as_slice())?;
        Ok(Commit {
            seconds: self.seconds,
            parents: List::from(parents),
        })
    }
}

/// The ids that were read, each with the commit that was found.
pub(crate) type Table = BTreeMap<ObjectId, Option<Commit>>;

/// An equal table.
pub(crate) fn copy_table(alloc: Global, table: &Table) -> Result<Table, NoMemory>
    ensures { IfOk result (λ copy. copy.entries ≡ table.now.entries) }
{
    let mut copy = BTreeMap::new(alloc);
    let _count = table.len();
    'ids: for (id, found) in table {
        put(&mut copy, *id, copy_found(found)?)?;
    }
    Ok(copy)
}

fn put(table: &mut Table, id: ObjectId, found: Option<Commit>) -> Result<(), NoMemory>
    ensures { OnOk result (table.new.entries ≡ insert_entry id_cmp table.old.entries id found) }
{
    table.insert(id, found)?;
    Ok(())
}

fn copy_found(found: &Option<Commit>) -> Result<Option<Commit>, NoMemory>
    ensures { IfOk result (λ copy. copy ≡ found.now) }
{
    match found {
        Some(commit) => Ok(Some(commit.try_clone()?)),
        None => Ok(None),
    }
}

/// Reads an id unless it was read before, and tells whether it is a stored commit.
pub(crate) fn read<O: Objects>(
    table: &mut Table,
    alloc: Global,
    objects: &O,
    id: &ObjectId,
) -> Result<bool, NoMemory>
    requires { IsTold (read_in table.old) (O.graph objects.now) }
    ensures grows { Grows (read_in table.old) (read_in table.new) }
    ensures told { IsTold (read_in table.new) (O.graph objects.now) }
    ensures found { IfOk result (λ stored. read_in table.new id.now ≡ Some (commit_of (O.graph objects.now) id.now)) }
    ensures stored { IfOk result (λ stored. stored ≡ is_some (commit_of (O.graph objects.now) id.now)) }
{
    if let Some(stored) = recall(table, id) {
        return Ok(stored);
    }
    let found = commit_read(alloc, objects, id)?;
    let stored = found.is_some();
    table.insert(*id, found)?;
    Ok(stored)
}

/// Whether an id that was read is a stored commit.
fn recall(table: &Table, id: &ObjectId) -> Option<bool>
    ensures { result ≡ option_map is_some (read_in table.now id.now) }
{
    match table.get(id) {
        Some(found) => Some(found.is_some()),
        None => None,
    }
}

#[tactic(auto, using(crate::proofs::Finding::commit_test))]
fn commit_read<O: Objects>(
    alloc: Global,
    objects: &O,
    id: &ObjectId,
) -> Result<Option<Commit>, NoMemory>
    ensures { IfOk result (λ found. found ≡ commit_of (O.graph objects.now) id.now) }
{
    if !objects.is_commit(id) {
        return Ok(None);
    }
    let parents = parents(alloc, objects, id)?;
    let seconds = objects.seconds(id).unwrap_or(0);
    Ok(Some(Commit {
        seconds,
        parents: List::from(parents),
    }))
}

fn parents<O: Objects>(alloc: Global, objects: &O, id: &ObjectId) -> Result<Vec<ObjectId>, NoMemory>
    ensures { IfOk result (λ parents. parents.items ≡ parents_in (O.graph objects.now) id.now) }
{
    let mut parents = Vec::new(alloc);
    let mut left = objects.parents(id);
    while let Some(parent) = left.next() {
        parents.push(parent)?;
    }
    Ok(parents)
}
