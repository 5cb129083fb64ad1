//! The shallow border: the commits whose parents are left out, as Git lists them in its file `shallow`.

ghost use Rattle.std.specs.Prelude.{◌≡◌, ◌↔◌, ◌++◌, not, filter, IsTrue, IfOk, IfErr, OnOk};
ghost use Rattle.std.specs.List.Sorted.{IsStrictlySortedBy};
ghost use Rattle.std.specs.FinSet as set;
ghost use Rattle.fetch_store.specs.Borders.{ids_of, set_of, merged};
ghost use Rattle.fetch_base.specs.Id.{id_cmp};
ghost use Rattle.fetch_base.specs.declared.error.StoreError.TheVariants as errors;

use fetch_base::{NoMemory, ObjectId, StoreError};
use std::alloc::Global;
use std::marker::Model;

/// The commits at which a history was cut: those that Git's file `shallow` lists, and the `shallow` lines of a request.
/// Their parents need not be stored, and no walk goes from one of them to a parent. Contracts see a finite set of ids.
#[derive(Debug, Drop)]
pub struct Border {
    ids: Vec<ObjectId>,
}

impl Model for Border {
    ghost use Rattle.std.specs.List.Sorted.{IsStrictlySortedBy};
    ghost use Rattle.fetch_store.specs.Borders.{IdSet, coded_ids, set_of};
    ghost use Rattle.fetch_base.specs.Id.{id_cmp};

    ghost Value = { IdSet };

    ghost coded = { coded_ids };

    ghost view = { λ b. set_of b.ids.items };

    ghost invariant = { λ b. IsStrictlySortedBy id_cmp b.ids.items };
}

impl Border {
    /// The border with no commit, as of a repository with its whole history. Takes no memory.
    pub fn new(alloc: Global) -> Border
        ensures { result ≡ set.empty }
    {
        Border {
            ids: Vec::new(alloc),
        }
    }

    /// The border of these ids, in any order, of which some may come more than once. The only error is out of memory.
    pub fn from_ids(alloc: Global, ids: &[ObjectId]) -> Result<Border, StoreError>
        ensures border { IfOk result (λ border. border ≡ set_of ids.now) }
        ensures memory { IfErr result (λ e. e ≡ errors.NoMemory) }
    {
        Ok(border_from(alloc, ids)?)
    }

    /// Whether the commit is one of the border. Takes no memory.
    pub fn contains(&self, id: &ObjectId) -> bool
        ensures { result ≡ set.contains self.now id.now }
    {
        self.ids.as_slice().binary_search(id).is_ok()
    }

    /// The commits, each once, in ascending order of their ids, as the lines of a shallow file are written.
    pub fn commits(&self) -> &[ObjectId]
        ensures members { result.now ≡ ids_of self.now }
        ensures set { set_of result.now ≡ self.now }
        ensures ascending { IsStrictlySortedBy id_cmp result.now }
    {
        self.ids.as_slice()
    }

    /// Whether there is no commit, so that nothing is left out.
    pub fn is_empty(&self) -> bool
        ensures { IsTrue result ↔ (self.now ≡ set.empty) }
    {
        self.commits().is_empty()
    }

    /// This border with the `shallow` commits of a reply, and then without its `unshallow` ones: an id that both lists
    /// name leaves. The only error is out of memory.
    pub fn merged(
        &self,
        alloc: Global,
        shallow: &[ObjectId],
        unshallow: &[ObjectId],
    ) -> Result<Border, StoreError>
        ensures border { IfOk result (λ border. border ≡ merged self.now shallow.now unshallow.now) }
        ensures memory { IfErr result (λ e. e ≡ errors.NoMemory) }
    {
        let left = Border::from_ids(alloc, unshallow)?;
        let mut ids = Vec::new(alloc);
        keep(&mut ids, self.commits(), &left)?;
        keep(&mut ids, shallow, &left)?;
        Ok(border_of(ids))
    }

    /// A border with the same commits. The only error is out of memory.
    pub fn try_clone(&self) -> Result<Border, NoMemory>
        ensures { IfOk result (λ copy. copy ≡ self.now) }
    {
        Ok(Border {
            ids: self.ids.clone()?,
        })
    }
}

/// The border of these ids, of which some may come more than once.
pub(crate) fn border_from(alloc: Global, ids: &[ObjectId]) -> Result<Border, NoMemory>
    ensures { IfOk result (λ border. border ≡ set_of ids.now) }
{
    Ok(border_of(Vec::from_slice(alloc, ids)?))
}

fn border_of(ids: Vec<ObjectId>) -> Border
    ensures { result ≡ set_of ids.items }
{
    let ids = ascending(ids);
    Border { ids }
}

/// The ids, sorted, and each of them once. Takes no memory.
pub fn ascending(mut ids: Vec<ObjectId>) -> Vec<ObjectId>
    ensures each { result.items ≡ ids_of (set_of ids.items) }
    ensures rises { IsStrictlySortedBy id_cmp result.items }
    ensures set { set_of result.items ≡ set_of ids.items }
{
    ids.sort_unstable();
    ids.dedup();
    ids
}

/// Puts those ids after the others that aren't in the border that is left.
fn keep(into: &mut Vec<ObjectId>, ids: &[ObjectId], left: &Border) -> Result<(), NoMemory>
    ensures { OnOk result (into.new.items ≡ into.old.items ++ filter (λ id. not (set.contains left.now id)) ids.now) }
{
    for id in ids {
        if !left.contains(id) {
            into.push(*id)?;
        }
    }
    Ok(())
}
