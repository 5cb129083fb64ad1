//! What is reached by links.

ghost use Rattle.std.specs.Prelude.{◌≡◌, ◌↔◌, ◌<◌, Contains, IfOk};
ghost use Rattle.std.specs.List.Sorted.{IsStrictlySortedBy};
ghost use Rattle.fetch_store.specs.Closed.{Reached, holding};
ghost use Rattle.fetch_base.specs.Id.{id_cmp};
ghost use Rattle.fetch_base.specs.declared.id.ObjectId.{ObjectId as Id};

use fetch_store::{Border, List, NoMemory, ObjectId, Steps, Store, reached};
use std::alloc::Global;
use std::marker::Brand;
use std::sync::ledger::{Blank, Ledger};

/// The stored ids that are reached from the starts by links, parents of border commits aside: each once, in ascending
/// order.
pub fn reached_from(
    alloc: Global,
    store: &Store,
    border: &Border,
    starts: &[ObjectId],
) -> Result<List<ObjectId>, NoMemory>
    ensures ids { IfOk result (λ ids. (id : Id) → Contains ids id ↔ Reached (holding store.now.objects border.now) starts.now id) }
    ensures ascending { IfOk result (λ ids. IsStrictlySortedBy id_cmp ids) }
{
    uncounted::<Brand>(alloc, store, border, starts, Blank::new(1))
}

/// The same, where nobody counts the steps.
fn uncounted<L: Ledger>(
    alloc: Global,
    store: &Store,
    border: &Border,
    starts: &[ObjectId],
    blank: Blank,
) -> Result<List<ObjectId>, NoMemory>
    requires name { blank.name ≡ L.name }
    requires parts { blank.parts ≡ L.parts }
    requires some { 0 < blank.parts }
    ensures ids { IfOk result (λ ids. (id : Id) → Contains ids id ↔ Reached (holding store.now.objects border.now) starts.now id) }
    ensures ascending { IfOk result (λ ids. IsStrictlySortedBy id_cmp ids) }
{
    let mut steps: Steps<L> = Steps::new(blank);
    reached(alloc, store, border, starts, &mut steps)
}
