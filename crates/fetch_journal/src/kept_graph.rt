//! The graph of what is stored, kept from call to call.

ghost use Rattle.std.specs.Prelude.{◌≡◌, IfOk, None};
ghost use Rattle.fetch_store.specs.Graph as spec;
ghost use Rattle.fetch_store.specs.Stores.{AreOf, add_all, collision};
ghost use Rattle.fetch_journal.specs.Shared.{IsGraphOf};

use fetch_store::{Graph, NoMemory, Object, ObjectId, Store};
use std::alloc::Global;

/// The graph of a store, read anew.
pub(crate) fn graph_of(alloc: Global, store: &Store) -> Result<Graph, NoMemory>
    ensures { IfOk result (λ graph. graph ≡ spec.graph_of store.now.objects) }
{
    match Graph::of(alloc, store) {
        Ok(graph) => Ok(graph),
        Err(_) => Err(NoMemory),
    }
}

/// The graph of a store: the one that is kept, or else read anew.
fn kept_or_read(alloc: Global, kept: Option<Graph>, store: &Store) -> Result<Graph, NoMemory>
    requires { IsGraphOf store.now.objects kept }
    ensures { IfOk result (λ graph. graph ≡ spec.graph_of store.now.objects) }
{
    match kept {
        Some(graph) => Ok(graph),
        None => graph_of(alloc, store),
    }
}

/// A copy of the graph of a store, which is kept from now on.
pub(crate) fn graph_copy(
    alloc: Global,
    kept: &mut Option<Graph>,
    store: &Store,
) -> Result<Graph, NoMemory>
    requires { IsGraphOf store.now.objects kept.old }
    ensures copy { IfOk result (λ graph. graph ≡ spec.graph_of store.now.objects) }
    ensures kept { IsGraphOf store.now.objects kept.new }
{
    let graph = kept_or_read(alloc, kept.take(), store)?;
    let copy = graph.try_clone(alloc);
    *kept = Some(graph);
    copy
}

/// The graph that a store has once these objects are added.
pub(crate) fn extended(
    alloc: Global,
    kept: Option<Graph>,
    store: &Store,
    objects: &[(ObjectId, Object)],
) -> Result<Graph, NoMemory>
    requires kept { IsGraphOf store.now.objects kept }
    requires of_hash { AreOf store.now.hash objects.now }
    requires no_collision { collision store.now.objects objects.now ≡ None }
    ensures { IfOk result (λ graph. graph ≡ spec.graph_of (add_all store.now.objects objects.now)) }
{
    // For the prover: what a store has is of its hash.
    let _stored = store.iter();
    let mut graph = kept_or_read(alloc, kept, store)?;
    match graph.extend(objects) {
        Ok(()) => Ok(graph),
        Err(_) => Err(NoMemory),
    }
}
