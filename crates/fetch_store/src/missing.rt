//! Links to what is not stored.

ghost use Rattle.std.specs.Prelude.{◌≡◌, ◌↔◌, None, IfOk, IsOk, slice_get, option_map, if◌then◌else◌};
ghost use Rattle.std.specs.FinMap as map;
ghost use Rattle.fetch_store.specs.Closed as closed;
ghost use Rattle.fetch_store.specs.Closed.{IsClosed, holding};
ghost use Rattle.fetch_store.specs.Missing as spec;
ghost use Rattle.fetch_objects.specs.References.{seen, ids_left};
ghost use Rattle.fetch_store.specs.Stores.{ObjectMap};

use crate::border::Border;
use crate::store::Store;
use fetch_base::{ObjectId, StoreError};
use fetch_objects::{Links, ObjectRef};

/// A link, and what it leads to.
#[derive(Clone, Copy, Debug, PartialEq, Eq)]
pub struct Missing {
    /// The object that links, or the id itself where nothing links to it.
    pub from: ObjectId,
    /// The id that isn't there.
    pub to: ObjectId,
}

/// Objects by id, in which links are looked up.
pub(crate) trait Held {
    /// The objects.
    ghost objects: { Self → ObjectMap };

    fn object(&self, id: &ObjectId) -> Option<ObjectRef<'_>>
        ensures { option_map seen result ≡ map.get (objects self.now) id.now };

    /// Whether an object is there.
    fn holds(&self, id: &ObjectId) -> bool
        ensures { result ≡ map.contains_key (objects self.now) id.now };
}

impl Held for Store {
    ghost objects = { λ s. s.objects };

    fn object(&self, id: &ObjectId) -> Option<ObjectRef<'_>> {
        self.get(id)
    }

    fn holds(&self, id: &ObjectId) -> bool {
        self.contains(id)
    }
}

/// The first link that keeps the repository from being closed: of the stored objects in ascending order, each one's
/// links in order, parents of border commits aside, the first to what isn't stored; then of the border ids in
/// ascending order the first that is no stored commit, told with `from` and `to` equal. Takes no memory.
pub fn first_missing(store: &Store, border: &Border) -> Result<Option<Missing>, StoreError>
    ensures first { IfOk result (λ missing. missing ≡ slice_get (spec.unclosed (holding store.now.objects border.now)) 0) }
    ensures closed { IfOk result (λ missing. IsClosed (holding store.now.objects border.now) ↔ (missing ≡ None)) }
    ensures answers { IsOk result }
{
    if let Some(missing) = first_unlinked(store, border) {
        return Ok(Some(missing));
    }
    Ok(first_unknown(store, border.commits()))
}

fn first_unlinked(store: &Store, border: &Border) -> Option<Missing>
    ensures { result ≡ slice_get (spec.unlinked_in store.now.objects border.now (map.entries store.now.objects)) 0 }
{
    let mut objects = store.iter();
    while let Some((id, object)) = objects.next() {
        let links = links_within(object, border.contains(&id));
        if let Some(missing) = first_unstored(store, &id, links) {
            return Some(missing);
        }
    }
    None
}

/// The first of the ids that isn't held.
pub(crate) fn first_unheld<H: Held>(held: &H, ids: &[ObjectId]) -> Option<Missing>
    ensures { result ≡ slice_get (spec.unheld_in (H.objects held.now) ids.now) 0 }
{
    for id in ids {
        if !held.holds(id) {
            return Some(Missing { from: *id, to: *id });
        }
    }
    None
}

/// The first of the ids that is no commit that is held.
pub(crate) fn first_unknown<H: Held>(held: &H, ids: &[ObjectId]) -> Option<Missing>
    ensures { result ≡ slice_get (spec.unknown_in (H.objects held.now) ids.now) 0 }
{
    for id in ids {
        if !is_commit(held.object(id)) {
            return Some(Missing { from: *id, to: *id });
        }
    }
    None
}

/// The first of the links to what isn't held.
pub(crate) fn first_unstored<H: Held>(
    held: &H,
    from: &ObjectId,
    links: Links<'_>,
) -> Option<Missing>
    ensures { result ≡ slice_get (spec.unstored (H.objects held.now) from.now (ids_left links.entry)) 0 }
{
    let mut links = links;
    while let Some(to) = links.next() {
        if !held.holds(&to) {
            return Some(Missing { from: *from, to });
        }
    }
    None
}

/// Its links, without parents where it stands in the border.
pub(crate) fn links_within<'a>(object: ObjectRef<'a>, in_border: bool) -> Links<'a>
    ensures { ids_left result ≡ (if in_border then closed.others (seen object.entry) else closed.links (seen object.entry)) }
{
    if in_border {
        object.others()
    } else {
        object.links()
    }
}

fn is_commit(object: Option<ObjectRef<'_>>) -> bool
    ensures { result ≡ closed.is_commit (option_map seen object.entry) }
{
    match object {
        Some(object) => object.kind().is_commit(),
        None => false,
    }
}
