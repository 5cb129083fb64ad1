//! What `HEAD` is to take of what a remote listed.

ghost use Rattle.std.specs.Prelude.{◌≡◌, ◌++◌, ◌∷◌, [], codes, find, Err, IfOk, OnOk};
ghost use Rattle.std.specs.Option.{option_copied};
ghost use Rattle.fetch_refs.specs.Peeled.{through};
ghost use Rattle.std.specs.FinMap as finmap;
ghost use Rattle.fetch_init.specs.HeadTargets as spec;
ghost use Rattle.fetch_init.specs.NamedRefs.{ref_named_in};

use crate::named_ref::{RefNameError, ref_named};
use fetch_refs::peel_tags;
use fetch_specs::{FullName, NameError, PartialName, RefSpec};
use fetch_store::{NoMemory, ObjectId, Objects, Text};
use fetch_wire::{Mapping, Ref, RefMap};
use std::alloc::Global;

/// What `HEAD` is to take.
// Not copied: it is found once, and taken.
#[derive(Debug, Drop)]
pub enum HeadTarget {
    /// Nothing: all is left as it is.
    Nothing,
    /// An id.
    Id(ObjectId),
    /// It leads to a name, which gets the id where there is one.
    Name {
        /// The full name that `HEAD` leads to.
        name: FullName,
        /// The id that the name gets. None where the remote has none.
        id: Option<ObjectId>,
    },
}

/// Why `HEAD` has nothing to take.
// Not copied: a clone tells it by its own error, which can be copied.
#[derive(Debug, Drop)]
pub enum HeadError {
    /// The ref name means no reference.
    Name(RefNameError),
    /// The name that it is to lead to is none.
    InvalidHead {
        /// That name.
        name: Text,
    },
    /// The revision isn't mapped.
    Revision,
    /// The revision's object isn't stored.
    Find {
        /// The id that the revision is mapped to.
        id: ObjectId,
    },
    /// The revision's object doesn't lead to a commit.
    Peel {
        /// The id that the revision is mapped to.
        id: ObjectId,
    },
    /// Memory ran out.
    NoMemory,
}

impl From<NoMemory> for HeadError {
    ghost use Rattle.std.specs.Prelude.{◌≡◌};
    ghost use Rattle.fetch_init.specs.declared.head_target.HeadError.TheVariants as errors;

    ghost from_gives = { λ _ e. e ≡ errors.NoMemory };

    fn from(_e: NoMemory) -> HeadError {
        HeadError::NoMemory
    }
}

/// What `HEAD` is to take: with a revision its commit; else with a ref name that name and its id; else what the remote's
/// `HEAD` says.
pub(crate) fn head_target_of<O: Objects>(
    alloc: Global,
    map: &RefMap,
    objects: &O,
    ref_name: Option<&PartialName>,
    revision: Option<&RefSpec>,
) -> Result<HeadTarget, HeadError>
    ensures { spec.IsFound (spec.head_target_in map.now (O.graph objects.now) (option_copied ref_name.entry)
        (option_copied revision.entry)) result }
{
    if let Some(revision) = revision {
        return of_id(objects, revision_id(map, revision));
    }
    match ref_name {
        Some(name) => of_name(alloc, map, name),
        None => of_advertised(alloc, advertised_head(map)),
    }
}

fn advertised_head(map: &RefMap) -> Option<&Ref>
    ensures { option_copied result ≡ spec.advertised_head map.now }
{
    map.remote_refs.as_slice().iter().find(|r| is_head(r))
}

#[tactic(auto)]
fn is_head(reference: &Ref) -> bool
    ensures { result ≡ spec.is_head reference.now }
{
    reference.unpack().0 == b"HEAD".as_slice()
}

fn of_advertised(alloc: Global, head: Option<&Ref>) -> Result<HeadTarget, HeadError>
    ensures { spec.IsFound (spec.of_advertised (option_copied head.entry)) result }
{
    match head {
        None => Ok(HeadTarget::Nothing),
        Some(Ref::Direct { object, .. }) => Ok(HeadTarget::Id(*object)),
        Some(Ref::Symbolic { target, object, .. }) => {
            at_name(alloc, target.as_bytes(), Some(*object))
        }
        Some(Ref::Peeled { .. }) => Ok(HeadTarget::Nothing),
        Some(Ref::Unborn { target, .. }) => at_name(alloc, target.as_bytes(), None),
    }
}

fn of_name(alloc: Global, map: &RefMap, name: &PartialName) -> Result<HeadTarget, HeadError>
    ensures { spec.IsFound (spec.of_named_ref (ref_named_in map.now.mappings name.now)) result }
{
    match ref_named(alloc, map.mappings.as_slice(), name) {
        Ok(found) => at_name(alloc, found.name.as_bytes(), Some(found.id)),
        Err(e) => Err(HeadError::Name(e)),
    }
}

/// A name that `HEAD` can have.
fn at_name(alloc: Global, name: &[u8], id: Option<ObjectId>) -> Result<HeadTarget, HeadError>
    ensures { spec.IsFound (spec.at_name name.now id) result }
{
    match FullName::new(alloc, name) {
        Ok(name) => Ok(HeadTarget::Name { name, id }),
        Err(NameError::Invalid { .. }) => Err(HeadError::InvalidHead {
            name: Text::new(alloc, name)?,
        }),
        Err(NameError::NoMemory) => Err(HeadError::NoMemory),
    }
}

/// The id that a revision is mapped to.
pub fn revision_id(map: &RefMap, revision: &RefSpec) -> Option<ObjectId>
    ensures { result ≡ spec.revision_id map.now revision.now }
{
    match made_by(revision.source(), map) {
        Some(mapping) => mapping.remote.as_id().copied(),
        None => None,
    }
}

/// The first mapping with an id that was made by a refspec of this source.
fn made_by<'a>(source: Option<&[u8]>, map: &'a RefMap) -> Option<&'a Mapping>
    ensures { option_copied result ≡ find (spec.is_made_by (option_copied source.entry) map.now) map.now.mappings }
{
    map.mappings
        .as_slice()
        .iter()
        .find(|m| is_made_by(source, map, m))
}

fn is_made_by(source: Option<&[u8]>, map: &RefMap, mapping: &Mapping) -> bool
    ensures { result ≡ spec.is_made_by (option_copied source.entry) map.now mapping.now }
{
    let made = mapping
        .spec_index
        .get(map.refspecs.as_slice(), map.extra_refspecs.as_slice());
    has_source(source, made) && mapping.remote.as_id().is_some()
}

fn has_source(source: Option<&[u8]>, made: Option<&RefSpec>) -> bool
    ensures { result ≡ spec.has_source (option_copied source.entry) (option_copied made.entry) }
{
    match made {
        Some(made) => is_same_side(made.source(), source),
        None => false,
    }
}

/// Whether two sides of refspecs are the same.
pub fn is_same_side(a: Option<&[u8]>, b: Option<&[u8]>) -> bool
    ensures { result ≡ spec.is_same_side (option_copied a.entry) (option_copied b.entry) }
{
    match (a, b) {
        (None, None) => true,
        (Some(a), Some(b)) => a == b,
        _ => false,
    }
}

/// The commit that a stored id leads to.
fn of_id<O: Objects>(objects: &O, id: Option<ObjectId>) -> Result<HeadTarget, HeadError>
    ensures { result ≡ spec.of_id (O.graph objects.now) id }
{
    let Some(id) = id else {
        return Err(HeadError::Revision);
    };
    if objects.kind_of(&id).is_none() {
        return Err(HeadError::Find { id });
    }
    match peel_tags(objects, id) {
        Ok(end) if objects.is_commit(&end) => Ok(HeadTarget::Id(end)),
        _ => Err(HeadError::Peel { id }),
    }
}
