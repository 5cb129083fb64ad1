//! Which repositories can be served.

ghost use Rattle.std.specs.Prelude.{◌≡◌, ◌||◌, map, filter, slice_get, Some, IfOk, IfErr, MatchOption, OnOk};
ghost use Rattle.fetch_refs.specs.TagEnds.{AreEnds};
ghost use Rattle.fetch_refs.specs.Targets.{seen};
ghost use Rattle.fetch_serve.specs.Parts.{held_by};
ghost use Rattle.fetch_serve.specs.Servable as spec;
ghost use Rattle.fetch_serve.specs.Servable.{IsServable, IsTrouble};
ghost use Rattle.fetch_reach.specs.Named.{AreOwnIds};
ghost use Rattle.fetch_store.specs.Closed.{IsClosed, holding};
ghost use Rattle.fetch_store.specs.Graph.{graph_of};
ghost use Rattle.std.specs.FinSet as set;
ghost use Rattle.fetch_store.specs.Missing.{unclosed};

use crate::parts::Parts;
use fetch_asked::ServeError;
use fetch_reach::{first_misnamed, stored_objects_are_objects};
use fetch_refs::{RefError, TagEnds, TargetRef};
use fetch_specs::{FullName, NameError};
use fetch_store::{Border, Missing, NoMemory, Store, first_missing};

/// The longest name that is served, in bytes: its line fits with what it names and two ids.
const MAX_NAME: usize = 30_000;

/// Whether what a reference names can't be listed. A name that is kept is a full one.
fn is_unlistable(target: TargetRef<'_>) -> bool
    ensures { result ≡ spec.is_unlistable (seen target.entry) }
{
    match target {
        TargetRef::Object(_) => false,
        TargetRef::Symbolic(name) => name.as_bytes().len() > MAX_NAME,
    }
}

/// Whether a reference leads to nothing that is stored, into a cycle, or over too many names. An unborn one doesn't.
fn is_refused(
    parts: Parts<'_>,
    known: &mut TagEnds,
    name: &[u8],
    target: TargetRef<'_>,
) -> Result<bool, NoMemory>
    requires { AreEnds (graph_of parts.store.now.objects) known.old }
    ensures refused { IfOk result (λ refused. refused ≡ spec.is_refused (spec.end_of (held_by parts.entry) name.now (seen target.entry))) }
    ensures known { AreEnds (graph_of parts.entry.store.now.objects) known.new }
{
    let id = match parts.refs.resolve(name, target) {
        Ok(id) => id,
        Err(RefError::NoMemory) => return Err(NoMemory),
        Err(RefError::Unborn { .. }) => return Ok(false),
        Err(_) => return Ok(true),
    };
    match known.peel(parts.store, id) {
        Ok(_) | Err(RefError::Unborn { .. }) => Ok(false),
        Err(_) => Ok(true),
    }
}

fn is_unservable(
    parts: Parts<'_>,
    known: &mut TagEnds,
    name: &[u8],
    target: TargetRef<'_>,
) -> Result<bool, NoMemory>
    requires { AreEnds (graph_of parts.store.now.objects) known.old }
    ensures found { IfOk result (λ found. found ≡ spec.is_unservable (held_by parts.entry) (name.now, seen target.entry)) }
    ensures known { AreEnds (graph_of parts.entry.store.now.objects) known.new }
{
    if name.len() > MAX_NAME || is_unlistable(target) {
        return Ok(true);
    }
    is_refused(parts, known, name, target)
}

/// The name, where it is a full one.
fn full_name(parts: Parts<'_>, name: &[u8]) -> Result<Option<FullName>, NoMemory>
    ensures { IfOk result (λ found. found ≡ spec.if_full name.now) }
{
    match FullName::new(parts.alloc, name) {
        Ok(name) => Ok(Some(name)),
        Err(NameError::NoMemory) => Err(NoMemory),
        Err(_) => Ok(None),
    }
}

/// The least name of a reference that can't be served.
fn first_unservable(parts: Parts<'_>) -> Result<Option<FullName>, NoMemory>
    ensures { IfOk result (λ found. found ≡ slice_get (spec.unservable_names (held_by parts.entry)) 0) }
{
    let mut references = parts.refs.iter();
    let mut known = TagEnds::new(parts.alloc);
    while let Some((name, target)) = references.next() {
        if let Some(name) = full_name(parts, name)? {
            if is_unservable(parts, &mut known, name.as_bytes(), target)? {
                return Ok(Some(name));
            }
        }
    }
    Ok(None)
}

/// The first link that keeps a repository from being closed.
fn missing_of(store: &Store, border: &Border) -> Option<Missing>
    ensures { MatchOption result (IsClosed (holding store.now.objects border.now))
        (λ link. slice_get (unclosed (holding store.now.objects border.now)) 0 ≡ Some link) }
{
    match first_missing(store, border) {
        Ok(missing) => missing,
        Err(_) => None,
    }
}

/// Refuses objects that can't be served, for their first cause.
fn check_objects(store: &Store, border: &Border) -> Result<(), ServeError>
    ensures empty { OnOk result (border.now ≡ set.empty) }
    ensures own { OnOk result (AreOwnIds store.now.objects) }
    ensures closed { OnOk result (IsClosed (holding store.now.objects border.now)) }
    ensures refused { IfErr result (spec.IsObjectTrouble store.now.objects border.now) }
{
    if !border.is_empty() {
        return Err(ServeError::ShallowServer);
    }
    match first_misnamed(store) {
        Some(id) => return Err(ServeError::WrongId { id }),
        None => {}
    }
    match missing_of(store, border) {
        Some(link) => Err(ServeError::NotClosed { link }),
        None => Ok(()),
    }
}

/// Refuses what can't be served, for its first cause.
pub(crate) fn check(parts: Parts<'_>, border: &Border) -> Result<(), ServeError>
    ensures whole { OnOk result (border.now ≡ set.empty) }
    ensures servable { OnOk result (IsServable (held_by parts.entry)) }
    ensures refused { IfErr result (IsTrouble (held_by parts.entry) border.now) }
{
    match check_objects(parts.store, border) {
        Ok(()) => {}
        Err(e) => return Err(e),
    }
    let _hash = parts.store.kind();
    stored_objects_are_objects(parts.store);
    match first_unservable(parts)? {
        Some(name) => Err(ServeError::NotServable { name }),
        None => Ok(()),
    }
}
