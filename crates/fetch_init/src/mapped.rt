//! Whether what a clone wants is mapped.

ghost use Rattle.std.specs.Prelude.{◌≡◌, true, is_some, IfErr, OnOk};
ghost use Rattle.fetch_init.specs.HeadTargets.{revision_id};
ghost use Rattle.fetch_init.specs.Mapped as spec;

use crate::clone::fetch::Error;
use crate::head_target::{HeadError, revision_id};
use crate::head_update::refusal_of;
use crate::named_ref::ref_named;
use fetch_specs::{PartialName, RefSpec};
use fetch_wire::RefMap;
use std::alloc::Global;

/// A ref name has to mean one of the mapped references.
pub fn check_name(alloc: Global, name: &PartialName, map: &RefMap) -> Result<(), Error>
    ensures ok { OnOk result (spec.IsMeant name.now map.now) }
    ensures refused { IfErr result (spec.IsRefusedName name.now map.now) }
{
    match ref_named(alloc, map.mappings.as_slice(), name) {
        Ok(_) => Ok(()),
        Err(e) => Err(refusal_of(alloc, Some(name), None, HeadError::Name(e))),
    }
}

/// A revision has to be mapped.
pub fn check_revision(alloc: Global, revision: &RefSpec, map: &RefMap) -> Result<(), Error>
    ensures ok { OnOk result (is_some (revision_id map.now revision.now) ≡ true) }
    ensures refused { IfErr result (spec.IsUnmappedRevision revision.now map.now) }
{
    match revision_id(map, revision) {
        Some(_) => Ok(()),
        None => Err(refusal_of(alloc, None, Some(revision), HeadError::Revision)),
    }
}
