//! Updates beside what they come from.

ghost use Rattle.std.specs.Prelude.{◌<◌, length, All};

use crate::update::Update;
use fetch_map::Mapping;
use fetch_refs::RefEdit;
use fetch_specs::RefSpec;

/// Updates in order, each beside its mapping, the refspec that made it, and its edit.
#[derive(Drop)]
pub struct MappingUpdates<'a> {
    pub(crate) updates: &'a [Update],
    pub(crate) edits: &'a [RefEdit],
    pub(crate) mappings: &'a [Mapping],
    pub(crate) refspecs: &'a [RefSpec],
    pub(crate) extra_refspecs: &'a [RefSpec],
    ghost indices: { All (λ u. u.mapping_index < length mappings.now) updates.now },
}
