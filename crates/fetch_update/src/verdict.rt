//! What one mapping is told.

ghost use Rattle.std.specs.Prelude.{◌≡◌};
ghost use Rattle.fetch_update.specs.Policy as spec;

use crate::mode::{Mode, TypeChange};
use fetch_refs::RefEdit;

/// What one mapping is told, and its edit.
#[derive(Debug, Drop)]
pub(crate) struct Verdict {
    pub(crate) mode: Mode,
    pub(crate) type_change: Option<TypeChange>,
    pub(crate) edit: Option<RefEdit>,
}

impl Verdict {
    /// A mapping that changes nothing.
    pub(crate) fn nothing(mode: Mode) -> Verdict
        ensures { result ≡ spec.nothing mode }
    {
        Verdict {
            mode,
            type_change: None,
            edit: None,
        }
    }
}
