//! What takes a change back.

use crate::log::LogLine;
use crate::slot::Slot;
use fetch_specs::FullName;
use fetch_store::List;

/// A change that was made, by what stood there before.
#[derive(Drop)]
pub(crate) enum Undo {
    /// What the place of a name held.
    Target { name: FullName, old: Slot },
    /// How many lines a reflog had, before it got one more.
    Line { name: FullName, left: usize },
    /// The lines of a reflog.
    Lines { name: FullName, old: List<LogLine> },
}
