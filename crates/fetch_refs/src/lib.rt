//! References: the map of names, transactions over it, and reflogs.
#![tactic(auto)]

mod apply;
mod contents;
mod copies;
mod edit;
mod error;
mod hashing;
mod iter;
mod journal;
pub mod laws;
mod log;
mod packing;
mod peel;
mod pending;
mod prepare;
mod prepared;
mod reading;
mod refs;
mod slot;
mod tag_ends;
mod target;
mod undo;

pub use edit::{Change, LogChange, PackedRefs, PreviousValue, RefEdit, RefLog};
pub use error::{PackedError, RefError};
pub use iter::RefIter;
pub use log::{LogLine, Signature};
pub use peel::peel_tags;
pub use pending::{Pending, Restore};
pub use prepared::Prepared;
pub use refs::Refs;
pub use tag_ends::TagEnds;
pub use target::{Target, TargetRef};
