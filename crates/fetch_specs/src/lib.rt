//! Names of references, and refspecs: which of a remote's references go where.
#![tactic(auto)]

mod category;
mod conflict;
mod error;
mod found;
mod grammar;
pub mod laws;
mod leading;
mod listing;
mod lookup;
mod matching;
mod name;
mod operation;
mod pattern;
mod reading;
mod spec;
mod tags;

pub use category::Category;
pub use conflict::{Conflict, validate};
pub use error::{NameError, SpecError};
pub use found::{Match, SourceRef};
pub use listing::prefixes;
pub use matching::{Item, MatchGroup, matches};
pub use name::{FullName, PartialName};
pub use operation::{Mode, Operation};
pub use spec::{RefSpec, parse};
pub use tags::Tags;
