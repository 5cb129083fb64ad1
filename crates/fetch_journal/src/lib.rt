//! The state of a repository that several use, and the journal that tells what became of it.
#![tactic(auto)]

mod editing;
mod entry;
mod error;
mod kept_graph;
pub mod laws;
mod plan;
mod replaying;
mod state;
mod taking;

pub use entry::Entry;
pub use error::SharedError;
pub use plan::{Plan, Taken};
pub use replaying::{ReplayFault, Replayed, replay};
pub use state::SharedState;
