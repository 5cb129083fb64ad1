//! What becomes of references after a fetch.
#![tactic(auto)]

mod adjusting;
mod commits;
mod dated;
mod judge;
mod judging;
pub mod laws;
mod message;
mod mode;
mod pairing;
mod pairs;
mod scripted;
mod stored;
mod trees;
pub mod update;
mod verdict;
mod verdicts;
mod walk;
mod worktrees;
mod writing;

pub use message::RefLogMessage;
pub use mode::{Mode, TypeChange};
pub use pairs::MappingUpdates;
pub use scripted::ScriptedWorktrees;
pub use trees::{directories_at, index_of};
pub use update::Update;
pub use worktrees::{Worktree, WorktreeFault, Worktrees};
