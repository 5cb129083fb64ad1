//! What stands between a fetch and the host: a peer over two streams, what makes such peers, what stops a fetch, the work
//! trees of a repository, and what is to be done about an error.
#![tactic(auto)]

mod failure;
mod failures;
mod interrupts;
pub mod laws;
mod stream_connect;
mod stream_peer;
mod worktrees;

pub use failure::{Failure, FailureKind};
pub use interrupts::{FlagInterrupt, NoInterrupt};
pub use stream_connect::{Dial, StreamConnect};
pub use stream_peer::StreamPeer;
pub use worktrees::{MainWorktree, NoWorktrees};
