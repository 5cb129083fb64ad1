//! What the programs of rows that have peers share: a peer that counts its faults and may be held, and the repository that the
//! scene of a server says.
#![tactic(auto)]

mod counted;
mod repositories;

pub use counted::{CountedPeer, Free, Hold};
pub use repositories::repository_of;
