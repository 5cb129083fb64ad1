//! What a configuration says of remotes and branches.
#![tactic(auto)]

pub mod branch;
mod branches;
mod cleaning;
mod direction;
mod extending;
pub mod find;
mod following;
pub mod laws;
mod leading;
mod lines;
pub mod name;
mod names;
pub mod push;
mod pushing;
mod refspecs;
mod remote;
mod removing;
pub mod save;
mod saving;
pub mod upstream;
mod utf8;

pub use branches::destination_name;
pub use direction::Direction;
pub use extending::{replace_refspecs, with_refspecs};
pub use following::upstream_branch_and_remote_for_tracking_branch;
pub use name::Name;
pub use names::{Names, branch_names, branch_remote_name, remote_default_name, remote_names};
pub use pushing::branch_remote_ref_name;
pub use remote::{RemoteParts, find_remote};
pub use removing::{has_branch_sections, without_branch_sections};
pub use saving::{save_as_to, save_to};
