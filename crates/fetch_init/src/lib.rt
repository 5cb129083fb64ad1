//! A new repository: opened, its `HEAD` and references as a remote listed, and the remote's section.
#![tactic(auto)]

pub mod clone;
pub mod create;
mod head_target;
mod head_update;
pub mod init;
pub mod laws;
mod mapped;
mod named_ref;
mod remote_section;
pub mod with_revision;

pub use head_target::{HeadError, HeadTarget, is_same_side, revision_id};
pub use head_update::{find_head_target, write_local};
pub use init::init_opts;
pub use init::opening::config_path;
pub use mapped::{check_name, check_revision};
pub use named_ref::{NamedRef, RefNameError, ref_named};
