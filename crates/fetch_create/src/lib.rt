//! Creation of a repository's directories and configuration, and files of the host.
#![tactic(auto)]

mod branches;
mod configuration;
pub mod create;
mod host_files;
pub mod laws;
mod remote_name;
mod replacing;
mod upstream;
mod versioning;

pub use branches::{branch_of, default_branch};
pub use host_files::HostFiles;
pub use remote_name::{default_remote, spec_text};
pub use replacing::replaced;
pub use upstream::following;
pub use versioning::set_version;

/// The short name of the branch that `HEAD` of a new repository leads to, where the configuration names none.
pub const DEFAULT_BRANCH_NAME: &str = "main";
