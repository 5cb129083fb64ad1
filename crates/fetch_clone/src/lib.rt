//! Clones: what they are asked for, prepared, and fetched into.
#![tactic(auto)]

mod choices;
mod clone_state;
mod fetching;
mod prepare_fetch;

pub use choices::{Choices, CloneTarget};
pub use fetch_create::{DEFAULT_BRANCH_NAME, HostFiles};
pub use fetch_init::{clone, create, init, init_opts, laws, with_revision};
pub use prepare_fetch::{ConfigureFault, PrepareFetch};
