//! Fetches side by side into one repository.
#![tactic(auto)]

mod fetching;
mod job;
mod passes;
mod racing;

pub use fetching::fetch_by_pass;
pub use job::{Job, JobRun, Raced};
pub use passes::{closed, gather, give_passes, opened, race_with};
pub use racing::{arrive, race_over};
