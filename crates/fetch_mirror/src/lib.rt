//! A mirror of a server's references, fetched by several workers at once.
#![tactic(auto)]

mod copying;
mod error;
pub mod laws;
mod listing;
mod mirroring;
mod opening;
mod options;
mod pairs;
mod sharing;
mod working;

pub use copying::run_mirror;
pub use error::MirrorError;
pub use mirroring::mirror_from;
pub use options::{MirrorOptions, Mirrored};
pub use sharing::share;
