//! What a fetch asks for, and what it says that it has.
#![tactic(auto)]

mod algorithm;
mod any;
mod commits;
mod common;
mod consecutive;
mod frontier;
pub mod laws;
mod links;
mod negotiator;
mod once;
mod request;
mod returning;
mod skip;
mod skipping;
mod skips;
mod tip;
mod walk;
mod wanted;

pub use algorithm::{Algorithm, Depth, Round, Shallow};
pub use any::AnyNegotiator;
pub use consecutive::Consecutive;
pub use negotiator::Negotiator;
pub use request::request_of;
pub use skipping::Skipping;
pub use tip::tips;
pub use wanted::wants;
