//! A line of commits, and a server that gives the second half of it.
#![tactic(auto)]

mod commits;
mod generated;
mod served;

pub use generated::{Generated, generate};
