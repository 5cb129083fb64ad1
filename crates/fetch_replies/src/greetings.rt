//! Greetings: what a server says first.

pub mod advertisement;
pub mod opening;
