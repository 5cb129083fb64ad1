//! Remotes and branches of a repository: how they are found, named, changed and connected.

pub mod changing;
pub mod direction;
pub mod finding;
pub mod upstream;
pub mod naming;
pub mod resolving;
pub mod scripted_connect;
