//! The references of a remote.

pub mod reference;
