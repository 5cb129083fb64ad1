//! Where the references of a remote go: the mappings, and the refspecs that made them.
#![tactic(auto)]

mod mapping;

pub use mapping::{Mapping, RefMap, SpecIndex};
