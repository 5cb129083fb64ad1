//! A repository's files are created.

pub use fetch_create::create::{Capabilities, Error, Kind, Options, Path, into};
