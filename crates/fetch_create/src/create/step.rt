//! The steps of a creation.

use fetch_store::Text;

/// A step of a creation: one thing that is tested or made at a path.
// Not copied: it is made and taken once.
#[derive(Debug, Drop)]
pub enum Step {
    /// The directory is there without an entry, or is made.
    Clear { path: Text },
    /// No directory is there.
    Vacant { path: Text },
    /// The directory is made, where it is absent.
    Directory { path: Text },
    /// The file is written whole.
    File { path: Text, bytes: Text },
}
