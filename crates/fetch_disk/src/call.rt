//! What a disk in memory remembers.

use fetch_base::{ObjectId, Text};

/// A call that changed a disk.
// Not copied: a disk keeps its own.
#[derive(Debug, Drop)]
pub enum Call {
    /// The journal's file was written at a place.
    Write { at: usize, bytes: Text },
    /// It was cut to a length.
    Cut { len: usize },
    /// It was synced, when it had these bytes.
    Sync { bytes: Text },
    /// It was replaced.
    Replace { bytes: Text },
    /// A pack was put.
    Put { name: ObjectId, bytes: Text },
    /// A pack was removed.
    Remove { name: ObjectId },
}
