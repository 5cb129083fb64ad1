//! How a mirror is made, and what it is.

ghost use Rattle.std.specs.Prelude.{◌≡◌, IfOk};

use fetch_refs::Signature;
use fetch_remote::Repository;
use fetch_shared::Entry;
use fetch_store::{List, NoMemory};
use fetch_wire::ReplyBound;

/// How a mirror is made.
#[derive(Debug, Drop)]
pub struct MirrorOptions {
    /// How many fetch at once: 1 to 8.
    pub workers: u32,
    /// Who commits the references. A mirror writes no reflogs.
    pub committer: Signature,
    /// The most bytes of one reply.
    pub max_reply_bytes: ReplyBound,
}

impl MirrorOptions {
    /// A copy of the options.
    pub fn try_clone(&self) -> Result<MirrorOptions, NoMemory>
        ensures { IfOk result (λ copy. copy ≡ self.now) }
    {
        Ok(MirrorOptions {
            workers: self.workers,
            committer: self.committer.try_clone()?,
            max_reply_bytes: self.max_reply_bytes,
        })
    }
}

/// A mirror, and how it came to be.
// Not copied: the repository in it can be copied.
#[derive(Drop)]
pub struct Mirrored {
    /// The mirror.
    pub repo: Repository,
    /// What the workers entered, in its order. Worker `i` has the number `i`.
    pub journal: List<Entry>,
}
