//! Entries of a journal.

ghost use Rattle.std.specs.Prelude.{◌≡◌, IfOk};

use fetch_refs::{RefEdit, Signature};
use fetch_specs::FullName;
use fetch_store::{List, NoMemory, ObjectId, TryClone};

/// What an event did to a repository that is shared. A journal lists them in the order in which they came, from place 0
/// on. It holds no payloads: the ids pin what was taken.
#[derive(Debug, Drop)]
pub enum Entry {
    /// A pack was taken.
    Take {
        /// The number of the pass that took it.
        pass: u64,
        /// The ids of the pack, in its order, also those that were stored already.
        ids: List<ObjectId>,
        /// The commits that entered the border.
        shallow: List<ObjectId>,
        /// The commits that left the border.
        unshallow: List<ObjectId>,
    },
    /// References were changed, and what the edits expected stood there.
    Commit {
        /// The number of the pass that changed them.
        pass: u64,
        /// The edits, in their order. There may be none.
        edits: List<RefEdit>,
        /// Who stands in the lines of the reflogs.
        committer: Signature,
    },
    /// References and their reflogs were deleted.
    Delete {
        /// The number of the pass that deleted them.
        pass: u64,
        /// Their names, as they were handed in.
        names: List<FullName>,
    },
}

impl Entry {
    /// A copy of the entry.
    pub fn try_clone(&self) -> Result<Entry, NoMemory>
        ensures { IfOk result (λ copy. copy ≡ self.now) }
    {
        match self {
            Entry::Take {
                pass,
                ids,
                shallow,
                unshallow,
            } => Ok(Entry::Take {
                pass: *pass,
                ids: ids.try_clone()?,
                shallow: shallow.try_clone()?,
                unshallow: unshallow.try_clone()?,
            }),
            Entry::Commit {
                pass,
                edits,
                committer,
            } => Ok(Entry::Commit {
                pass: *pass,
                edits: edits.try_clone_with(RefEdit::try_clone)?,
                committer: committer.try_clone()?,
            }),
            Entry::Delete { pass, names } => Ok(Entry::Delete {
                pass: *pass,
                names: names.try_clone_with(FullName::try_clone)?,
            }),
        }
    }
}
