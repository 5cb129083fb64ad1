//! What is found in a repository.

ghost use Rattle.std.specs.Prelude.{◌≡◌, IfOk};

use fetch_specs::FullName;
use fetch_store::{List, Missing, NoMemory, ObjectId, TryClone};

/// Why a reference leads to no stored object.
#[derive(Clone, Copy, Debug, PartialEq, Eq)]
pub enum BrokenCause {
    /// It leads to a name that was met before.
    Cycle,
    /// Five symbolic references stand on its way, and the fifth names a further one.
    Depth,
    /// It leads to an id that isn't stored.
    MissingObject {
        /// The id.
        id: ObjectId,
    },
    /// It is symbolic, and the tags behind its names lead to a tag that was met before.
    TagCycle {
        /// The tag that is met a second time.
        id: ObjectId,
    },
}

/// A reference that leads to no stored object.
#[derive(Debug, Drop)]
pub struct Broken {
    /// Its name.
    pub name: FullName,
    /// Why it is broken.
    pub cause: BrokenCause,
}

impl TryClone for Broken {
    fn try_clone(&self) -> Result<Broken, NoMemory> {
        Ok(Broken {
            name: self.name.try_clone()?,
            cause: self.cause,
        })
    }
}

/// What is found in a repository. Nothing is where it is whole.
#[derive(Debug, Drop)]
pub struct Findings {
    /// The links to what isn't stored, each pair once, where it first comes: of the stored objects in ascending order,
    /// each one's links in their order, parents of border commits aside; then the border ids that are no stored
    /// commits, ascending, with `from` and `to` equal.
    pub missing: List<Missing>,
    /// The broken references, by ascending name. A reference to a name at which nothing stands isn't broken.
    pub broken: List<Broken>,
    /// The stored ids that aren't reached from the direct references, parents of border commits aside, ascending.
    pub unreached: List<ObjectId>,
}

impl Findings {
    /// Equal findings.
    pub fn try_clone(&self) -> Result<Findings, NoMemory>
        ensures { IfOk result (λ copy. copy ≡ self.now) }
    {
        Ok(Findings {
            missing: self.missing.try_clone_with(|link| Ok(*link))?,
            broken: self.broken.try_clone()?,
            unreached: self.unreached.try_clone()?,
        })
    }
}
