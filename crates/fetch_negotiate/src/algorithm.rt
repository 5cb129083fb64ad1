//! How a fetch tells what it has, and how deep it fetches.

ghost use Rattle.std.specs.Prelude.{◌≡◌, ◌↔◌, IfOk, IfSome, IsNone};

use fetch_specs::PartialName;
use fetch_store::{List, NoMemory, ObjectId};
use std::alloc::Global;
use std::marker::Model;

/// How commits are chosen for the haves.
#[derive(Clone, Copy, Debug, PartialEq, Eq)]
pub enum Algorithm {
    /// No commit is told.
    Noop,
    /// Each commit, the latest first.
    Consecutive,
    /// Fewer and fewer commits, the further back they stand.
    Skipping,
}

impl Default for Algorithm {
    /// Each commit, where nothing else is asked for.
    fn default() -> Algorithm
        ensures { result ≡ Algorithm.Consecutive }
    {
        Algorithm::Consecutive
    }
}

/// How many commits a history is to be deep: one or more. Contracts see it as its number.
#[derive(Clone, Copy, Debug, PartialEq, Eq)]
pub struct Depth {
    depth: u32,
}

impl Model for Depth {
    ghost use Rattle.std.specs.Prelude.{ℕ, ◌<◌};

    ghost Value = { ℕ };

    ghost view = { λ d. d.depth };

    ghost invariant = { λ d. 0 < d.depth };

    ghost inverse = { λ n. record { depth = n } };
}

impl Depth {
    /// The depth of a number, which is none for 0.
    pub fn new(depth: u32) -> Option<Depth>
        ensures none { IsNone result ↔ (depth ≡ 0) }
        ensures some { IfSome result (λ d. d ≡ depth) }
    {
        if depth == 0 {
            return None;
        }
        Some(Depth { depth })
    }

    /// The number.
    pub fn get(self) -> u32
        ensures { result ≡ self }
    {
        self.depth
    }
}

/// How the depth of a history is to change.
#[derive(Debug, Drop)]
pub enum Shallow {
    /// Not at all.
    NoChange,
    /// That many commits, counted from the tips of the remote.
    DepthAtRemote(Depth),
    /// That many commits more than the border has.
    Deepen(u32),
    /// The commits since a time, in seconds since 1970.
    Since {
        /// The time.
        cutoff: u64,
    },
    /// The commits that these names don't reach, and since a time where one is given.
    Exclude {
        /// The names, as the server reads them.
        remote_refs: List<PartialName>,
        /// The time, in seconds since 1970.
        since_cutoff: Option<u64>,
    },
}

impl Default for Shallow {
    /// The depth stays.
    fn default() -> Shallow
        ensures { result ≡ Shallow.NoChange }
    {
        Shallow::NoChange
    }
}

impl Shallow {
    /// An equal change.
    pub fn try_clone(&self) -> Result<Shallow, NoMemory>
        ensures { IfOk result (λ copy. copy ≡ self.now) }
    {
        match self {
            Shallow::NoChange => Ok(Shallow::NoChange),
            Shallow::DepthAtRemote(depth) => Ok(Shallow::DepthAtRemote(*depth)),
            Shallow::Deepen(depth) => Ok(Shallow::Deepen(*depth)),
            Shallow::Since { cutoff } => Ok(Shallow::Since { cutoff: *cutoff }),
            Shallow::Exclude {
                remote_refs,
                since_cutoff,
            } => {
                let names = copy_names(remote_refs.allocator(), remote_refs.as_slice())?;
                Ok(Shallow::Exclude {
                    remote_refs: List::from(names),
                    since_cutoff: *since_cutoff,
                })
            }
        }
    }
}

fn copy_names(alloc: Global, names: &[PartialName]) -> Result<Vec<PartialName>, NoMemory>
    ensures { IfOk result (λ copies. copies.items ≡ names.now) }
{
    let mut copies = Vec::new(alloc);
    for name in names {
        copies.push(name.try_clone()?)?;
    }
    Ok(copies)
}

/// One request of a fetch: its window of haves, those of its haves that were acknowledged, and whether it ended the rounds.
#[derive(Debug, Drop)]
pub struct Round {
    /// Its window of haves, in the order in which they were told.
    pub haves: List<ObjectId>,
    /// Those of its haves that the server acknowledged.
    pub acknowledged: List<ObjectId>,
    /// Whether it was the last one, with `done`.
    pub done: bool,
}

impl Round {
    /// An equal round.
    pub fn try_clone(&self) -> Result<Round, NoMemory>
        ensures { IfOk result (λ copy. copy ≡ self.now) }
    {
        let haves = Vec::from_slice(self.haves.allocator(), self.haves.as_slice())?;
        let acknowledged = Vec::from_slice(
            self.acknowledged.allocator(),
            self.acknowledged.as_slice(),
        )?;
        Ok(Round {
            haves: List::from(haves),
            acknowledged: List::from(acknowledged),
            done: self.done,
        })
    }
}
