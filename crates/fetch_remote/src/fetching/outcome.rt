//! What a fetch tells.

ghost use Rattle.std.specs.Prelude.{◌≡◌, IfOk};

use fetch_conversation::Negotiate;
use fetch_store::{NoMemory, ObjectId, Text, TryClone};
use fetch_update::update;
use fetch_wire::{Handshake, RefMap};

/// A pack that was taken.
#[derive(Debug, Drop)]
pub struct PackOutcome {
    /// How many objects it has, each as often as it comes.
    pub num_objects: u32,
    /// The digest at the pack's end, of the repository's hash.
    pub digest: ObjectId,
    /// The keep file that stays: where a pack with objects was read and no edit stands. It is empty, and no pack stands
    /// beside it, since objects are kept in memory; who writes them to a disk removes it then.
    pub keep_path: Option<Text>,
}

impl PackOutcome {
    /// An equal outcome.
    pub fn try_clone(&self) -> Result<PackOutcome, NoMemory>
        ensures { IfOk result (λ copy. copy ≡ self.now) }
    {
        Ok(PackOutcome {
            num_objects: self.num_objects,
            digest: self.digest,
            keep_path: self.keep_path.try_clone()?,
        })
    }
}

fn copy_negotiate(negotiate: &Option<Negotiate>) -> Result<Option<Negotiate>, NoMemory>
    ensures { IfOk result (λ copy. copy ≡ negotiate.now) }
{
    match negotiate {
        Some(negotiate) => Ok(Some(negotiate.try_clone()?)),
        None => Ok(None),
    }
}

/// Whether a pack came, and what became of each mapping.
#[derive(Debug, Drop)]
pub enum Status {
    /// None was asked for.
    NoPackReceived {
        /// Whether the fetch was a dry run.
        dry_run: bool,
        /// Absent where no request was sent.
        negotiate: Option<Negotiate>,
        /// An update for each mapping, in order, and the edits.
        update_refs: update::Outcome,
    },
    /// A pack was asked for, and taken.
    Change {
        /// The rounds that were held, one for each request.
        negotiate: Negotiate,
        /// The pack.
        write_pack_bundle: PackOutcome,
        /// An update for each mapping, in order, and the edits.
        update_refs: update::Outcome,
    },
}

impl Status {
    /// An equal status.
    pub fn try_clone(&self) -> Result<Status, NoMemory>
        ensures { IfOk result (λ copy. copy ≡ self.now) }
    {
        match self {
            Status::NoPackReceived {
                dry_run,
                negotiate,
                update_refs,
            } => Ok(Status::NoPackReceived {
                dry_run: *dry_run,
                negotiate: copy_negotiate(negotiate)?,
                update_refs: update_refs.try_clone()?,
            }),
            Status::Change {
                negotiate,
                write_pack_bundle,
                update_refs,
            } => Ok(Status::Change {
                negotiate: negotiate.try_clone()?,
                write_pack_bundle: write_pack_bundle.try_clone()?,
                update_refs: update_refs.try_clone()?,
            }),
        }
    }
}

/// What a fetch found, and what it did.
#[derive(Debug, Drop)]
pub struct Outcome {
    /// The references listed, and what they are mapped to.
    pub ref_map: RefMap,
    /// What the greeting said.
    pub handshake: Handshake,
    /// What was received, and what became of the references.
    pub status: Status,
}

impl Outcome {
    /// An equal outcome.
    pub fn try_clone(&self) -> Result<Outcome, NoMemory>
        ensures { IfOk result (λ copy. copy ≡ self.now) }
    {
        Ok(Outcome {
            ref_map: self.ref_map.try_clone()?,
            handshake: self.handshake.try_clone()?,
            status: self.status.try_clone()?,
        })
    }
}
