//! Why a fetch request, or what was received, had no effect.

use crate::drive::DriveError;
use fetch_pack::PackError;
use fetch_specs::RefSpec;
use fetch_store::{Kind, List, Missing, NoMemory, ObjectId, Text};
use fetch_update::update;
use fetch_wire::WireError;
use thiserror::Error;

/// Why a fetch request, or what was received, had no effect. References and reflogs are as they were found, but for
/// `RemovePackKeepFile`.
#[derive(Debug, Drop, Error)]
pub enum Error {
    /// References are advertised, none of them is mapped, and some refspec names one without a star.
    #[error("no reference is mapped, of {num_remote_refs} that the server has")]
    NoMapping {
        /// The refspecs of the remote, then the extra ones with that of the tags.
        refspecs: List<RefSpec>,
        /// How many references are advertised.
        num_remote_refs: usize,
    },
    /// Repository and server name objects by different hashes.
    #[error("the server's hash is another than the repository's")]
    IncompatibleObjectHash {
        /// The repository's hash.
        local: Kind,
        /// The hash that the greeting names, SHA-1 where it names none.
        remote: Kind,
    },
    /// With the pack, this link would lead to what isn't stored.
    #[error("what was received isn't connected")]
    Disconnected {
        /// The first missing link.
        link: Missing,
    },
    /// `clone.rejectShallow` is no truth value.
    #[error("clone.rejectShallow is no truth value: {value:?}")]
    RejectShallowRemoteConfig {
        /// The value that can't be read, as its entry has it.
        value: Text,
    },
    /// `fetch.negotiationAlgorithm` is none that is known.
    #[error("fetch.negotiationAlgorithm is unknown: {value:?}")]
    NegotiationAlgorithmConfig {
        /// The value that can't be read, as its entry has it.
        value: Text,
    },
    /// `pack.threads` is no number of threads.
    #[error("pack.threads is no number of threads: {value:?}")]
    PackThreads {
        /// The value that can't be read, empty for an entry without a value.
        value: Text,
    },
    /// What was to be sent doesn't fit, or the server breaks the protocol, refuses, or lacks a feature.
    #[error(transparent)]
    Fetch(WireError),
    /// The peer failed.
    #[error("the server failed")]
    Client,
    /// The interrupt said yes.
    #[error("interrupted")]
    Interrupted,
    /// The server's history is cut off at this commit, and the settings refuse that.
    #[error("the server's history is shallow")]
    RejectShallowRemote {
        /// The first commit of the reply's `shallow` lines that is not in the border found.
        id: ObjectId,
    },
    /// The pack isn't one.
    #[error(transparent)]
    Pack(PackError),
    /// An object of the pack has the id of another object, of the pack or of the repository.
    #[error("an id has two objects")]
    Collision {
        /// The first such id, in the order of the pack.
        id: ObjectId,
    },
    /// The file that keeps the pack couldn't be made.
    #[error("the keep file {path:?} couldn't be made")]
    KeepFile {
        /// Where it was to be: `objects/pack/pack-<digest>.keep` in the git directory.
        path: Text,
    },
    /// The mapped references couldn't be judged.
    #[error(transparent)]
    UpdateRefs(update::Error),
    /// The references have moved, and the file that keeps the pack couldn't be removed.
    #[error("the keep file {path:?} couldn't be removed")]
    RemovePackKeepFile {
        /// Where it still is: `objects/pack/pack-<digest>.keep` in the git directory.
        path: Text,
    },
    /// Memory ran out.
    #[error("out of memory")]
    NoMemory,
}

impl Error {
    ghost use Rattle.std.specs.Prelude.{◌≡◌, IfOk};
    ghost use Rattle.fetch_conversation.specs.Errors.{is_client};

    /// Whether it is the peer's fault.
    pub fn is_spurious(&self) -> bool
        ensures { result ≡ is_client self.now }
    {
        matches!(self, Error::Client)
    }

    /// An equal error.
    pub fn try_clone(&self) -> Result<Error, NoMemory>
        ensures { IfOk result (λ copy. copy ≡ self.now) }
    {
        match self {
            Error::NoMapping {
                refspecs,
                num_remote_refs,
            } => Ok(Error::NoMapping {
                refspecs: refspecs.try_clone_with(RefSpec::try_clone)?,
                num_remote_refs: *num_remote_refs,
            }),
            Error::IncompatibleObjectHash { local, remote } => Ok(Error::IncompatibleObjectHash {
                local: *local,
                remote: *remote,
            }),
            Error::Disconnected { link } => Ok(Error::Disconnected { link: *link }),
            Error::Fetch(e) => Ok(Error::Fetch(e.try_clone()?)),
            Error::Client => Ok(Error::Client),
            Error::Interrupted => Ok(Error::Interrupted),
            Error::RejectShallowRemote { id } => Ok(Error::RejectShallowRemote { id: *id }),
            Error::Pack(e) => Ok(Error::Pack(*e)),
            Error::Collision { id } => Ok(Error::Collision { id: *id }),
            Error::UpdateRefs(e) => Ok(Error::UpdateRefs(e.try_clone()?)),
            Error::NoMemory => Ok(Error::NoMemory),
            Error::RejectShallowRemoteConfig { value } => Ok(Error::RejectShallowRemoteConfig {
                value: value.try_clone()?,
            }),
            Error::NegotiationAlgorithmConfig { value } => Ok(Error::NegotiationAlgorithmConfig {
                value: value.try_clone()?,
            }),
            Error::PackThreads { value } => Ok(Error::PackThreads {
                value: value.try_clone()?,
            }),
            Error::KeepFile { path } => Ok(Error::KeepFile {
                path: path.try_clone()?,
            }),
            Error::RemovePackKeepFile { path } => Ok(Error::RemovePackKeepFile {
                path: path.try_clone()?,
            }),
        }
    }
}

/// Out of memory stays out of memory, and a collision is told by itself.
impl From<PackError> for Error {
    ghost use Rattle.std.specs.Prelude.{◌≡◌};
    ghost use Rattle.fetch_conversation.specs.Errors.{fetch_of_pack};

    ghost from_gives = { λ e f. f ≡ fetch_of_pack e };

    fn from(e: PackError) -> Error {
        match e {
            PackError::NoMemory => Error::NoMemory,
            PackError::Collision { id } => Error::Collision { id },
            e => Error::Pack(e),
        }
    }
}

/// Out of memory stays out of memory.
impl From<WireError> for Error {
    ghost use Rattle.std.specs.Prelude.{◌≡◌};
    ghost use Rattle.fetch_conversation.specs.Errors.{fetch_of_wire};

    ghost from_gives = { λ e f. f ≡ fetch_of_wire e };

    fn from(e: WireError) -> Error {
        match e {
            WireError::NoMemory => Error::NoMemory,
            e => Error::Fetch(e),
        }
    }
}

/// Out of memory stays out of memory.
impl From<update::Error> for Error {
    ghost use Rattle.std.specs.Prelude.{◌≡◌};
    ghost use Rattle.fetch_conversation.specs.Errors.{fetch_of_update};

    ghost from_gives = { λ e f. f ≡ fetch_of_update e };

    fn from(e: update::Error) -> Error {
        match e {
            update::Error::NoMemory => Error::NoMemory,
            e => Error::UpdateRefs(e),
        }
    }
}

impl From<NoMemory> for Error {
    ghost use Rattle.std.specs.Prelude.{◌≡◌};
    ghost use Rattle.fetch_conversation.specs.declared.fetch.Error.TheVariants as errors;

    ghost from_gives = { λ _ f. f ≡ errors.NoMemory };

    fn from(_e: NoMemory) -> Error {
        Error::NoMemory
    }
}

impl From<DriveError> for Error {
    ghost use Rattle.std.specs.Prelude.{◌≡◌};
    ghost use Rattle.fetch_conversation.specs.Errors.{fetch_of_stop};

    ghost from_gives = { λ e f. f ≡ fetch_of_stop e };

    fn from(e: DriveError) -> Error {
        match e {
            DriveError::Refused(e) => Error::from(e),
            DriveError::Failed => Error::Client,
            DriveError::Interrupted => Error::Interrupted,
        }
    }
}
