//! Why a clone isn't fetched into.

use fetch_conversation::{fetch, prepare, ref_map};
use fetch_lookup::{name, save};
use fetch_remote::{OpenError, connect};
use fetch_specs::PartialName;
use fetch_store::{List, NoMemory, ObjectId, Text};
use thiserror::Error as ThisError;

/// Why a clone isn't fetched into.
#[derive(Debug, Drop, ThisError)]
pub enum Error {
    /// It was, before.
    #[error("the clone has succeeded before")]
    Consumed,
    /// The first override that isn't one.
    #[error("an override isn't `section.key=value`, or can't be kept")]
    ParseConfig {
        /// The override, as it was given.
        text: Text,
    },
    /// The remote can't be called so.
    #[error(transparent)]
    RemoteName(name::Error),
    /// There is no peer.
    #[error(transparent)]
    Connect(connect::Error),
    /// The closure for the peer refused.
    #[error("the connection was refused by the caller")]
    RemoteConnection {
        /// What the closure said.
        text: Text,
    },
    /// The references weren't listed.
    #[error(transparent)]
    RefMap(ref_map::Error),
    /// The remote has no such reference.
    #[error("no reference of the remote is called so")]
    RefNameMissing {
        /// The ref name that was asked for.
        wanted: PartialName,
    },
    /// Several references may be meant.
    #[error("several references of the remote may be meant")]
    RefNameAmbiguous {
        /// The ref name that was asked for.
        wanted: PartialName,
        /// The names of those that may be meant.
        candidates: List<Text>,
    },
    /// The remote's `HEAD` leads to a text that is no full name.
    #[error("the remote's HEAD leads to no name")]
    InvalidHeadRef {
        /// The text.
        head_ref_name: Text,
    },
    /// The reference that is meant has no full name.
    #[error("the reference has no full name")]
    ReferenceName {
        /// The name of that reference.
        name: Text,
    },
    /// The closure for the remote refused.
    #[error("the remote was refused by the caller")]
    RemoteConfiguration {
        /// What the closure said.
        text: Text,
    },
    /// The remote can't be saved.
    #[error(transparent)]
    SaveConfig(save::AsError),
    /// The configuration couldn't be read.
    #[error(transparent)]
    LoadConfig(OpenError),
    /// The configuration couldn't be written.
    #[error("the configuration couldn't be written")]
    SaveConfigIo,
    /// The references weren't listed, or there is nothing to fetch by.
    #[error(transparent)]
    PrepareFetch(prepare::Error),
    /// The revision isn't mapped.
    #[error("the remote has no such revision")]
    RevisionMissing {
        /// The revision that was asked for.
        wanted: Text,
    },
    /// The configuration couldn't be read or written for another hash.
    #[error(transparent)]
    ReopenWithObjectHash(OpenError),
    /// What was listed wasn't fetched.
    #[error(transparent)]
    Fetch(fetch::Error),
    /// The revision's object isn't stored.
    #[error("the revision isn't stored")]
    FindRevision {
        /// The id that the revision is mapped to.
        id: ObjectId,
    },
    /// The revision's object leads to no commit.
    #[error("the revision is no commit")]
    PeelRevision {
        /// The id that the revision is mapped to.
        id: ObjectId,
    },
    /// Memory ran out.
    #[error("out of memory")]
    NoMemory,
}

impl Error {
    ghost use Rattle.std.specs.Prelude.{◌≡◌, IfOk};
    ghost use Rattle.fetch_init.specs.Refusals as refusals;

    /// Whether the cause is the way to the server alone: the maker of peers failed, or a peer.
    pub fn is_spurious(&self) -> bool
        ensures { result ≡ refusals.is_spurious self.now }
    {
        match self {
            Error::Connect(e) => e.is_spurious(),
            Error::RefMap(e) => e.is_spurious(),
            Error::PrepareFetch(e) => e.is_spurious(),
            Error::Fetch(e) => e.is_spurious(),
            _ => false,
        }
    }

    /// An equal error.
    // Long: an arm a variant.
    pub fn try_clone(&self) -> Result<Error, NoMemory>
        ensures { IfOk result (λ copy. copy ≡ self.now) }
    {
        match self {
            Error::Consumed => Ok(Error::Consumed),
            Error::ParseConfig { text } => Ok(Error::ParseConfig {
                text: text.try_clone()?,
            }),
            Error::RemoteName(e) => Ok(Error::RemoteName(e.try_clone()?)),
            Error::Connect(e) => Ok(Error::Connect(*e)),
            Error::RemoteConnection { text } => Ok(Error::RemoteConnection {
                text: text.try_clone()?,
            }),
            Error::RefMap(e) => Ok(Error::RefMap(e.try_clone()?)),
            Error::RefNameMissing { wanted } => Ok(Error::RefNameMissing {
                wanted: wanted.try_clone()?,
            }),
            Error::RefNameAmbiguous { wanted, candidates } => Ok(Error::RefNameAmbiguous {
                wanted: wanted.try_clone()?,
                candidates: candidates.try_clone_with(Text::try_clone)?,
            }),
            Error::InvalidHeadRef { head_ref_name } => Ok(Error::InvalidHeadRef {
                head_ref_name: head_ref_name.try_clone()?,
            }),
            Error::ReferenceName { name } => Ok(Error::ReferenceName {
                name: name.try_clone()?,
            }),
            Error::RemoteConfiguration { text } => Ok(Error::RemoteConfiguration {
                text: text.try_clone()?,
            }),
            Error::SaveConfig(e) => Ok(Error::SaveConfig(e.try_clone()?)),
            Error::LoadConfig(e) => Ok(Error::LoadConfig(e.try_clone()?)),
            Error::SaveConfigIo => Ok(Error::SaveConfigIo),
            Error::PrepareFetch(e) => Ok(Error::PrepareFetch(e.try_clone()?)),
            Error::RevisionMissing { wanted } => Ok(Error::RevisionMissing {
                wanted: wanted.try_clone()?,
            }),
            Error::ReopenWithObjectHash(e) => Ok(Error::ReopenWithObjectHash(e.try_clone()?)),
            Error::Fetch(e) => Ok(Error::Fetch(e.try_clone()?)),
            Error::FindRevision { id } => Ok(Error::FindRevision { id: *id }),
            Error::PeelRevision { id } => Ok(Error::PeelRevision { id: *id }),
            Error::NoMemory => Ok(Error::NoMemory),
        }
    }
}

impl From<NoMemory> for Error {
    ghost use Rattle.std.specs.Prelude.{◌≡◌};
    ghost use Rattle.fetch_init.specs.declared.clone.fetch.Error.TheVariants as errors;

    ghost from_gives = { λ _ e. e ≡ errors.NoMemory };

    fn from(_e: NoMemory) -> Error {
        Error::NoMemory
    }
}

/// Out of memory stays what it is.
impl From<connect::Error> for Error {
    ghost use Rattle.std.specs.Prelude.{◌≡◌};
    ghost use Rattle.fetch_init.specs.Refusals.{connecting};

    ghost from_gives = { λ e f. f ≡ connecting e };

    fn from(e: connect::Error) -> Error {
        match e {
            connect::Error::NoMemory => Error::NoMemory,
            e => Error::Connect(e),
        }
    }
}

/// Out of memory stays what it is.
impl From<prepare::Error> for Error {
    ghost use Rattle.std.specs.Prelude.{◌≡◌};
    ghost use Rattle.fetch_init.specs.Refusals.{preparing};

    ghost from_gives = { λ e f. f ≡ preparing e };

    fn from(e: prepare::Error) -> Error {
        match e {
            prepare::Error::NoMemory => Error::NoMemory,
            e => Error::PrepareFetch(e),
        }
    }
}

/// Out of memory stays what it is.
impl From<ref_map::Error> for Error {
    ghost use Rattle.std.specs.Prelude.{◌≡◌};
    ghost use Rattle.fetch_init.specs.Refusals.{listing};

    ghost from_gives = { λ e f. f ≡ listing e };

    fn from(e: ref_map::Error) -> Error {
        match e {
            ref_map::Error::NoMemory => Error::NoMemory,
            e => Error::RefMap(e),
        }
    }
}

/// Out of memory stays what it is.
impl From<fetch::Error> for Error {
    ghost use Rattle.std.specs.Prelude.{◌≡◌};
    ghost use Rattle.fetch_init.specs.Refusals.{receiving};

    ghost from_gives = { λ e f. f ≡ receiving e };

    fn from(e: fetch::Error) -> Error {
        match e {
            fetch::Error::NoMemory => Error::NoMemory,
            e => Error::Fetch(e),
        }
    }
}

/// Out of memory stays what it is.
impl From<name::Error> for Error {
    ghost use Rattle.std.specs.Prelude.{◌≡◌};
    ghost use Rattle.fetch_init.specs.Refusals.{naming};

    ghost from_gives = { λ e f. f ≡ naming e };

    fn from(e: name::Error) -> Error {
        match e {
            name::Error::NoMemory => Error::NoMemory,
            e => Error::RemoteName(e),
        }
    }
}
