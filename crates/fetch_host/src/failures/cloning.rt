//! Failures of a clone.

use crate::failure::{Failure, FailureKind};
use fetch_init::{clone, create, init};
use fetch_remote::{connect, name, save};

impl Failure for connect::Error {
    ghost use Rattle.fetch_host.specs.CloneFailures.{connecting_kind};

    ghost kind = { connecting_kind };

    fn failure_kind(&self) -> FailureKind {
        match self {
            connect::Error::MissingUrl { .. } => FailureKind::Caller,
            connect::Error::Connect => FailureKind::Peer,
            connect::Error::NoMemory => FailureKind::Memory,
        }
    }
}

impl Failure for name::Error {
    ghost use Rattle.fetch_host.specs.CloneFailures.{naming_kind};

    ghost kind = { naming_kind };

    fn failure_kind(&self) -> FailureKind {
        match self {
            name::Error::Invalid { .. } => FailureKind::Caller,
            name::Error::NoMemory => FailureKind::Memory,
        }
    }
}

impl Failure for save::Error {
    ghost use Rattle.fetch_host.specs.CloneFailures.{saving_kind};

    ghost kind = { saving_kind };

    fn failure_kind(&self) -> FailureKind {
        match self {
            save::Error::NameMissing { .. } | save::Error::Value { .. } => FailureKind::Caller,
            save::Error::NoMemory => FailureKind::Memory,
        }
    }
}

impl Failure for save::AsError {
    ghost use Rattle.fetch_host.specs.CloneFailures.{saving_as_kind};

    ghost kind = { saving_as_kind };

    fn failure_kind(&self) -> FailureKind {
        match self {
            save::AsError::Save(e) => e.failure_kind(),
            save::AsError::Name(e) => e.failure_kind(),
            save::AsError::NoMemory => FailureKind::Memory,
        }
    }
}

impl Failure for create::Error {
    ghost use Rattle.fetch_host.specs.CloneFailures.{creating_kind};

    ghost kind = { creating_kind };

    fn failure_kind(&self) -> FailureKind {
        match self {
            create::Error::IoOpen { .. }
            | create::Error::IoWrite { .. }
            | create::Error::CreateDirectory { .. } => FailureKind::Local,
            create::Error::DirectoryNotEmpty { .. } | create::Error::DirectoryExists { .. } => {
                FailureKind::Caller
            }
            create::Error::NoMemory => FailureKind::Memory,
        }
    }
}

impl Failure for init::Error {
    ghost use Rattle.fetch_host.specs.CloneFailures.{initial_kind};

    ghost kind = { initial_kind };

    fn failure_kind(&self) -> FailureKind {
        match self {
            init::Error::Init(e) => e.failure_kind(),
            init::Error::Open(e) => e.failure_kind(),
            init::Error::InvalidBranchName { .. } => FailureKind::Caller,
            init::Error::NoMemory => FailureKind::Memory,
        }
    }
}

impl Failure for clone::Error {
    ghost use Rattle.fetch_host.specs.CloneFailures.{prepared_kind};

    ghost kind = { prepared_kind };

    fn failure_kind(&self) -> FailureKind {
        match self {
            clone::Error::Url => FailureKind::Caller,
            clone::Error::Init(e) => e.failure_kind(),
            clone::Error::NoMemory => FailureKind::Memory,
        }
    }
}

impl Failure for clone::fetch::Error {
    ghost use Rattle.fetch_host.specs.CloneFailures.{clone_kind};

    ghost kind = { clone_kind };

    // Long: a line for each of the errors that have one inside.
    fn failure_kind(&self) -> FailureKind {
        match self {
            clone::fetch::Error::Consumed
            | clone::fetch::Error::ParseConfig { .. }
            | clone::fetch::Error::RemoteConnection { .. }
            | clone::fetch::Error::RefNameMissing { .. }
            | clone::fetch::Error::RefNameAmbiguous { .. }
            | clone::fetch::Error::RemoteConfiguration { .. }
            | clone::fetch::Error::RevisionMissing { .. }
            | clone::fetch::Error::PeelRevision { .. } => FailureKind::Caller,
            clone::fetch::Error::InvalidHeadRef { .. }
            | clone::fetch::Error::ReferenceName { .. }
            | clone::fetch::Error::FindRevision { .. } => FailureKind::Server,
            clone::fetch::Error::SaveConfigIo => FailureKind::Local,
            clone::fetch::Error::RemoteName(e) => e.failure_kind(),
            clone::fetch::Error::Connect(e) => e.failure_kind(),
            clone::fetch::Error::RefMap(e) => e.failure_kind(),
            clone::fetch::Error::SaveConfig(e) => e.failure_kind(),
            clone::fetch::Error::LoadConfig(e) => e.failure_kind(),
            clone::fetch::Error::PrepareFetch(e) => e.failure_kind(),
            clone::fetch::Error::ReopenWithObjectHash(e) => e.failure_kind(),
            clone::fetch::Error::Fetch(e) => e.failure_kind(),
            clone::fetch::Error::NoMemory => FailureKind::Memory,
        }
    }
}
