//! Failures of a shared repository, and of a configuration file.

use crate::failure::{Failure, FailureKind};
use fetch_journal::SharedError;
use fetch_remote::{OpenError, delete};

impl Failure for OpenError {
    ghost use Rattle.fetch_host.specs.SharedFailures.{opening_kind};

    ghost kind = { opening_kind };

    fn failure_kind(&self) -> FailureKind {
        match self {
            OpenError::Io | OpenError::Missing { .. } | OpenError::Config { .. } => {
                FailureKind::Local
            }
            OpenError::Override { .. } => FailureKind::Caller,
            OpenError::NoMemory => FailureKind::Memory,
        }
    }
}

impl Failure for delete::Error {
    ghost use Rattle.fetch_host.specs.SharedFailures.{deleting_kind};

    ghost kind = { deleting_kind };

    fn failure_kind(&self) -> FailureKind {
        match self {
            delete::Error::NotLocal { .. } | delete::Error::CheckedOut { .. } => {
                FailureKind::Caller
            }
            delete::Error::WorktreeListing
            | delete::Error::OpenWorktreeRepo
            | delete::Error::FollowSymref
            | delete::Error::Cleanup { .. } => FailureKind::Local,
            delete::Error::ConfigRead { cause } => cause.failure_kind(),
            delete::Error::NoMemory => FailureKind::Memory,
        }
    }
}

impl Failure for SharedError {
    ghost use Rattle.fetch_host.specs.SharedFailures.{shared_kind};

    ghost kind = { shared_kind };

    fn failure_kind(&self) -> FailureKind {
        match self {
            SharedError::NotClosed { .. } => FailureKind::Local,
            SharedError::Disconnected { .. } | SharedError::EditReferences { .. } => {
                FailureKind::Others
            }
            SharedError::Collision { .. } => FailureKind::Server,
            SharedError::Fetch(e) => e.failure_kind(),
            SharedError::Delete(e) => e.failure_kind(),
            SharedError::NoMemory => FailureKind::Memory,
        }
    }
}
