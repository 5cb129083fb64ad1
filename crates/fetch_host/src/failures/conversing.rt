//! Failures of what passes between a fetch and its peer, and of what is done with it.

use crate::failure::{Failure, FailureKind};
use fetch_pack::PackError;
use fetch_remote::{fetch, prepare, ref_map};
use fetch_update::update;
use fetch_wire::WireError;

impl Failure for WireError {
    ghost use Rattle.fetch_host.specs.FetchFailures.{wire_kind};

    ghost kind = { wire_kind };

    fn failure_kind(&self) -> FailureKind {
        match self {
            WireError::Malformed { .. }
            | WireError::ServerError { .. }
            | WireError::MissingFeature { .. } => FailureKind::Server,
            WireError::ReplyTooLong { .. } | WireError::LineTooLong { .. } => FailureKind::Size,
            WireError::BadParameter { .. } => FailureKind::Caller,
            WireError::NoMemory => FailureKind::Memory,
        }
    }
}

impl Failure for PackError {
    ghost use Rattle.fetch_host.specs.FetchFailures.{pack_kind};

    ghost kind = { pack_kind };

    fn failure_kind(&self) -> FailureKind {
        match self {
            PackError::Malformed { .. }
            | PackError::PackDigest { .. }
            | PackError::IdMismatch { .. }
            | PackError::Collision { .. } => FailureKind::Server,
            PackError::NoMemory => FailureKind::Memory,
        }
    }
}

impl Failure for update::Error {
    ghost use Rattle.fetch_host.specs.FetchFailures.{update_kind};

    ghost kind = { update_kind };

    fn failure_kind(&self) -> FailureKind {
        match self {
            update::Error::FindReference { .. } => FailureKind::Caller,
            update::Error::InvalidRefName { .. } => FailureKind::Server,
            update::Error::FindCommit { .. }
            | update::Error::PeelToId { .. }
            | update::Error::WorktreeListing
            | update::Error::OpenWorktreeRepo
            | update::Error::FollowSymref => FailureKind::Local,
            update::Error::NoMemory => FailureKind::Memory,
        }
    }
}

impl Failure for ref_map::Error {
    ghost use Rattle.fetch_host.specs.FetchFailures.{listing_kind};

    ghost kind = { listing_kind };

    fn failure_kind(&self) -> FailureKind {
        match self {
            ref_map::Error::Handshake(e) => e.failure_kind(),
            ref_map::Error::Transport => FailureKind::Peer,
            ref_map::Error::Interrupted => FailureKind::Stop,
            ref_map::Error::InitRefMap(_) => FailureKind::Caller,
            ref_map::Error::NoMemory => FailureKind::Memory,
        }
    }
}

impl Failure for prepare::Error {
    ghost use Rattle.fetch_host.specs.FetchFailures.{preparing_kind};

    ghost kind = { preparing_kind };

    fn failure_kind(&self) -> FailureKind {
        match self {
            prepare::Error::MissingRefSpecs => FailureKind::Caller,
            prepare::Error::RefMap(e) => e.failure_kind(),
            prepare::Error::NoMemory => FailureKind::Memory,
        }
    }
}

impl Failure for fetch::Error {
    ghost use Rattle.fetch_host.specs.FetchFailures.{receiving_kind};

    ghost kind = { receiving_kind };

    fn failure_kind(&self) -> FailureKind {
        match self {
            fetch::Error::NoMapping { .. }
            | fetch::Error::RejectShallowRemoteConfig { .. }
            | fetch::Error::NegotiationAlgorithmConfig { .. }
            | fetch::Error::PackThreads { .. } => FailureKind::Caller,
            fetch::Error::IncompatibleObjectHash { .. }
            | fetch::Error::Disconnected { .. }
            | fetch::Error::RejectShallowRemote { .. }
            | fetch::Error::Collision { .. } => FailureKind::Server,
            fetch::Error::Fetch(e) => e.failure_kind(),
            fetch::Error::Pack(e) => e.failure_kind(),
            fetch::Error::UpdateRefs(e) => e.failure_kind(),
            fetch::Error::Client => FailureKind::Peer,
            fetch::Error::Interrupted => FailureKind::Stop,
            fetch::Error::KeepFile { .. } | fetch::Error::RemovePackKeepFile { .. } => {
                FailureKind::Local
            }
            fetch::Error::NoMemory => FailureKind::Memory,
        }
    }
}
