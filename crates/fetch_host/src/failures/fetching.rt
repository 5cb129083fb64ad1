//! Failures of a whole fetch.

use crate::failure::{Failure, FailureKind};
use fetch_remote::FetchError;

impl Failure for FetchError {
    ghost use Rattle.fetch_host.specs.FetchFailures.{fetch_kind};

    ghost kind = { fetch_kind };

    fn failure_kind(&self) -> FailureKind {
        match self {
            FetchError::Prepare(e) => e.failure_kind(),
            FetchError::Receive(e) => e.failure_kind(),
            FetchError::NoMemory => FailureKind::Memory,
        }
    }
}
