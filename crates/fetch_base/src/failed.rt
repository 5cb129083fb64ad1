//! A failure that the other side counted.

use thiserror::Error;

/// The other side failed, and counted it.
#[derive(Clone, Copy, Debug, PartialEq, Eq, Error)]
#[error("the other side failed")]
pub struct Failed;
