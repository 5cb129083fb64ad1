//! Why a conversation ends without an answer.

ghost use Rattle.std.specs.Prelude.{◌≡◌, IfOk};

use fetch_base::{NoMemory, Text, TryClone};
use std::alloc::{AllocError, AllocFailed};
use thiserror::Error;

/// Why a line, a reply or a request was refused.
#[derive(Debug, Drop, PartialEq, Eq, Error)]
pub enum WireError {
    /// The line that begins at byte `place` of the reply, counted from 0, breaks the grammar, or the peer's bytes end
    /// before it is whole.
    #[error("malformed line at byte {place} of the reply")]
    Malformed { place: usize },
    /// The server says that it fails. The text is what follows `ERR `, without a line feed at its end, or all
    /// bytes of band 3.
    #[error("the server says {text:?}")]
    ServerError { text: Text },
    /// The digits of a line announce that the reply has more than `bound` bytes.
    #[error("the reply is longer than {bound} bytes")]
    ReplyTooLong { bound: u32 },
    /// The server doesn't offer the feature of this name, which a request needs.
    #[error("the server lacks the feature {name:?}")]
    MissingFeature { name: Text },
    /// A payload of `length` bytes doesn't fit a line, which holds 65,516. It is the first such payload.
    #[error("a payload of {length} bytes is too long for a line")]
    LineTooLong { length: usize },
    /// The address, a parameter as `name=value` or the agent can't be sent: a NUL or a line feed stands at byte `place`
    /// of this text, counted from 0.
    #[error("the parameter {text:?} can't be sent, for its byte {place}")]
    BadParameter { text: Text, place: usize },
    /// There was not enough memory.
    #[error("out of memory")]
    NoMemory,
}

impl WireError {
    /// An equal error.
    pub fn try_clone(&self) -> Result<WireError, NoMemory>
        ensures { IfOk result (λ copy. copy ≡ self.now) }
    {
        match self {
            WireError::Malformed { place } => Ok(WireError::Malformed { place: *place }),
            WireError::ServerError { text } => Ok(WireError::ServerError {
                text: text.try_clone()?,
            }),
            WireError::ReplyTooLong { bound } => Ok(WireError::ReplyTooLong { bound: *bound }),
            WireError::MissingFeature { name } => Ok(WireError::MissingFeature {
                name: name.try_clone()?,
            }),
            WireError::LineTooLong { length } => Ok(WireError::LineTooLong { length: *length }),
            WireError::BadParameter { text, place } => Ok(WireError::BadParameter {
                text: text.try_clone()?,
                place: *place,
            }),
            WireError::NoMemory => Ok(WireError::NoMemory),
        }
    }
}

impl TryClone for WireError {
    fn try_clone(&self) -> Result<WireError, NoMemory> {
        self.try_clone()
    }
}

impl From<NoMemory> for WireError {
    ghost use Rattle.std.specs.Prelude.{◌≡◌};
    ghost use Rattle.fetch_lines.specs.declared.error.WireError.TheVariants as errors;

    ghost from_gives = { λ _ e. e ≡ errors.NoMemory };

    fn from(_e: NoMemory) -> WireError {
        WireError::NoMemory
    }
}

impl From<AllocError> for WireError {
    ghost use Rattle.std.specs.Prelude.{◌≡◌};
    ghost use Rattle.fetch_lines.specs.declared.error.WireError.TheVariants as errors;

    ghost from_gives = { λ _ e. e ≡ errors.NoMemory };

    fn from(_e: AllocError) -> WireError {
        WireError::NoMemory
    }
}

impl<T: Drop> From<AllocFailed<T>> for WireError {
    ghost use Rattle.std.specs.Prelude.{◌≡◌};
    ghost use Rattle.fetch_lines.specs.declared.error.WireError.TheVariants as errors;

    ghost from_gives = { λ _ e. e ≡ errors.NoMemory };

    fn from(_e: AllocFailed<T>) -> WireError {
        WireError::NoMemory
    }
}
