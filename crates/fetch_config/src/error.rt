//! What refuses a configuration.

ghost use Rattle.std.specs.Prelude.{◌≡◌, IfOk};

use fetch_base::{NoMemory, Text};
use std::alloc::{AllocError, AllocFailed};
use thiserror::Error;

/// Why a call on a configuration is refused.
#[derive(Debug, Drop, PartialEq, Eq, Error)]
pub enum ConfigError {
    /// A line of a text breaks the grammar.
    #[error("malformed configuration line {line}")]
    Syntax {
        /// The number of the first such line, from 1.
        line: usize,
    },
    /// A byte can't be kept: a NUL, or a line feed in a subsection.
    #[error("a byte that no value can have at {place}")]
    BadValue {
        /// The place of the first such byte, from 0, in the value, the subsection or the override.
        place: usize,
    },
    /// An override has no `section.key` before its first `=`.
    #[error("an override without a section and a key")]
    InvalidKey {
        /// The whole override.
        text: Text,
    },
    /// Memory ran out.
    #[error("out of memory")]
    NoMemory,
}

impl ConfigError {
    /// An equal refusal.
    pub fn try_clone(&self) -> Result<ConfigError, NoMemory>
        ensures { IfOk result (λ copy. copy ≡ self.now) }
    {
        match self {
            ConfigError::Syntax { line } => Ok(ConfigError::Syntax { line: *line }),
            ConfigError::BadValue { place } => Ok(ConfigError::BadValue { place: *place }),
            ConfigError::InvalidKey { text } => Ok(ConfigError::InvalidKey {
                text: text.try_clone()?,
            }),
            ConfigError::NoMemory => Ok(ConfigError::NoMemory),
        }
    }
}

impl From<NoMemory> for ConfigError {
    ghost use Rattle.std.specs.Prelude.{◌≡◌};
    ghost use Rattle.fetch_config.specs.declared.error.ConfigError.TheVariants as errors;

    ghost from_gives = { λ _ e. e ≡ errors.NoMemory };

    fn from(_e: NoMemory) -> ConfigError {
        ConfigError::NoMemory
    }
}

impl From<AllocError> for ConfigError {
    ghost use Rattle.std.specs.Prelude.{◌≡◌};
    ghost use Rattle.fetch_config.specs.declared.error.ConfigError.TheVariants as errors;

    ghost from_gives = { λ _ e. e ≡ errors.NoMemory };

    fn from(_e: AllocError) -> ConfigError {
        ConfigError::NoMemory
    }
}

impl<T: Drop> From<AllocFailed<T>> for ConfigError {
    ghost use Rattle.std.specs.Prelude.{◌≡◌};
    ghost use Rattle.fetch_config.specs.declared.error.ConfigError.TheVariants as errors;

    ghost from_gives = { λ _ e. e ≡ errors.NoMemory };

    fn from(_e: AllocFailed<T>) -> ConfigError {
        ConfigError::NoMemory
    }
}

/// An entry whose value is no truth value, or no number.
#[derive(Clone, Copy, Debug, PartialEq, Eq, Error)]
#[error("unreadable value of entry {place}")]
pub struct Unreadable {
    /// The number of the entry, from 0, among the entries of its key that were looked at.
    pub place: usize,
}
