//! What is pushed where no refspec says it.

ghost use Rattle.std.specs.Prelude.{◌≡◌, IfOk};
ghost use Rattle.fetch_base.specs.Answers.{AnswersUnless};
ghost use Rattle.fetch_lookup.specs.Branches as spec;

use fetch_base::{NoMemory, Text};
use fetch_config::File;
use std::alloc::Global;
use thiserror::Error as ThisError;

/// What is pushed where no refspec says it.
#[derive(Clone, Copy, Debug, PartialEq, Eq, PartialOrd, Ord, Hash)]
pub enum Default {
    /// Nothing.
    Nothing,
    /// The branch, to one of its name.
    Current,
    /// The branch, to the one that it is fetched from.
    Upstream,
    /// The same, where that has its name.
    Simple,
    /// Each branch that is on both sides.
    Matching,
}

impl std::default::Default for Default {
    ghost use Rattle.std.specs.Prelude.{◌≡◌};
    ghost use Rattle.fetch_lookup.specs.declared.push.Default.TheVariants.{Simple};

    ghost is_default = { λ choice. choice ≡ Simple };

    fn default() -> Default {
        Default::Simple
    }
}

/// Why `push.default` can't be read.
#[derive(Debug, Drop, PartialEq, Eq, ThisError)]
pub enum Error {
    /// Its value is none of the five.
    #[error("an unknown value of push.default")]
    Unknown {
        /// The value.
        value: Text,
    },
    /// Memory ran out.
    #[error("out of memory")]
    NoMemory,
}

impl Error {
    /// An equal error.
    pub fn try_clone(&self) -> Result<Error, NoMemory>
        ensures { IfOk result (λ copy. copy ≡ self.now) }
    {
        match self {
            Error::Unknown { value } => Ok(Error::Unknown {
                value: value.try_clone()?,
            }),
            Error::NoMemory => Ok(Error::NoMemory),
        }
    }
}

impl From<NoMemory> for Error {
    ghost use Rattle.std.specs.Prelude.{◌≡◌};
    ghost use Rattle.fetch_lookup.specs.declared.push.Error.TheVariants as errors;

    ghost from_gives = { λ _ e. e ≡ errors.NoMemory };

    fn from(_e: NoMemory) -> Error {
        Error::NoMemory
    }
}

/// The choice of `push.default`, which is `Simple` where it is absent, and, if that is asked, where its value is
/// unknown. Else an unknown value is refused.
#[tactic(auto, unfolding(crate::specs::Branches::push_default_in))]
pub fn default_choice(alloc: Global, file: &File, lenient: bool) -> Result<Default, Error>
    ensures { AnswersUnless spec.is_memory (spec.push_default_in file.now.sections lenient) result }
{
    match file.string(b"push", None, b"default", false) {
        Some(text) => choice_at(alloc, text, lenient),
        None => Ok(Default::Simple),
    }
}

fn choice_at(alloc: Global, text: &[u8], lenient: bool) -> Result<Default, Error>
    ensures { AnswersUnless spec.is_memory (spec.default_or lenient text.now (spec.default_said text.now)) result }
{
    if let Some(choice) = choice_of(text) {
        return Ok(choice);
    }
    if lenient {
        return Ok(Default::Simple);
    }
    Err(Error::Unknown {
        value: Text::new(alloc, text)?,
    })
}

fn choice_of(text: &[u8]) -> Option<Default>
    ensures { result ≡ spec.default_said text.now }
{
    if text == b"nothing".as_slice() {
        Some(Default::Nothing)
    } else if text == b"current".as_slice() {
        Some(Default::Current)
    } else if text == b"upstream".as_slice() {
        Some(Default::Upstream)
    } else if text == b"simple".as_slice() {
        Some(Default::Simple)
    } else if text == b"matching".as_slice() {
        Some(Default::Matching)
    } else {
        None
    }
}
