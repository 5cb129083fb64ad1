//! The one revision that a clone is of.

ghost use Rattle.std.specs.Prelude.{◌≡◌};
ghost use Rattle.std.specs.List.{list_any};
ghost use Rattle.fetch_base.specs.Answers.{AnswersUnless};
ghost use Rattle.fetch_init.specs.Revisions as spec;

use fetch_specs::{Operation, RefSpec, SpecError, parse};
use fetch_store::{Kind, NoMemory, ObjectId};
use std::alloc::Global;
use thiserror::Error as ThisError;

/// Why a text names no revision.
#[derive(Clone, Copy, Debug, PartialEq, Eq, ThisError)]
pub enum Error {
    /// It is no refspec to fetch by.
    #[error(transparent)]
    Parse(SpecError),
    /// It isn't one source alone, or that is neither `HEAD`, an id, nor a name under `refs/`.
    #[error("no revision of a remote")]
    Invalid,
    /// Memory ran out.
    #[error("out of memory")]
    NoMemory,
}

impl From<NoMemory> for Error {
    ghost use Rattle.std.specs.Prelude.{◌≡◌};
    ghost use Rattle.fetch_init.specs.declared.with_revision.Error.TheVariants as errors;

    ghost from_gives = { λ _ e. e ≡ errors.NoMemory };

    fn from(_e: NoMemory) -> Error {
        Error::NoMemory
    }
}

/// The refspec of a revision.
pub fn revision(alloc: Global, text: &[u8]) -> Result<RefSpec, Error>
    ensures { AnswersUnless spec.is_memory (spec.revision_of text.now) result }
{
    match parse(alloc, text, Operation::Fetch) {
        Ok(found) if is_source_alone(text, &found) && names_one(text) => Ok(found),
        Ok(_) => Err(Error::Invalid),
        Err(SpecError::NoMemory) => Err(Error::NoMemory),
        Err(e) => Err(Error::Parse(e)),
    }
}

fn is_source_alone(text: &[u8], found: &RefSpec) -> bool
    ensures { result ≡ spec.is_source_alone text.now found.now }
{
    if found.destination().is_some() {
        return false;
    }
    match found.source() {
        Some(source) => source == text,
        None => false,
    }
}

/// Whether a text is `HEAD`, an id, or a name under `refs/` that is no pattern.
#[tactic(auto, unfolding(crate::specs::Revisions::names_one))]
fn names_one(text: &[u8]) -> bool
    ensures { result ≡ spec.names_one text.now }
{
    text == b"HEAD".as_slice()
        || is_id(text)
        || (text.starts_with(b"refs/") && !has_pattern_sign(text))
}

fn is_id(text: &[u8]) -> bool
    ensures { result ≡ spec.is_id text.now }
{
    ObjectId::in_hex(Kind::Sha1, text).is_some() || ObjectId::in_hex(Kind::Sha256, text).is_some()
}

fn has_pattern_sign(text: &[u8]) -> bool
    ensures { result ≡ list_any spec.is_pattern_sign text.now }
{
    text.iter().any(|c| is_pattern_sign(*c))
}

fn is_pattern_sign(c: u8) -> bool
    ensures { result ≡ spec.is_pattern_sign c }
{
    matches!(c, b'*' | b'?' | b'[' | b']' | b'\\')
}
