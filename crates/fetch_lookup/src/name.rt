//! Names of remotes.

ghost use Rattle.std.specs.Prelude.{◌≡◌, IfOk, OnOk, IfErr, IsOkUnless, None, option_map, MatchResult, Some};
ghost use Rattle.fetch_lookup.specs.Names as spec;
ghost use Rattle.fetch_lookup.specs.declared.name.Error.TheVariants as errors;

use crate::utf8::{characters, ill_formed_place, is_utf8};
use fetch_base::{NoMemory, Text};
use fetch_specs::{Operation, SpecError, parse};
use std::alloc::{AllocError, Global};
use thiserror::Error;

/// What names a remote. Names are ordered symbols first, then byte by byte.
#[derive(Debug, Drop, PartialEq, Eq, PartialOrd, Ord, Hash)]
pub enum Name {
    /// The name of a remote.
    Symbol(Text),
    /// The place of a remote: its text has a slash, or is a dot.
    Url(Text),
}

impl Name {
    /// The name that a text is, or the text back where it is neither a place nor UTF-8.
    pub fn try_from_text(text: Text) -> Result<Name, Text>
        ensures { MatchResult result (λ name. spec.name_of text ≡ Some name) (λ back. (spec.name_of text ≡ None) × (back ≡ text)) }
    {
        if is_place(text.as_bytes()) {
            Ok(Name::Url(text))
        } else if is_utf8(text.as_bytes()) {
            Ok(Name::Symbol(text))
        } else {
            Err(text)
        }
    }

    /// The text, lent.
    pub fn as_bstr(&self) -> &[u8]
        ensures { result.now ≡ spec.text_of self.now }
    {
        match self {
            Name::Symbol(text) => text.as_bytes(),
            Name::Url(text) => text.as_bytes(),
        }
    }

    /// A symbol's text, lent, where it is UTF-8.
    pub fn as_symbol(&self) -> Option<&str>
        ensures { option_map (λ s. s.now) result ≡ spec.symbol_of self.now }
    {
        match self {
            Name::Symbol(text) => characters(text.as_bytes()),
            Name::Url(_) => None,
        }
    }

    /// A place's text, lent.
    pub fn as_url(&self) -> Option<&[u8]>
        ensures { option_map (λ s. s.now) result ≡ spec.url_of self.now }
    {
        match self {
            Name::Symbol(_) => None,
            Name::Url(text) => Some(text.as_bytes()),
        }
    }

    /// An equal name.
    pub fn try_clone(&self) -> Result<Name, NoMemory>
        ensures { IfOk result (λ copy. copy ≡ self.now) }
    {
        match self {
            Name::Symbol(text) => Ok(Name::Symbol(text.try_clone()?)),
            Name::Url(text) => Ok(Name::Url(text.try_clone()?)),
        }
    }

    /// An equal name.
    pub fn to_owned(&self) -> Result<Name, NoMemory>
        ensures { IfOk result (λ copy. copy ≡ self.now) }
    {
        self.try_clone()
    }
}

/// The name that a text is, copied.
pub(crate) fn named(alloc: Global, text: &[u8]) -> Result<Option<Name>, NoMemory>
    ensures { IfOk result (λ name. name ≡ spec.name_of text.now) }
{
    match Name::try_from_text(Text::new(alloc, text)?) {
        Ok(name) => Ok(Some(name)),
        Err(_) => Ok(None),
    }
}

pub(crate) fn is_place(text: &[u8]) -> bool
    ensures { result ≡ spec.is_place text.now }
{
    text.contains(&b'/') || text == b".".as_slice()
}

/// Why a text is no name of a remote.
#[derive(Debug, Drop, PartialEq, Eq, Error)]
pub enum Error {
    /// The refspec that has the name in its destination, `refs/heads/test:refs/remotes/<name>/test`, is refused.
    #[error("no valid name of a remote")]
    Invalid {
        /// Why. Places are in that refspec.
        source: SpecError,
        /// The text.
        name: Text,
    },
    /// Memory ran out.
    #[error("out of memory")]
    NoMemory,
}

impl Error {
    /// An equal error.
    pub fn try_clone(&self) -> Result<Error, NoMemory>
        ensures { IfOk result (λ copy. copy ≡ self.now) }
    {
        match self {
            Error::Invalid { source, name } => Ok(Error::Invalid {
                source: *source,
                name: name.try_clone()?,
            }),
            Error::NoMemory => Ok(Error::NoMemory),
        }
    }
}

impl From<NoMemory> for Error {
    ghost use Rattle.std.specs.Prelude.{◌≡◌};
    ghost use Rattle.fetch_lookup.specs.declared.name.Error.TheVariants as errors;

    ghost from_gives = { λ _ e. e ≡ errors.NoMemory };

    fn from(_e: NoMemory) -> Error {
        Error::NoMemory
    }
}

/// A copy of a name, where it may stand in the names of tracking branches: where
/// `refs/heads/test:refs/remotes/<name>/test` is a refspec to fetch by, and is UTF-8. Else `Invalid` tells why not.
pub fn validated(alloc: Global, name: &[u8]) -> Result<Text, Error>
    ensures ok { IfOk result (λ text. text ≡ name.now) }
    ensures accepted { OnOk result (spec.name_refusal name.now ≡ None) }
    ensures refused { IfErr result (spec.IsNameRefusal name.now) }
    ensures memory { spec.name_refusal name.now ≡ None → IsOkUnless result errors.NoMemory }
{
    match refusal_of(alloc, name)? {
        Some(source) => Err(Error::Invalid {
            source,
            name: Text::new(alloc, name)?,
        }),
        None => Ok(Text::new(alloc, name)?),
    }
}

#[tactic(auto, unfolding(crate::specs::Names::tracking_text))]
fn tracking_text(alloc: Global, name: &[u8]) -> Result<Vec<u8>, AllocError>
    ensures { IfOk result (λ text. text.items ≡ spec.tracking_text name.now) }
{
    let mut text = Vec::from_slice(alloc, b"refs/heads/test:refs/remotes/")?;
    text.extend_from_slice(name)?;
    text.extend_from_slice(b"/test")?;
    Ok(text)
}

/// Why a text is no name of a remote.
fn refusal_of(alloc: Global, name: &[u8]) -> Result<Option<SpecError>, NoMemory>
    ensures { IfOk result (λ refusal. refusal ≡ spec.name_refusal name.now) }
{
    let text = tracking_text(alloc, name)?;
    match parse(alloc, text.as_slice(), Operation::Fetch) {
        Ok(_) => Ok(match ill_formed_place(text.as_slice()) {
            Some(place) => Some(SpecError::InvalidName { place }),
            None => None,
        }),
        Err(SpecError::NoMemory) => Err(NoMemory),
        Err(source) => Ok(Some(source)),
    }
}
