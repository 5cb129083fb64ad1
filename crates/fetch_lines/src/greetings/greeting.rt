//! The capabilities of a greeting: how each is read, and what they say together.

ghost use Rattle.std.specs.Prelude.{◌≡◌, IfOk, fold, option_and_then};
ghost use Rattle.std.specs.Option.{option_copied};
ghost use Rattle.fetch_lines.specs.Greetings.{if_key, capability_in, format_in, is_format, format_of, is_known, if_known, hash_after};
ghost use Rattle.fetch_lines.specs.Greetings.{last_named, is_version_2};
ghost use Rattle.fetch_base.specs.declared.id.Kind.TheVariants.{Sha1};

use crate::greetings::handshake::Capability;
use fetch_base::{Kind, NoMemory, Text, split_first};
use std::alloc::Global;

/// A capability with this key, which isn't empty.
fn keyed(alloc: Global, key: &[u8], value: Option<&[u8]>) -> Result<Option<Capability>, NoMemory>
    ensures { IfOk result (λ found. found ≡ if_key key.now (option_copied value.entry)) }
{
    if key.is_empty() {
        return Ok(None);
    }
    let name = Text::new(alloc, key)?;
    let value = match value {
        Some(value) => Some(Text::new(alloc, value)?),
        None => None,
    };
    Ok(Some(Capability { name, value }))
}

/// The capability that a text tells.
#[tactic(auto, unfolding(crate::specs::Greetings::capability_in))]
fn capability(alloc: Global, text: &[u8]) -> Result<Option<Capability>, NoMemory>
    ensures { IfOk result (λ found. found ≡ capability_in text.now) }
{
    match split_first(b'=', text) {
        Some((key, value)) => keyed(alloc, key, Some(value)),
        None => keyed(alloc, text, None),
    }
}

/// The hash that a format names.
#[tactic(auto, unfolding(crate::specs::Greetings::format_in))]
fn format(text: &[u8]) -> Option<Kind>
    ensures { result ≡ format_in text.now }
{
    if text == b"sha1".as_slice() {
        Some(Kind::Sha1)
    } else if text == b"sha256".as_slice() {
        Some(Kind::Sha256)
    } else {
        None
    }
}

impl Capability {
    #[tactic(auto, unfolding(crate::specs::Greetings::is_format))]
    fn is_object_format(&self) -> bool
        ensures { result ≡ is_format self.now }
    {
        self.name.as_bytes() == b"object-format".as_slice()
    }

    fn object_format(&self) -> Option<Kind>
        ensures { result ≡ format_of self.now }
    {
        match &self.value {
            Some(value) => format(value.as_bytes()),
            None => None,
        }
    }

    /// Whether it is no format, or one that is known.
    fn is_known(&self) -> bool
        ensures { result ≡ is_known self.now }
    {
        !self.is_object_format() || self.object_format().is_some()
    }

    /// The hash that holds after it, where this one held before.
    fn hash_after(&self, kind: Kind) -> Kind
        ensures { result ≡ hash_after kind self.now }
    {
        if !self.is_object_format() {
            return kind;
        }
        match self.object_format() {
            Some(named) => named,
            None => kind,
        }
    }
}

/// The capability that a text tells. An `object-format` names a hash that is known.
pub fn known_capability(alloc: Global, text: &[u8]) -> Result<Option<Capability>, NoMemory>
    ensures { IfOk result (λ found. found ≡ option_and_then if_known (capability_in text.now)) }
{
    match capability(alloc, text)? {
        Some(found) => {
            if found.is_known() {
                Ok(Some(found))
            } else {
                Ok(None)
            }
        }
        None => Ok(None),
    }
}

/// The hash that capabilities name.
pub fn hash_of(capabilities: &[Capability]) -> Kind
    ensures { result ≡ fold hash_after Sha1 capabilities.now }
{
    let mut kind = Kind::Sha1;
    for capability in capabilities {
        kind = capability.hash_after(kind);
    }
    kind
}

/// Whether a text is the first line of a greeting of version 2.
#[tactic(auto, unfolding(crate::specs::Greetings::is_version_2))]
pub fn says_version_2(text: &[u8]) -> bool
    ensures { result ≡ is_version_2 text.now }
{
    text == b"version 2".as_slice()
}

/// The last of these capabilities that has this name.
pub(crate) fn last_named<'a>(capabilities: &'a [Capability], name: &[u8]) -> Option<&'a Capability>
    ensures { option_copied result ≡ last_named name.now capabilities.now }
{
    let mut found = None;
    for capability in capabilities {
        if capability.name.as_bytes() == name {
            found = Some(capability);
        }
    }
    found
}
