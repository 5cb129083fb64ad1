//! What a greeting says, as a record.

ghost use Rattle.std.specs.Prelude.{◌≡◌, IfOk};
ghost use Rattle.std.specs.Option.{option_copied};

use crate::greetings::greeting::last_named;
use crate::lines::words::contains_word;
use fetch_base::{Kind, List, NoMemory, Text, TryClone};

/// The protocol that a server speaks.
#[derive(Clone, Copy, Debug, PartialEq, Eq)]
pub enum Version {
    /// Version 1: the greeting lists the references itself.
    V1,
    /// Version 2: the greeting has capabilities alone, and references are asked for.
    V2,
}

/// What a server offers: a key, with a value where it tells one.
#[derive(Debug, Drop, PartialEq, Eq)]
pub struct Capability {
    /// The key, which is not empty.
    pub name: Text,
    /// What follows the first `=`, empty or not. None without a `=`.
    pub value: Option<Text>,
}

impl Capability {
    /// The value, lent.
    pub fn value(&self) -> Option<&[u8]>
        ensures { option_copied result ≡ self.now.value }
    {
        match &self.value {
            Some(value) => Some(value.as_bytes()),
            None => None,
        }
    }

    /// An equal capability.
    pub fn try_clone(&self) -> Result<Capability, NoMemory>
        ensures { IfOk result (λ copy. copy ≡ self.now) }
    {
        Ok(Capability {
            name: self.name.try_clone()?,
            value: self.value.try_clone()?,
        })
    }
}

impl TryClone for Capability {
    fn try_clone(&self) -> Result<Capability, NoMemory> {
        self.try_clone()
    }
}

/// What a server's greeting says: the capabilities in the order of their lines, and the hash of its ids.
#[derive(Debug, Drop)]
pub struct Handshake {
    /// The version of the protocol.
    pub version: Version,
    /// All capabilities, repeated keys too. Of a key that is repeated the last counts.
    pub capabilities: List<Capability>,
    /// The hash that `object-format` names, SHA-1 without that line.
    pub object_hash: Kind,
}

impl TryClone for Handshake {
    fn try_clone(&self) -> Result<Handshake, NoMemory> {
        self.try_clone()
    }
}

impl Handshake {
    ghost use Rattle.fetch_lines.specs.Greetings.{last_named, offers, value_of, has_word};

    /// An equal handshake.
    pub fn try_clone(&self) -> Result<Handshake, NoMemory>
        ensures { IfOk result (λ copy. copy ≡ self.now) }
    {
        Ok(Handshake {
            version: self.version,
            capabilities: self.capabilities.try_clone()?,
            object_hash: self.object_hash,
        })
    }

    /// The last capability of this name.
    pub fn capability(&self, name: &[u8]) -> Option<&Capability>
        ensures { option_copied result ≡ last_named name.now self.now.capabilities }
    {
        last_named(self.capabilities.as_slice(), name)
    }

    /// Whether a capability of this name is offered.
    pub fn offers(&self, name: &[u8]) -> bool
        ensures { result ≡ offers name.now self.now.capabilities }
    {
        self.capability(name).is_some()
    }

    /// The value of the last capability of this name, where it has one.
    pub fn value(&self, name: &[u8]) -> Option<&[u8]>
        ensures { option_copied result ≡ value_of name.now self.now.capabilities }
    {
        match self.capability(name) {
            Some(capability) => capability.value(),
            None => None,
        }
    }

    /// Whether the word stands among the space-divided words of that value.
    pub fn supports(&self, name: &[u8], word: &[u8]) -> bool
        ensures { result ≡ has_word word.now (value_of name.now self.now.capabilities) }
    {
        match self.value(name) {
            Some(value) => contains_word(value, word),
            None => false,
        }
    }
}
