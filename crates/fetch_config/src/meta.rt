//! Where a section comes from.

ghost use Rattle.std.specs.Prelude.{◌≡◌, IfOk};

use fetch_base::{NoMemory, Text};

/// What kind of file a section comes from.
#[derive(Clone, Copy, Debug, PartialEq, Eq)]
pub enum Origin {
    /// The configuration of the machine.
    System,
    /// The configuration of the user.
    Global,
    /// The configuration of the repository.
    Local,
    /// The caller.
    Api,
}

/// Where a section comes from.
#[derive(Debug, Drop, PartialEq, Eq)]
pub struct Meta {
    /// The kind of file.
    pub source: Origin,
    /// How many files include the one that it stands in.
    pub level: u8,
    /// Where the file lies, where it is one.
    pub path: Option<Text>,
    /// Whether look-ups of trusted sections alone see the section.
    pub trusted: bool,
}

impl Meta {
    /// An equal origin of a section.
    pub fn try_clone(&self) -> Result<Meta, NoMemory>
        ensures { IfOk result (λ copy. copy ≡ self.now) }
    {
        Ok(Meta {
            source: self.source,
            level: self.level,
            path: clone_of(&self.path)?,
            trusted: self.trusted,
        })
    }
}

/// A copy of a text that may be absent.
pub(crate) fn clone_of(text: &Option<Text>) -> Result<Option<Text>, NoMemory>
    ensures { IfOk result (λ copy. copy ≡ text.now) }
{
    match text {
        Some(text) => Ok(Some(text.try_clone()?)),
        None => Ok(None),
    }
}
