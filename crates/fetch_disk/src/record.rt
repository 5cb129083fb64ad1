//! A record of a journal.

ghost use Rattle.std.specs.Prelude.{◌≡◌, IfOk};

use fetch_base::{NoMemory, Text};

/// A record: what kind it is, and its bytes.
#[derive(Debug, Drop)]
pub struct Record {
    /// A letter that says what the body tells.
    pub kind: u8,
    /// What is told.
    pub body: Text,
}

impl Record {
    /// A record of the same kind with the same bytes.
    pub fn try_clone(&self) -> Result<Record, NoMemory>
        ensures { IfOk result (λ copy. copy ≡ self.now) }
    {
        Ok(Record {
            kind: self.kind,
            body: self.body.try_clone()?,
        })
    }
}
