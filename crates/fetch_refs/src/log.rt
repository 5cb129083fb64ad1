//! Lines of reflogs.

ghost use Rattle.std.specs.Prelude.{◌≡◌, IfOk};

use fetch_store::{NoMemory, ObjectId, Text};

/// Who changed a reference, and when. A repository keeps one from its opening on, so the lines of reflogs have that time;
/// who wants another opens the repository again with it.
#[derive(Debug, Drop)]
pub struct Signature {
    /// The person's name, any bytes.
    pub name: Text,
    /// The person's address, any bytes.
    pub email: Text,
    /// Seconds since 1970, in UTC.
    pub seconds: u64,
    /// The time zone: minutes east of Greenwich.
    pub offset_minutes: i32,
}

impl Signature {
    /// A copy of the signature.
    pub fn try_clone(&self) -> Result<Signature, NoMemory>
        ensures { IfOk result (λ copy. copy ≡ self.now) }
    {
        Ok(Signature {
            name: self.name.try_clone()?,
            email: self.email.try_clone()?,
            seconds: self.seconds,
            offset_minutes: self.offset_minutes,
        })
    }
}

/// One change of a reference, as its reflog tells it.
#[derive(Debug, Drop)]
pub struct LogLine {
    /// The id that the reference had by itself: the null id where it was absent or symbolic.
    pub old: ObjectId,
    /// The id that it has from here on.
    pub new: ObjectId,
    /// Who changed it, and when.
    pub committer: Signature,
    /// Why, any bytes.
    pub message: Text,
}

impl LogLine {
    /// A copy of the line.
    pub fn try_clone(&self) -> Result<LogLine, NoMemory>
        ensures { IfOk result (λ copy. copy ≡ self.now) }
    {
        Ok(LogLine {
            old: self.old,
            new: self.new,
            committer: self.committer.try_clone()?,
            message: self.message.try_clone()?,
        })
    }
}
