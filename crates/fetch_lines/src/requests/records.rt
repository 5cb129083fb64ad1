//! What one round of a fetch asks, and what is answered.

ghost use Rattle.std.specs.Prelude.{◌≡◌, IfOk};
ghost use Rattle.fetch_lines.specs.FetchRecords.{no_reply};

use fetch_base::{List, NoMemory, ObjectId, Text, TryClone};
use std::alloc::Global;

/// What one round asks: text lines without their line feeds, the haves, and whether the rounds end.
#[derive(Debug, Drop)]
pub struct Request {
    /// The text lines before the haves: words, `shallow`, depth and `want` lines.
    pub lines: List<Text>,
    /// What is told to be there, a `have` line each.
    pub haves: List<ObjectId>,
    /// Whether `done` ends the request.
    pub done: bool,
}

impl Request {
    /// An equal request.
    pub fn try_clone(&self) -> Result<Request, NoMemory>
        ensures { IfOk result (λ copy. copy ≡ self.now) }
    {
        Ok(Request {
            lines: self.lines.try_clone()?,
            haves: self.haves.try_clone()?,
            done: self.done,
        })
    }
}

/// What one round answers: the haves that the server has, the changes of the border, and the pack where it comes.
#[derive(Debug, Drop)]
pub struct FetchReply {
    /// The ids of the `ACK` lines, in order.
    pub acknowledged: List<ObjectId>,
    /// The ids of the `shallow` lines, in order.
    pub shallow: List<ObjectId>,
    /// The ids of the `unshallow` lines, in order.
    pub unshallow: List<ObjectId>,
    /// The bytes of band 1. None where no pack came, or where it wasn't to be read.
    pub pack: Option<Text>,
    /// The texts of band 2, in order.
    pub progress: List<Text>,
    /// Whether no further round follows.
    pub last: bool,
}

impl FetchReply {
    /// A reply that has told nothing yet.
    pub fn new(alloc: Global) -> FetchReply
        ensures { result ≡ no_reply }
    {
        FetchReply {
            acknowledged: List::new(alloc),
            shallow: List::new(alloc),
            unshallow: List::new(alloc),
            pack: None,
            progress: List::new(alloc),
            last: true,
        }
    }

    /// An equal reply.
    pub fn try_clone(&self) -> Result<FetchReply, NoMemory>
        ensures { IfOk result (λ copy. copy ≡ self.now) }
    {
        Ok(FetchReply {
            acknowledged: self.acknowledged.try_clone()?,
            shallow: self.shallow.try_clone()?,
            unshallow: self.unshallow.try_clone()?,
            pack: self.pack.try_clone()?,
            progress: self.progress.try_clone()?,
            last: self.last,
        })
    }
}

impl TryClone for FetchReply {
    fn try_clone(&self) -> Result<FetchReply, NoMemory> {
        self.try_clone()
    }
}
