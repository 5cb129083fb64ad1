//! What a server is asked.

ghost use Rattle.std.specs.Prelude.{◌≡◌, IfOk};

use fetch_pack::PackVersion;
use fetch_specs::PartialName;
use fetch_store::{List, NoMemory, ObjectId, Text};

/// One request, as it was read. Each is answered by one reply.
// Not copied: it is read from a request, whose lines can be read again.
#[derive(Debug, Drop)]
pub enum Asked {
    /// The first line of a conversation. The greeting answers it.
    First,
    /// The references: whether an unborn `HEAD` is to be told, and the prefixes of the names that are asked for, ascending.
    /// Without a prefix all are.
    Listing(bool, List<Text>),
    /// Objects.
    Fetch(FetchAsked),
}

/// What a fetch request asks.
// Not copied: it is read from a request, whose lines can be read again.
#[derive(Debug, Drop)]
pub struct FetchAsked {
    /// The version of the pack.
    pub version: PackVersion,
    /// Whether tags that lead into the pack come along.
    pub include_tag: bool,
    /// The commits whose parents the client lacks, ascending.
    pub border: List<ObjectId>,
    /// How deep the history is to be, where the request says so.
    pub depth: Option<DepthAsked>,
    /// The ids that are wanted, one or more, each once.
    pub wants: List<ObjectId>,
    /// The ids that the client tells it has, each once.
    pub haves: List<ObjectId>,
    /// Whether the pack is to come now.
    pub done: bool,
}

/// How deep the history is to be.
// Not copied: it is read from a request, whose lines can be read again.
#[derive(Debug, Drop)]
pub enum DepthAsked {
    /// That many commits from each want on, or, where it is relative, that many more than the border has.
    Deepen(u32, bool),
    /// No commit before that many seconds, and none that is reached from a reference of these names.
    Limits(Option<u64>, List<PartialName>),
}
