//! A request that is being read, line by line.

ghost use Rattle.std.specs.Prelude.{◌≡◌, IfOk};
ghost use Rattle.fetch_asked.specs.Reads.{step_in};
ghost use Rattle.fetch_asked.specs.Requests.{asked_step, start_of};
ghost use Rattle.fetch_lines.specs.LineViews.{line_of};

use crate::asked::Asked;
use crate::fetch_reading::{FetchReading, read_detail, read_version};
use crate::head_reading::{read_command, read_fetch, read_listing, read_opening};
use crate::listing_reading::{read_prefix, read_unborn};
use crate::saying::said_by;
use fetch_lines::LineRef;
use fetch_store::{Kind, List, NoMemory, Text};
use std::alloc::Global;

/// What comes next in a listing request.
#[derive(Clone, Copy, Debug, PartialEq, Eq)]
pub(crate) enum ListingPart {
    /// `object-format`.
    Format,
    /// The delimiter.
    Delimiter,
    /// `symrefs`.
    Symrefs,
    /// `peel`.
    Peel,
    /// `unborn`, a prefix, or the flush.
    Unborn,
}

/// What comes next in a fetch request, up to the version of its pack.
#[derive(Clone, Copy, Debug, PartialEq, Eq)]
pub(crate) enum FetchHead {
    /// `object-format`.
    Format,
    /// The delimiter.
    Delimiter,
    /// `plain-pack`, or `plain-pack-2`.
    Version,
}

/// How far the details of a fetch request were read.
#[derive(Clone, Copy, Debug, PartialEq, Eq)]
pub(crate) enum FetchPart {
    /// None was.
    Beginning,
    /// `include-tag`, or commits of the border.
    Border,
    /// `deepen 0`, behind which `deepen-relative` has to stand.
    DepthZero,
    /// `deepen` of one or more.
    Depth,
    /// `deepen-relative`.
    Relative,
    /// `deepen-since`, or names of `deepen-not`.
    Limits,
    /// Wants.
    Wants,
    /// Haves.
    Haves,
    /// `done`.
    Done,
}

/// A request of which some lines were read.
#[derive(Drop)]
pub(crate) enum Reading {
    /// Nothing of a conversation.
    Opening,
    /// Nothing of a request behind the first line.
    Command,
    /// A listing request, up to this part.
    Listing(ListingPart),
    /// A listing request: whether an unborn `HEAD` is to be told, and these prefixes.
    Prefixes(bool, List<Text>),
    /// A fetch request, up to this part.
    Fetch(FetchHead),
    /// A fetch request, with these details.
    Details(FetchPart, FetchReading),
}

/// What a line does to a reading.
#[derive(Drop)]
pub(crate) enum Read {
    /// Reading goes on.
    On(Reading),
    /// The request is whole.
    Whole(Asked),
    /// The line may not stand here.
    Broken,
}

impl Reading {
    /// The reading of a request of which no line was read, behind the first line of a conversation or before it.
    pub(crate) fn start(begun: bool) -> Reading
        ensures { result ≡ start_of begun }
    {
        if begun {
            Reading::Command
        } else {
            Reading::Opening
        }
    }

    /// Reads the next line.
    #[tactic(auto, unfolding(crate::specs::Requests::asked_step))]
    pub(crate) fn line(self, alloc: Global, hash: Kind, line: LineRef<'_>) -> Result<Read, NoMemory>
        ensures { IfOk result (λ read. step_in read ≡ asked_step hash self (line_of line.entry)) }
    {
        match self {
            Reading::Opening => Ok(read_opening(line)),
            Reading::Command => Ok(read_command(said_by(line))),
            Reading::Listing(ListingPart::Unborn) => read_unborn(alloc, said_by(line)),
            Reading::Listing(part) => Ok(read_listing(hash, part, line)),
            Reading::Prefixes(unborn, prefixes) => {
                read_prefix(alloc, unborn, prefixes, said_by(line))
            }
            Reading::Fetch(FetchHead::Version) => Ok(read_version(alloc, said_by(line))),
            Reading::Fetch(part) => Ok(read_fetch(hash, part, line)),
            Reading::Details(part, details) => {
                read_detail(alloc, hash, part, details, said_by(line))
            }
        }
    }
}
