//! What a line of a request says.

ghost use Rattle.std.specs.Prelude.{◌≡◌, List, ℕ};
ghost use Rattle.fetch_asked.specs.Reads.{by_saying};
ghost use Rattle.fetch_asked.specs.Requests.{by_request_line};
ghost use Rattle.fetch_asked.specs.declared.asked.Asked.{Asked};
ghost use Rattle.fetch_asked.specs.declared.reading.Reading.{Reading};
ghost use Rattle.fetch_lines.specs.LineViews.{line_of};
ghost use Rattle.fetch_replies.specs.Stepping.{Step};
ghost use Rattle.fetch_lines.specs.Texts.{without_lf};

use fetch_lines::{LineRef, without_line_feed};

/// What a line says.
#[derive(Clone, Copy)]
pub(crate) enum Saying<'a> {
    /// A text, without its last line feed.
    Text(&'a [u8]),
    Flush,
    Delim,
    End,
}

/// What the line says.
pub(crate) fn said_by(line: LineRef<'_>) -> Saying<'_>
    ensures { (flush delim : Step Reading Asked) (text : List ℕ → Step Reading Asked)
        → by_saying flush delim text result ≡ by_request_line flush delim text (line_of line.entry) }
{
    match line {
        LineRef::Payload(payload) => Saying::Text(without_line_feed(payload)),
        LineRef::Flush => Saying::Flush,
        LineRef::Delim => Saying::Delim,
        LineRef::End => Saying::End,
    }
}
