//! What a line says.

ghost use Rattle.std.specs.Prelude.{◌≡◌, List, ℕ};
ghost use Rattle.fetch_replies.specs.declared.replies.reply.ParsedReply.{ParsedReply};
ghost use Rattle.fetch_replies.specs.declared.replies.parser.ReplyParser.{ReplyParser};
ghost use Rattle.fetch_lines.specs.LineViews.{line_of};
ghost use Rattle.fetch_replies.specs.ReadSteps.{by_saying};
ghost use Rattle.fetch_replies.specs.Stepping.{Step};
ghost use Rattle.fetch_replies.specs.Steps.{by_line, error_text};
ghost use Rattle.fetch_lines.specs.Texts.{is_error};

use fetch_lines::{LineRef, without_line_feed};

/// What a line says where a text line may stand.
#[derive(Clone, Copy)]
pub(crate) enum Saying<'a> {
    /// A text, without its last line feed.
    Text(&'a [u8]),
    /// The server fails, and says this.
    Error(&'a [u8]),
    Flush,
    Delim,
    End,
}

#[tactic(auto, unfolding(fetch_lines::specs::Texts::is_error))]
fn begins_with_error(payload: &[u8]) -> bool
    ensures { result ≡ is_error payload.now }
{
    payload.starts_with(b"ERR ")
}

/// What the server says after `ERR `.
fn error_text(payload: &[u8]) -> &[u8]
    ensures { result.now ≡ error_text payload.now }
{
    let text = without_line_feed(payload);
    &text[text.len().min(4)..]
}

/// What the line says.
pub(crate) fn said_by(line: LineRef<'_>) -> Saying<'_>
    ensures { (flush delim : Step ReplyParser ParsedReply) (text : List ℕ → Step ReplyParser ParsedReply)
        → by_saying flush delim text result ≡ by_line flush delim text (line_of line.entry) }
{
    match line {
        LineRef::Payload(payload) => {
            if begins_with_error(payload) {
                Saying::Error(error_text(payload))
            } else {
                Saying::Text(without_line_feed(payload))
            }
        }
        LineRef::Flush => Saying::Flush,
        LineRef::Delim => Saying::Delim,
        LineRef::End => Saying::End,
    }
}
