//! The lines of requests that stand fixed.

ghost use Rattle.std.specs.Prelude.{◌≡◌, ◌≢◌, if◌then◌else◌, IsTrue, ℕ, List};
ghost use Rattle.std.specs.Str.{bytes_eq};
ghost use Rattle.fetch_asked.specs.Reads.{by_saying, step_in};
ghost use Rattle.fetch_asked.specs.RequestTexts as texts;
ghost use Rattle.fetch_asked.specs.Requests as spec;
ghost use Rattle.fetch_asked.specs.Requests.{asked_step, format_text};
ghost use Rattle.fetch_asked.specs.declared.reading.FetchHead.TheVariants as heads;
ghost use Rattle.fetch_asked.specs.declared.reading.ListingPart.TheVariants as listing;
ghost use Rattle.fetch_asked.specs.declared.reading.Reading.TheVariants as readings;
ghost use Rattle.fetch_lines.specs.LineViews.{line_of};
ghost use Rattle.fetch_replies.specs.Stepping.{breaks, goes};

use crate::asked::Asked;
use crate::reading::{FetchHead, ListingPart, Read, Reading};
use crate::saying::{Saying, said_by};
use fetch_lines::LineRef;
use fetch_store::{Kind, after, split_first};

/// The line that names the hash.
#[tactic(auto, unfolding(crate::specs::Requests::format_text, fetch_lines::specs::RequestWords::format_is, fetch_lines::specs::Requests::kind_text))]
fn format_text(hash: Kind) -> &'static [u8]
    ensures { result.now ≡ format_text hash }
{
    match hash {
        Kind::Sha1 => b"object-format=sha1",
        Kind::Sha256 => b"object-format=sha256",
    }
}

/// Whether the text is empty, or ends with a NUL.
fn ends_with_nul(text: &[u8]) -> bool
    ensures { result ≡ texts.ends_with_nul text.now }
{
    match text.last() {
        Some(last) => *last == 0,
        None => true,
    }
}

fn has_line_feed(text: &[u8]) -> bool
    ensures { result ≡ texts.has_byte 10 text.now }
{
    text.iter().any(|byte| *byte == b'\n')
}

fn are_parameters(text: &[u8]) -> bool
    ensures { result ≡ texts.are_parameters text.now }
{
    ends_with_nul(text) && !has_line_feed(text)
}

/// Whether an address, and what stands behind its NUL, end the first line.
#[tactic(auto, unfolding(crate::specs::RequestTexts::version_mark))]
fn is_address_with(address: &[u8], behind: &[u8]) -> bool
    ensures { result ≡ texts.is_address_with (address.now, behind.now) }
{
    if has_line_feed(address) {
        return false;
    }
    match after(b"\0version=2\0", behind) {
        Some(parameters) => are_parameters(parameters),
        None => false,
    }
}

/// Whether the payload is the first line of a conversation.
#[tactic(auto, unfolding(crate::specs::RequestTexts::is_first_line, crate::specs::RequestTexts::upload_word))]
fn is_first_line(payload: &[u8]) -> bool
    ensures { result ≡ texts.is_first_line payload.now }
{
    let Some(rest) = after(b"git-upload-pack ", payload) else {
        return false;
    };
    match split_first(0, rest) {
        Some((address, behind)) => is_address_with(address, behind),
        None => false,
    }
}

/// Reads the first line of a conversation.
pub(crate) fn read_opening(line: LineRef<'_>) -> Read
    ensures { step_in result ≡ spec.at_opening (line_of line.entry) }
{
    match line {
        LineRef::Payload(payload) if is_first_line(payload) => Read::Whole(Asked::First),
        _ => Read::Broken,
    }
}

/// Reads the command of a request.
#[tactic(auto, unfolding(fetch_lines::specs::RequestWords::command_word, fetch_lines::specs::Requests::listing_word))]
pub(crate) fn read_command(saying: Saying<'_>) -> Read
    ensures { step_in result ≡ by_saying breaks breaks spec.at_command saying.entry }
{
    let Saying::Text(text) = saying else {
        return Read::Broken;
    };
    if text == b"command=ls-refs".as_slice() {
        Read::On(Reading::Listing(ListingPart::Format))
    } else if text == b"command=fetch".as_slice() {
        Read::On(Reading::Fetch(FetchHead::Format))
    } else {
        Read::Broken
    }
}

/// Reads one text that alone may stand here.
fn read_word(word: &[u8], next: Reading, saying: Saying<'_>) -> Read
    ensures { step_in result ≡ by_saying breaks breaks (λ text. if bytes_eq text word.now then goes next else breaks) saying.entry }
{
    match saying {
        Saying::Text(text) if text == word => Read::On(next),
        _ => Read::Broken,
    }
}

/// Reads a delimiter, which alone may stand here.
fn read_delimiter(next: Reading, saying: Saying<'_>) -> Read
    ensures { step_in result ≡ by_saying breaks (goes next) (λ _. breaks) saying.entry }
{
    match saying {
        Saying::Delim => Read::On(next),
        _ => Read::Broken,
    }
}

/// Reads a line of a listing request that stands fixed.
#[tactic(auto, unfolding(crate::specs::Requests::asked_step, crate::specs::RequestTexts::symrefs_word, crate::specs::RequestTexts::peel_word))]
pub(crate) fn read_listing(hash: Kind, part: ListingPart, line: LineRef<'_>) -> Read
    requires { part ≢ listing.Unborn }
    ensures { step_in result ≡ asked_step hash (readings.Listing part) (line_of line.entry) }
{
    let saying = said_by(line);
    match part {
        ListingPart::Format => {
            let next = Reading::Listing(ListingPart::Delimiter);
            read_word(format_text(hash), next, saying)
        }
        ListingPart::Delimiter => read_delimiter(Reading::Listing(ListingPart::Symrefs), saying),
        ListingPart::Symrefs => read_word(b"symrefs", Reading::Listing(ListingPart::Peel), saying),
        ListingPart::Peel => read_word(b"peel", Reading::Listing(ListingPart::Unborn), saying),
        ListingPart::Unborn => Read::Broken,
    }
}

/// Reads a line of a fetch request that stands fixed.
#[tactic(auto, unfolding(crate::specs::Requests::asked_step))]
pub(crate) fn read_fetch(hash: Kind, part: FetchHead, line: LineRef<'_>) -> Read
    requires { part ≢ heads.Version }
    ensures { step_in result ≡ asked_step hash (readings.Fetch part) (line_of line.entry) }
{
    let saying = said_by(line);
    match part {
        FetchHead::Format => {
            let next = Reading::Fetch(FetchHead::Delimiter);
            read_word(format_text(hash), next, saying)
        }
        FetchHead::Delimiter => read_delimiter(Reading::Fetch(FetchHead::Version), saying),
        FetchHead::Version => Read::Broken,
    }
}
