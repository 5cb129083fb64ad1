//! Lines, read from the front of a reply's text.

ghost use Rattle.std.specs.Prelude.{◌≡◌, ◌≤◌, ◌<◌, ◌+◌, ◌^◌, length, drop, take, IfOk, IfSome};
ghost use Rattle.std.specs.List.{list_all};
ghost use Rattle.hex.specs.Hex.{is_hex_digit};
ghost use Rattle.fetch_lines.specs.Feeding.{error_of};
ghost use Rattle.fetch_lines.specs.LineViews.{line_of};
ghost use Rattle.fetch_lines.specs.Lines.{number_in, announced, line_at, line_len, ok_as};

use crate::error::WireError;
use crate::lines::bound::ReplyBound;
use crate::lines::line::LineRef;
use hex::FromHex;

/// Why a text doesn't begin with a line, or with the lines of a reply. Places count from the reply's first byte.
#[derive(Clone, Copy, Debug, PartialEq, Eq)]
pub enum LineError {
    /// The text ends in the line that begins at this place, or before it.
    Short { place: usize },
    /// The line that begins at this place breaks the grammar.
    Broken { place: usize },
    /// The digits of a line announce more bytes than the reply may have.
    TooLong,
}

impl LineError {
    /// The refusal of a reply of bounded length, where no more bytes come.
    pub fn to_error(self, bound: ReplyBound) -> WireError
        ensures { result ≡ error_of bound self }
    {
        match self {
            LineError::Short { place } | LineError::Broken { place } => WireError::Malformed {
                place,
            },
            LineError::TooLong => WireError::ReplyTooLong { bound: bound.get() },
        }
    }
}

/// The longest line: its digits, and a payload of 65,516 bytes.
const MAX_LINE: usize = 65_520;

/// The number that four hex digits of either case write.
#[tactic(auto, unfolding(crate::specs::Lines::number_in))]
fn number(digits: &[u8]) -> Option<usize>
    ensures value { result ≡ number_in digits.now }
    ensures small { IfSome result (λ n. n < 65536) }
{
    match <[u8; 2] as FromHex>::from_hex(digits) {
        Ok(bytes) => Some(usize::from(bytes[0]) * 256 + usize::from(bytes[1])),
        Err(_) => None,
    }
}

fn are_hex_digits(bytes: &[u8]) -> bool
    ensures { result ≡ list_all is_hex_digit bytes.now }
{
    bytes.iter().all(|byte| byte.is_ascii_hexdigit())
}

/// The line that digits announce, and how many bytes of the rest it takes.
#[tactic(auto, unfolding(crate::specs::Lines::announced))]
fn line_behind(
    bound: usize,
    place: usize,
    count: Option<usize>,
    rest: &[u8],
) -> Result<(LineRef<'_>, usize), LineError>
    requires { place < 2 ^ 32 }
    ensures value { ok_as (λ x. (line_of x.0, drop x.1 rest.now)) result ≡ announced bound place count rest.now }
    ensures within { IfOk result (λ x. x.1 ≤ length rest.now) }
    ensures len { IfOk result (λ x. x.1 + 4 ≡ line_len (line_of x.0)) }
{
    let Some(count) = count else {
        return Err(LineError::Broken { place });
    };
    if count == 3 {
        return Err(LineError::Broken { place });
    }
    if count > MAX_LINE {
        return Err(LineError::Broken { place });
    }
    if place + count.max(4) > bound {
        return Err(LineError::TooLong);
    }
    match count {
        0 => Ok((LineRef::Flush, 0)),
        1 => Ok((LineRef::Delim, 0)),
        2 | 3 => Err(LineError::Broken { place }),
        _ => {
            let count = count - 4;
            if rest.len() < count {
                return Err(LineError::Short { place });
            }
            Ok((LineRef::Payload(&rest[..count]), count))
        }
    }
}

/// The line that the bytes at this place begin with, and how many of the bytes it takes. A refusal is the one that
/// these digits give, and the bound, at that place.
#[tactic(auto, unfolding(crate::specs::Lines::line_at))]
pub fn line_in(bound: usize, place: usize, bytes: &[u8]) -> Result<(LineRef<'_>, usize), LineError>
    requires { place < 2 ^ 32 }
    ensures value { ok_as (λ x. (line_of x.0, drop x.1 bytes.now)) result ≡ line_at bound place bytes.now }
    ensures within { IfOk result (λ x. x.1 ≤ length bytes.now) }
    ensures len { IfOk result (λ x. x.1 ≡ line_len (line_of x.0)) }
{
    let [a, b, c, d, rest @ ..] = bytes else {
        if are_hex_digits(bytes) {
            return Err(LineError::Short { place });
        }
        return Err(LineError::Broken { place });
    };
    let (line, count) = line_behind(bound, place, number(&[*a, *b, *c, *d]), rest)?;
    Ok((line, count + 4))
}
