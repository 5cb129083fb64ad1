//! Lines as they are written.

ghost use Rattle.std.specs.Prelude.{◌≡◌, ◌<◌, ◌≤◌, ◌++◌, None, IfOk, OnOk, OnErr, IfErr, length};
ghost use Rattle.fetch_lines.specs.LineViews.{line_of};
ghost use Rattle.fetch_lines.specs.Written.{four_digits, count_of, payload_of, line_text, lines_text, too_long_in, first_too_long};
ghost use Rattle.fetch_lines.specs.Written.{TellsTooLong};

use crate::error::WireError;
use crate::lines::line::{Line, LineRef};
use std::alloc::Global;

/// The longest payload.
const MAX_PAYLOAD: usize = 65_516;

/// The four hex digits that a line of this length begins with.
#[tactic(auto, unfolding(crate::specs::Written::four_digits))]
pub fn length_digits(count: usize) -> [u8; 4]
    requires { count < 65536 }
    ensures { result ≡ four_digits count }
{
    let mut digits = [0; 4];
    let bytes = [(count / 256) as u8, (count % 256) as u8];
    hex::encode_to_slice(bytes.as_slice(), &mut digits).unwrap();
    digits
}

/// The number that the digits of a line write, and what follows them.
fn parts(line: LineRef<'_>) -> (usize, &[u8])
    requires { length (payload_of (line_of line)) ≤ 65516 }
    ensures count { result.0 ≡ count_of (line_of line.entry) }
    ensures small { result.0 < 65536 }
    ensures payload { result.1.now ≡ payload_of (line_of line.entry) }
{
    match line {
        LineRef::Payload(payload) => (payload.len() + 4, payload),
        LineRef::Flush => (0, &[]),
        LineRef::Delim => (1, &[]),
        LineRef::End => (2, &[]),
    }
}

/// How long the payload is.
fn payload_len(line: LineRef<'_>) -> usize
    ensures { result ≡ length (payload_of (line_of line.entry)) }
{
    match line {
        LineRef::Payload(payload) => payload.len(),
        LineRef::Flush | LineRef::Delim | LineRef::End => 0,
    }
}

/// Appends the line. A payload above 65,516 bytes is refused, and a refusal appends nothing.
#[tactic(auto, unfolding(crate::specs::Written::line_text))]
pub fn write_line(out: &mut Vec<u8>, line: LineRef<'_>) -> Result<(), WireError>
    ensures ok { OnOk result (out.new.items ≡ out.old.items ++ line_text (line_of line.entry)) }
    ensures fits { OnOk result (too_long_in (line_of line.entry) ≡ None) }
    ensures too_long { IfErr result (λ e. TellsTooLong (too_long_in (line_of line.entry)) e) }
    ensures err { OnErr result (out.new.items ≡ out.old.items) }
{
    let length = payload_len(line);
    if length > MAX_PAYLOAD {
        return Err(WireError::LineTooLong { length });
    }
    let (count, payload) = parts(line);
    out.reserve(4 + payload.len())?;
    out.extend_from_slice(&length_digits(count)).unwrap();
    out.extend_from_slice(payload).unwrap();
    Ok(())
}

/// The text of the lines. The first payload above 65,516 bytes is refused.
pub fn write_lines(alloc: Global, lines: &[Line]) -> Result<Vec<u8>, WireError>
    ensures text { IfOk result (λ text. text.items ≡ lines_text lines.now) }
    ensures fits { OnOk result (first_too_long lines.now ≡ None) }
    ensures too_long { IfErr result (λ e. TellsTooLong (first_too_long lines.now) e) }
{
    let mut out = Vec::new(alloc);
    for line in lines {
        write_line(&mut out, line.as_ref())?;
    }
    Ok(out)
}
