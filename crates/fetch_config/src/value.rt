//! The text of a value, and of a subsection.

ghost use Rattle.std.specs.Prelude.{◌≡◌, ◌≤◌, ◌<◌, IfOk, length, take, option_map, false};
ghost use Rattle.std.specs.Prelude.{◌&&◌, not};
ghost use Rattle.fetch_config.specs.Pieces.{is_comment_sign};
ghost use Rattle.fetch_config.specs.Values as spec;

use crate::text::{is_comment_sign, skip_blanks, trim_end};
use fetch_base::NoMemory;
use std::alloc::Global;

const QUOTE: u8 = b'"';

const BACKSLASH: u8 = b'\\';

/// The byte that a backslash and this character stand for.
fn escape_of(c: u8) -> Option<u8>
    ensures { result ≡ spec.escape_of c }
{
    match c {
        b'"' => Some(b'"'),
        b'\\' => Some(b'\\'),
        b'n' => Some(b'\n'),
        b't' => Some(b'\t'),
        b'b' => Some(8),
        _ => None,
    }
}

/// The text without its quotes, and with its escapes read. None where it breaks the grammar.
fn unquoted(alloc: Global, text: &[u8]) -> Result<Option<Vec<u8>>, NoMemory>
    ensures { IfOk result (λ value. option_map (λ v. v.items) value ≡ spec.unquoted false false text.now) }
{
    let mut value = Vec::new(alloc);
    let mut quoted = false;
    let mut escaped = false;
    for c in text {
        if escaped {
            let Some(byte) = escape_of(*c) else {
                return Ok(None);
            };
            value.push(byte)?;
            escaped = false;
            continue;
        }
        if *c == QUOTE {
            quoted = !quoted;
            continue;
        }
        if *c == BACKSLASH {
            escaped = true;
            continue;
        }
        value.push(*c)?;
    }
    if quoted || escaped {
        return Ok(None);
    }
    Ok(Some(value))
}

fn ends_value(c: u8, quoted: bool) -> bool
    ensures { result ≡ (is_comment_sign c && not quoted) }
{
    is_comment_sign(c) && !quoted
}

/// How many bytes stand before the first comment sign outside quotes.
fn comment_place(text: &[u8]) -> usize
    ensures place { take result text.now ≡ spec.before_comment false false text.now }
    ensures within { result ≤ length text.now }
{
    let mut quoted = false;
    let mut escaped = false;
    for (place, c) in text.iter().enumerate() {
        if escaped {
            escaped = false;
            continue;
        }
        if *c == QUOTE {
            quoted = !quoted;
            continue;
        }
        if *c == BACKSLASH {
            escaped = true;
            continue;
        }
        if ends_value(*c, quoted) {
            return place;
        }
    }
    text.len()
}

/// The value that a text after a `=` says. None where it breaks the grammar.
#[tactic(auto, unfolding(crate::specs::Values::value_of))]
pub(crate) fn value_of(alloc: Global, text: &[u8]) -> Result<Option<Vec<u8>>, NoMemory>
    ensures { IfOk result (λ value. option_map (λ v. v.items) value ≡ spec.value_of text.now) }
{
    let text = &text[..comment_place(text)];
    unquoted(alloc, trim_end(skip_blanks(text)))
}

/// A subsection up to its closing quote, and what stands after that. None without a closing quote.
pub(crate) fn subsection_of(
    alloc: Global,
    text: &[u8],
) -> Result<Option<(Vec<u8>, &[u8])>, NoMemory>
    ensures { IfOk result (λ found. option_map (λ f. (f.0.items, f.1.now)) found ≡ spec.subsection_of false text.now) }
{
    let mut name = Vec::new(alloc);
    let mut escaped = false;
    for (place, c) in text.iter().enumerate() {
        if escaped {
            name.push(*c)?;
            escaped = false;
            continue;
        }
        if *c == QUOTE {
            return Ok(Some((name, &text[place + 1..])));
        }
        if *c == BACKSLASH {
            escaped = true;
            continue;
        }
        name.push(*c)?;
    }
    Ok(None)
}
