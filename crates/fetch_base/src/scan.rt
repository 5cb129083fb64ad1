//! Pieces of a text.

ghost use Rattle.std.specs.Prelude.{◌≡◌, ◌<◌, ◌==◌, not, length, IfSome, position};
ghost use Rattle.std.specs.List.{suffix_len};
ghost use Rattle.std.specs.Option.{option_map};
ghost use Rattle.fetch_base.specs.Scan as spec;

use crate::digits::{decimal, is_decimal};

/// The byte that ends a line.
pub const LF: u8 = b'\n';

/// The byte that ends the name of a tree's entry.
pub const NUL: u8 = 0;

/// The byte between two words.
pub const SPACE: u8 = b' ';

/// What stands before the first such byte, and what stands after it.
pub fn split_first(byte: u8, bytes: &[u8]) -> Option<(&[u8], &[u8])>
    ensures { option_map (λ x. (x.0.now, x.1.now)) result ≡ spec.split_first byte bytes.now }
{
    match place_of(byte, bytes) {
        Some(place) => Some((&bytes[..place], &bytes[place + 1..])),
        None => None,
    }
}

fn place_of(byte: u8, bytes: &[u8]) -> Option<usize>
    ensures place { result ≡ position (λ b. b == byte) bytes.now }
    ensures within { IfSome result (λ place. place < length bytes.now) }
{
    bytes.iter().position(|b| *b == byte)
}

/// What stands before the last such byte, and what stands after it.
pub fn split_last(byte: u8, bytes: &[u8]) -> Option<(&[u8], &[u8])>
    ensures { option_map (λ x. (x.0.now, x.1.now)) result ≡ spec.split_last byte bytes.now }
{
    let behind = len_behind_last(byte, bytes);
    if behind < bytes.len() {
        let end = bytes.len() - behind;
        Some((&bytes[..end - 1], &bytes[end..]))
    } else {
        None
    }
}

fn len_behind_last(byte: u8, bytes: &[u8]) -> usize
    ensures { result ≡ suffix_len (λ b. not (b == byte)) bytes.now }
{
    bytes.iter().rev().take_while(|b| **b != byte).count()
}

/// What follows the word at the front.
pub fn after<'a>(word: &[u8], bytes: &'a [u8]) -> Option<&'a [u8]>
    ensures { option_map (λ x. x.now) result ≡ spec.after word.now bytes.now }
{
    if bytes.starts_with(word) {
        Some(&bytes[word.len()..])
    } else {
        None
    }
}

/// Seconds since 1970, of 1 to 19 digits.
pub fn seconds_in(text: &[u8]) -> Option<u64>
    ensures { result ≡ spec.seconds_in text.now }
{
    match decimal(text) {
        Some(seconds) if text.len() <= 19 && seconds < 1 << 63 => Some(seconds),
        _ => None,
    }
}

/// Whether this is a time zone: a sign, and one digit or more.
pub fn is_offset(text: &[u8]) -> bool
    ensures { result ≡ spec.is_offset text.now }
{
    match text {
        [sign, digits @ ..] => (*sign == b'+' || *sign == b'-') && is_decimal(digits),
        [] => false,
    }
}
