//! The lines of a bundle, where they stand in its bytes.

ghost use Rattle.std.specs.Prelude.{◌≡◌, ◌++◌, ◌∷◌, ◌≤◌, [], None, List as Items, ℕ, length, drop, IfSome};
ghost use Rattle.std.specs.Char.{is_ascii_uppercase};
ghost use Rattle.std.specs.List.{list_any};
ghost use Rattle.fetch_lines.specs.LineViews.{line_of};
ghost use Rattle.fetch_check.specs.Scanning.{Begins, BeginsNone, Stand, Stands};

use fetch_lines::{LineRef, line_in};

/// The longest line: its digits, and a payload of 65,516 bytes.
const MAX_LINE: usize = 65_520;

/// The line that the bytes begin with, as it is written, and how many of the bytes it has.
fn written_line(bytes: &[u8]) -> Option<(LineRef<'_>, usize)>
    ensures line { IfSome result (λ x. Begins bytes.now (line_of x.0) x.1) }
    ensures within { IfSome result (λ x. x.1 ≤ length bytes.now) }
    ensures none { result ≡ None → BeginsNone bytes.now }
{
    match line_in(MAX_LINE, 0, bytes) {
        Ok((line, count)) => {
            if has_capital(&bytes[..4]) {
                return None;
            }
            Some((line, count))
        }
        Err(_) => None,
    }
}

/// The line that stands at a place, and where the next one begins.
pub(crate) fn line_at(bytes: &[u8], place: usize) -> Option<(LineRef<'_>, usize)>
    requires { place ≤ length bytes.now }
    ensures line { IfSome result (λ x. Stand bytes.now place (line_of x.0 ∷ []) x.1) }
    ensures none { result ≡ None → BeginsNone (drop place bytes.now) }
{
    match written_line(&bytes[place..]) {
        Some((line, count)) => Some((line, place + count)),
        None => None,
    }
}

/// Where the text that stands at a place ends, if it stands there.
pub(crate) fn end_of(bytes: &[u8], place: usize, text: &[u8]) -> Option<usize>
    requires { place ≤ length bytes.now }
    ensures there { IfSome result (λ next. Stands bytes.now place text.now next) }
    ensures other { result ≡ None → (more : Items ℕ) → drop place bytes.now ≡ text.now ++ more → ⊥ }
{
    if bytes[place..].starts_with(text) {
        Some(place + text.len())
    } else {
        None
    }
}

pub(crate) fn has_capital(digits: &[u8]) -> bool
    ensures { result ≡ list_any is_ascii_uppercase digits.now }
{
    digits.iter().any(|c| c.is_ascii_uppercase())
}
