//! Numbers as they are written in scenes and words.

ghost use Rattle.std.specs.Prelude.{◌≡◌};
ghost use Rattle.fetch_scene.specs.Numbers as spec;

use fetch_store::{decimal, is_decimal};

fn is_number(text: &[u8]) -> bool
    ensures { result ≡ spec.is_number text.now }
{
    match text {
        [] => false,
        [_] => is_decimal(text),
        [first, _, ..] => *first != b'0' && is_decimal(text),
    }
}

/// The number of 64 bits that a text writes in decimal digits, without a sign or a leading zero, or None where it writes
/// none.
#[tactic(auto, using(crate::proofs::Digits::number_is, crate::proofs::Digits::no_number))]
pub fn number(text: &[u8]) -> Option<u64>
    ensures { result ≡ spec.number_in text.now }
{
    if is_number(text) { decimal(text) } else { None }
}

/// The same of 32 bits.
#[tactic(auto, unfolding(crate::specs::Numbers::small_number_in))]
pub(crate) fn small_number(text: &[u8]) -> Option<u32>
    ensures { result ≡ spec.small_number_in text.now }
{
    let number = number(text)?;
    if number < 1 << 32 {
        Some(number as u32)
    } else {
        None
    }
}
