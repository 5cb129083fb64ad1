//! Numbers and truth values.

ghost use Rattle.std.specs.Prelude.{◌≡◌, ◌+◌, ◌<◌, ◌^◌, IfSome, option_map};
ghost use Rattle.std.specs.Str.{bytes_eq};
ghost use Rattle.fetch_config.specs.Numbers as spec;

use fetch_base::decimal;

fn unit_of(c: u8) -> Option<u64>
    ensures { result ≡ spec.unit_of c }
{
    match c {
        b'k' => Some(1 << 10),
        b'm' => Some(1 << 20),
        b'g' => Some(1 << 30),
        _ => None,
    }
}

/// The digits, and the factor after them.
fn split_unit(text: &[u8]) -> (&[u8], u64)
    ensures digits { result.0.now ≡ (spec.split_unit text.now).0 }
    ensures unit { result.1 ≡ (spec.split_unit text.now).1 }
{
    match text {
        [front @ .., last] => match unit_of(*last) {
            Some(unit) => (front, unit),
            None => (text, 1),
        },
        [] => (text, 1),
    }
}

/// The number without its sign.
#[tactic(auto, unfolding(crate::specs::Numbers::magnitude))]
fn magnitude(text: &[u8]) -> Option<u64>
    ensures value { result ≡ spec.magnitude text.now }
    ensures within { IfSome result (λ n. n < 2 ^ 63 + 1) }
{
    let (digits, unit) = split_unit(text);
    let number = decimal(digits)?.checked_mul(unit)?;
    if number <= 1 << 63 {
        Some(number)
    } else {
        None
    }
}

fn positive(number: u64) -> Option<i64>
    ensures { result ≡ spec.positive number }
{
    0i64.checked_add_unsigned(number)
}

fn negative(number: u64) -> Option<i64>
    requires { number < 2 ^ 63 + 1 }
    ensures { result ≡ spec.negative number }
{
    0i64.checked_sub_unsigned(number)
}

#[tactic(auto, unfolding(crate::specs::Numbers::integer_in))]
/// A number: an optional sign, digits, and an optional `k`, `m` or `g`, within 64 bits.
pub(crate) fn integer_in(text: &[u8]) -> Option<i64>
    ensures { result ≡ spec.integer_in text.now }
{
    let [first, number @ ..] = text else {
        return None;
    };
    if *first == b'-' {
        return negative(magnitude(number)?);
    }
    if *first == b'+' {
        return positive(magnitude(number)?);
    }
    positive(magnitude(text)?)
}

fn is_text(text: &[u8], other: &[u8]) -> bool
    ensures { result ≡ bytes_eq text.now other.now }
{
    text == other
}

#[tactic(auto, unfolding(crate::specs::Numbers::is_yes))]
fn is_yes(text: &[u8]) -> bool
    ensures { result ≡ spec.is_yes text.now }
{
    is_text(text, b"true") || is_text(text, b"yes") || is_text(text, b"on")
}

#[tactic(auto, unfolding(crate::specs::Numbers::is_no))]
fn is_no(text: &[u8]) -> bool
    ensures { result ≡ spec.is_no text.now }
{
    is_text(text, b"false") || is_text(text, b"no") || is_text(text, b"off") || text.is_empty()
}

/// What an entry says as a truth value. An implicit entry is true.
pub(crate) fn truth_of(value: Option<&[u8]>) -> Option<bool>
    ensures { result ≡ spec.truth_of (option_map (λ v. v.now) value.entry) }
{
    let Some(text) = value else {
        return Some(true);
    };
    if is_yes(text) {
        return Some(true);
    }
    if is_no(text) {
        return Some(false);
    }
    match integer_in(text) {
        Some(number) => Some(number != 0),
        None => None,
    }
}
