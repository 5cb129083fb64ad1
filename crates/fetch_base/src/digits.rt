//! Decimal digits.

ghost use Rattle.std.specs.Prelude.{◌≡◌, ◌<◌, ◌^◌, IsTrue};
ghost use Rattle.std.specs.Option.{SomeIff};
ghost use Rattle.std.specs.Str.{all_ascii_digits};
ghost use Rattle.std.specs.Str.Parse.{digits_value};
ghost use Rattle.fetch_base.specs.Scan as spec;

/// Whether each byte is a decimal digit.
fn all_digits(text: &[u8]) -> bool
    ensures { result ≡ all_ascii_digits text.now }
{
    for c in text {
        if !c.is_ascii_digit() {
            return false;
        }
    }
    true
}

/// Whether the text is one decimal digit or more, and nothing else.
pub fn is_decimal(text: &[u8]) -> bool
    ensures { result ≡ spec.is_decimal text.now }
{
    !text.is_empty() && all_digits(text)
}

/// The number that one decimal digit or more write, with leading zeros or without. None where the text is empty or has
/// another byte, and where the number doesn't fit in 64 bits.
pub fn decimal(text: &[u8]) -> Option<u64>
    ensures { SomeIff result (IsTrue (spec.is_decimal text.now) × (digits_value 10 text.now < 2 ^ 64)) (digits_value 10 text.now) }
{
    if is_decimal(text) { value(text) } else { None }
}

/// The number that digits write, where it fits in 64 bits.
fn value(digits: &[u8]) -> Option<u64>
    requires { IsTrue (all_ascii_digits digits.now) }
    ensures { SomeIff result (digits_value 10 digits.now < 2 ^ 64) (digits_value 10 digits.now) }
{
    let mut value: u64 = 0;
    for c in digits {
        let digit = u64::from(*c - b'0');
        let Some(tens) = value.checked_mul(10) else {
            return None;
        };
        let Some(more) = tens.checked_add(digit) else {
            return None;
        };
        value = more;
    }
    Some(value)
}
