//! Hex digits, read by a table: which digit comes next is not foreseen by a processor, so that a branch on it costs more
//! than all else.

ghost use Rattle.std.specs.Prelude.{◌≡◌, ℕ};
ghost use Rattle.std.specs.Result.{result_ok};
ghost use Rattle.hex.specs.Hex.{decode_sized, hex_digit_value, pair_value};

/// The value of each byte as a hex digit of either case, and 255 where it is none.
static DIGITS: [u8; 256] = [
    255, 255, 255, 255, 255, 255, 255, 255, 255, 255, 255, 255, 255, 255, 255, 255, 255, 255, 255,
    255, 255, 255, 255, 255, 255, 255, 255, 255, 255, 255, 255, 255, 255, 255, 255, 255, 255, 255,
    255, 255, 255, 255, 255, 255, 255, 255, 255, 255, 0, 1, 2, 3, 4, 5, 6, 7, 8, 9, 255, 255, 255,
    255, 255, 255, 255, 10, 11, 12, 13, 14, 15, 255, 255, 255, 255, 255, 255, 255, 255, 255, 255,
    255, 255, 255, 255, 255, 255, 255, 255, 255, 255, 255, 255, 255, 255, 255, 255, 10, 11, 12, 13,
    14, 15, 255, 255, 255, 255, 255, 255, 255, 255, 255, 255, 255, 255, 255, 255, 255, 255, 255,
    255, 255, 255, 255, 255, 255, 255, 255, 255, 255, 255, 255, 255, 255, 255, 255, 255, 255, 255,
    255, 255, 255, 255, 255, 255, 255, 255, 255, 255, 255, 255, 255, 255, 255, 255, 255, 255, 255,
    255, 255, 255, 255, 255, 255, 255, 255, 255, 255, 255, 255, 255, 255, 255, 255, 255, 255, 255,
    255, 255, 255, 255, 255, 255, 255, 255, 255, 255, 255, 255, 255, 255, 255, 255, 255, 255, 255,
    255, 255, 255, 255, 255, 255, 255, 255, 255, 255, 255, 255, 255, 255, 255, 255, 255, 255, 255,
    255, 255, 255, 255, 255, 255, 255, 255, 255, 255, 255, 255, 255, 255, 255, 255, 255, 255, 255,
    255, 255, 255, 255, 255, 255, 255, 255, 255, 255, 255, 255, 255, 255, 255, 255, 255, 255, 255,
    255, 255, 255,
];

fn digit(c: u8) -> Option<u8>
    ensures { result ≡ hex_digit_value c }
{
    let value = DIGITS[c as usize];
    if value < 16 { Some(value) } else { None }
}

/// The byte that two digits write.
fn byte(high: u8, low: u8) -> Option<u8>
    ensures { (place : ℕ) → result ≡ result_ok (pair_value high low place) }
{
    match (digit(high), digit(low)) {
        (Some(high), Some(low)) => Some(high * 16 + low),
        _ => None,
    }
}

/// The bytes that twice as many digits of either case write.
pub(crate) fn decode<const N: usize>(text: &[u8]) -> Option<[u8; N]>
    ensures { result ≡ result_ok (decode_sized text.now N) }
{
    if text.len() % 2 != 0 || text.len() / 2 != N {
        return None;
    }
    let mut bytes = [0; N];
    'bytes: for i in 0..N {
        match byte(text[2 * i], text[2 * i + 1]) {
            Some(value) => bytes[i] = value,
            None => return None,
        }
    }
    Some(bytes)
}
