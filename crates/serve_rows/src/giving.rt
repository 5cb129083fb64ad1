//! Bytes that are given.

use fetch_serve::{ServeTurn, Server};
use fetch_store::{NoMemory, append_number};

/// The digit of a half byte.
fn digit_of(half: u8) -> u8 {
    match b"0123456789ABCDEF".get(usize::from(half)) {
        Some(digit) => *digit,
        None => b'?',
    }
}

/// Appends a byte, as it stands where it is a sign of ASCII but `%`, and else as `%` and two hexadecimal digits.
fn append_escaped(out: &mut Vec<u8>, byte: u8) -> Result<(), NoMemory> {
    if byte.is_ascii_graphic() && byte != b'%' || byte == b' ' {
        out.push(byte)?;
        return Ok(());
    }
    out.push(b'%')?;
    out.push(digit_of(byte / 16))?;
    out.push(digit_of(byte % 16))?;
    Ok(())
}

/// `gives <count> <text>`: how many bytes are given, and which.
pub(crate) fn say_given(out: &mut Vec<u8>, bytes: &[u8]) -> Result<(), NoMemory> {
    out.extend_from_slice(b"gives ")?;
    append_number(out, bytes.len())?;
    out.push(b' ')?;
    for byte in bytes {
        append_escaped(out, *byte)?;
    }
    out.push(b'\n')?;
    Ok(())
}

/// The word for a turn.
pub(crate) fn word_of(turn: ServeTurn) -> &'static [u8] {
    match turn {
        ServeTurn::Send => b"Send",
        ServeTurn::Receive => b"Receive",
        ServeTurn::Failed => b"Failed",
    }
}

/// Takes all that a server gives.
pub(crate) fn take_all(server: &mut Server<'_>, given: &mut Vec<u8>) -> Result<(), NoMemory> {
    let count = server.outgoing().len();
    given.extend_from_slice(server.outgoing())?;
    server.sent(count);
    Ok(())
}
