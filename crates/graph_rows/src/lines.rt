//! Lines as Git writes them, and an interrupt that follows a script.

use fetch_store::{NoMemory, after, decimal};
use fetch_wire::{Interrupt, LineRef, ScriptedInterrupt, write_line};
use rows::{decoded, refuse, say, say_number, split_word};
use std::alloc::Global;

/// `flush`, `delim`, or a payload after an equals sign.
fn write_word(alloc: Global, word: &[u8], out: &mut Vec<u8>) -> Result<(), NoMemory> {
    let payload = decoded(alloc, after(b"=", word).unwrap_or(&[]))?;
    let line = if word == b"flush".as_slice() {
        LineRef::Flush
    } else if word == b"delim".as_slice() {
        LineRef::Delim
    } else {
        LineRef::Payload(&payload)
    };
    match write_line(out, line) {
        Ok(()) => Ok(()),
        Err(e) => refuse(out, &e),
    }
}

/// `<line>*`: tells what is written.
pub(crate) fn tell_written(alloc: Global, rest: &[u8], out: &mut Vec<u8>) -> Result<(), NoMemory> {
    let mut text = Vec::new(alloc);
    for word in rest.split(|b| *b == b' ') {
        write_word(alloc, word, &mut text)?;
    }
    say(out, &[b"written", &text])
}

/// `<bytes>`: writes a line with so many in its payload, and tells its four digits and how many bytes it has. Whether the
/// word is a number.
pub(crate) fn tell_long(alloc: Global, digits: &[u8], out: &mut Vec<u8>) -> Result<bool, NoMemory> {
    let Some(count) = decimal(digits) else {
        return Ok(false);
    };
    let payload = vec![in alloc; 7u8; count as usize]?;
    let mut text = Vec::new(alloc);
    match write_line(&mut text, LineRef::Payload(&payload)) {
        Ok(()) => say(out, &[b"digits", text.get(..4).unwrap_or(&[])])?,
        Err(e) => refuse(out, &e)?,
    }
    say_number(out, b"bytes", text.len())?;
    Ok(true)
}

/// `<call> <questions>`: asks an interrupt so often, which says yes at this call, counted from 0. Whether the words are
/// numbers.
pub(crate) fn tell_interrupt(
    alloc: Global,
    rest: &[u8],
    out: &mut Vec<u8>,
) -> Result<bool, NoMemory> {
    let (call, questions) = split_word(rest);
    let (Some(call), Some(questions)) = (decimal(call), decimal(questions)) else {
        return Ok(false);
    };
    let mut interrupt = ScriptedInterrupt::new(vec![in alloc; call; 1]?);
    for _ in 0..questions {
        if interrupt.asked() {
            say(out, &[b"yes"])?;
        } else {
            say(out, &[b"no"])?;
        }
    }
    Ok(true)
}
