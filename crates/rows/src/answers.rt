//! Lines of an answer.

use fetch_specs::RefSpec;
use fetch_store::{NoMemory, ObjectId, Text, append_hex, append_number, split_first};
use std::fmt::Display;

/// A line of these words, with spaces between.
pub fn say(out: &mut Vec<u8>, words: &[&[u8]]) -> Result<(), NoMemory> {
    let mut is_first = true;
    for word in words {
        if !is_first {
            out.push(b' ')?;
        }
        out.extend_from_slice(word)?;
        is_first = false;
    }
    out.push(b'\n')?;
    Ok(())
}

/// A line of a word and a number.
pub fn say_number(out: &mut Vec<u8>, word: &[u8], number: usize) -> Result<(), NoMemory> {
    out.extend_from_slice(word)?;
    out.push(b' ')?;
    append_number(out, number)?;
    out.push(b'\n')?;
    Ok(())
}

/// A line of a word and the digits of an id.
pub fn say_id(out: &mut Vec<u8>, word: &[u8], id: &ObjectId) -> Result<(), NoMemory> {
    out.extend_from_slice(word)?;
    out.push(b' ')?;
    append_hex(out, id)?;
    out.push(b'\n')?;
    Ok(())
}

/// A line of a word and what a value is printed as.
pub fn say_printed(out: &mut Vec<u8>, word: &[u8], value: &impl Display) -> Result<(), NoMemory> {
    let text = format!(in *out.allocator(); "{value}")?;
    say(out, &[word, text.as_bytes()])
}

/// The line of a refusal, as it is printed.
pub fn refuse(out: &mut Vec<u8>, e: &impl Display) -> Result<(), NoMemory> {
    say_printed(out, b"refused", e)
}

/// A line of a word and a text, for each text.
pub fn say_texts(out: &mut Vec<u8>, word: &[u8], texts: &[Text]) -> Result<(), NoMemory> {
    for text in texts {
        say(out, &[word, text.as_bytes()])?;
    }
    Ok(())
}

/// A line of a word and a refspec, for each refspec.
pub fn say_specs(out: &mut Vec<u8>, word: &[u8], specs: &[RefSpec]) -> Result<(), NoMemory> {
    for spec in specs {
        match spec.to_bstring(*out.allocator()) {
            Ok(text) => say(out, &[word, text.as_bytes()])?,
            Err(_) => return Err(NoMemory),
        }
    }
    Ok(())
}

/// The lines of a text, each after a bar. What follows the last line feed is passed over.
pub fn say_lines(out: &mut Vec<u8>, text: &[u8]) -> Result<(), NoMemory> {
    let mut rest = text;
    for _ in 0..text.len() {
        let Some((line, behind)) = split_first(b'\n', rest) else {
            break;
        };
        say(out, &[b"|", line])?;
        rest = behind;
    }
    Ok(())
}
