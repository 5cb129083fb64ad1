//! Configurations: what is read, edited, looked up and written.

ghost use Rattle.std.specs.Prelude.{◌≤◌, length};

use fetch_config::{ConfigError, File, Meta, Origin};
use fetch_store::{NoMemory, decimal};
use rows::{Question, decoded, refuse, say, say_number, say_printed, split_word};
use std::alloc::Global;

fn meta(source: Origin, trusted: bool) -> Meta {
    Meta {
        source,
        level: 0,
        path: None,
        trusted,
    }
}

/// A configuration of the repository without sections.
pub(crate) fn new_file(alloc: Global) -> Result<File, NoMemory> {
    match File::new(alloc, meta(Origin::Local, true)) {
        Ok(file) => Ok(file),
        Err(_) => Err(NoMemory),
    }
}

fn origin_of(word: &[u8]) -> Option<Origin> {
    if word == b"system".as_slice() {
        Some(Origin::System)
    } else if word == b"global".as_slice() {
        Some(Origin::Global)
    } else if word == b"local".as_slice() {
        Some(Origin::Local)
    } else if word == b"api".as_slice() {
        Some(Origin::Api)
    } else {
        None
    }
}

/// `<origin> <trusted> <text>`: adds the sections of a text.
fn read(alloc: Global, file: &mut File, rest: &[u8]) -> Result<(), ConfigError> {
    let (origin, rest) = split_word(rest);
    let (trusted, text) = split_word(rest);
    let origin = origin_of(origin).unwrap_or(Origin::Local);
    let text = decoded(alloc, text)?;
    let meta = meta(origin, trusted == b"trusted".as_slice());
    file.append(alloc, &File::read(alloc, text.as_slice(), meta)?)
}

/// `<name> <subsection>`, or a name alone: adds a section.
fn add_section(
    alloc: Global,
    file: &mut File,
    rest: &[u8],
    out: &mut Vec<u8>,
) -> Result<(), ConfigError> {
    let (name, sub) = split_word(rest);
    let text = decoded(alloc, sub)?;
    let sub = if sub.is_empty() {
        None
    } else {
        Some(text.as_slice())
    };
    let index = file.push_section(alloc, name, sub, meta(Origin::Local, true))?;
    Ok(say_number(out, b"section", index)?)
}

/// The place of a section that there is, and what follows it.
fn section_at<'a>(file: &File, rest: &'a [u8]) -> (usize, &'a [u8])
    ensures { result.0 ≤ length file.now.sections }
{
    let (index, rest) = split_word(rest);
    let count = file.section_count();
    let index = decimal(index).unwrap_or(u64::MAX) as usize;
    (index.min(count), rest)
}

/// `<section> <key> <value>`: adds an entry.
fn add_value(alloc: Global, file: &mut File, rest: &[u8]) -> Result<(), ConfigError> {
    let (index, rest) = section_at(file, rest);
    let (key, value) = split_word(rest);
    let value = decoded(alloc, value)?;
    if index < file.section_count() {
        file.push_value(alloc, index, key, value.as_slice())?;
    }
    Ok(())
}

/// `<section> <key>`: removes the entries of a key, or without a key the section.
fn remove(file: &mut File, rest: &[u8]) {
    let (index, key) = section_at(file, rest);
    if index < file.section_count() {
        if key.is_empty() {
            file.remove_section(index);
        } else {
            file.remove_key(index, key);
        }
    }
}

fn add_copy(alloc: Global, file: &mut File) -> Result<(), ConfigError> {
    let copy = file.try_clone(alloc)?;
    file.append(alloc, &copy)
}

fn add_override(alloc: Global, file: &mut File, text: &[u8]) -> Result<(), ConfigError> {
    let text = decoded(alloc, text)?;
    file.apply_override(alloc, text.as_slice())
}

/// `<origin>`: tells the text of the sections of a source, or of all.
fn write(alloc: Global, file: &File, origin: &[u8], out: &mut Vec<u8>) -> Result<(), ConfigError> {
    let text = file.write(alloc, origin_of(origin))?;
    out.extend_from_slice(text.as_bytes())?;
    Ok(())
}

/// Edits or writes the configuration. None where neither is asked for.
fn edit(
    alloc: Global,
    file: &mut File,
    question: Question<'_>,
    out: &mut Vec<u8>,
) -> Option<Result<(), ConfigError>> {
    let Question { what, rest } = question;
    if what == b"read".as_slice() {
        Some(read(alloc, file, rest))
    } else if what == b"section".as_slice() {
        Some(add_section(alloc, file, rest, out))
    } else if what == b"value".as_slice() {
        Some(add_value(alloc, file, rest))
    } else if what == b"override".as_slice() {
        Some(add_override(alloc, file, rest))
    } else if what == b"double".as_slice() {
        Some(add_copy(alloc, file))
    } else if what == b"remove".as_slice() {
        remove(file, rest);
        Some(Ok(()))
    } else if what == b"write".as_slice() {
        Some(write(alloc, file, rest, out))
    } else {
        None
    }
}

/// An entry of a configuration.
#[derive(Clone, Copy)]
struct Key<'a> {
    section: &'a [u8],
    sub: Option<&'a [u8]>,
    name: &'a [u8],
    trusted: bool,
}

fn tell_string(file: &File, key: &Key<'_>, out: &mut Vec<u8>) -> Result<(), NoMemory> {
    match file.string(key.section, key.sub, key.name, key.trusted) {
        Some(value) => say(out, &[b"value", value]),
        None => say(out, &[b"none"]),
    }
}

fn tell_strings(
    alloc: Global,
    file: &File,
    key: &Key<'_>,
    out: &mut Vec<u8>,
) -> Result<(), NoMemory> {
    match file.strings(alloc, key.section, key.sub, key.name, key.trusted) {
        Ok(values) => {
            for value in values.as_slice() {
                say(out, &[b"value", value.as_bytes()])?;
            }
            Ok(())
        }
        Err(_) => Err(NoMemory),
    }
}

fn tell_boolean(file: &File, key: &Key<'_>, out: &mut Vec<u8>) -> Result<(), NoMemory> {
    match file.boolean(key.section, key.sub, key.name, key.trusted) {
        Some(Ok(true)) => say(out, &[b"true"]),
        Some(Ok(false)) => say(out, &[b"false"]),
        Some(Err(e)) => refuse(out, &e),
        None => say(out, &[b"none"]),
    }
}

fn tell_integer(file: &File, key: &Key<'_>, out: &mut Vec<u8>) -> Result<(), NoMemory> {
    match file.integer(key.section, key.sub, key.name, key.trusted) {
        Some(Ok(number)) => say_printed(out, b"number", &number),
        Some(Err(e)) => refuse(out, &e),
        None => say(out, &[b"none"]),
    }
}

/// `<trusted> <section> <key> <subsection>`, or without a subsection: looks an entry up. Whether that is asked for.
fn look_up(
    alloc: Global,
    file: &File,
    question: Question<'_>,
    out: &mut Vec<u8>,
) -> Result<bool, NoMemory> {
    let what = question.what;
    let (trusted, rest) = split_word(question.rest);
    let (section, rest) = split_word(rest);
    let (name, sub) = split_word(rest);
    let key = Key {
        section,
        sub: if sub.is_empty() { None } else { Some(sub) },
        name,
        trusted: trusted == b"trusted".as_slice(),
    };
    if what == b"string".as_slice() {
        tell_string(file, &key, out)?;
    } else if what == b"strings".as_slice() {
        tell_strings(alloc, file, &key, out)?;
    } else if what == b"boolean".as_slice() {
        tell_boolean(file, &key, out)?;
    } else if what == b"integer".as_slice() {
        tell_integer(file, &key, out)?;
    } else if what == b"count".as_slice() {
        say_number(out, b"sections", file.section_count())?;
    } else {
        return Ok(false);
    }
    Ok(true)
}

/// Tells what is asked of the configuration. Whether something is.
pub(crate) fn ask(
    alloc: Global,
    file: &mut File,
    question: Question<'_>,
    out: &mut Vec<u8>,
) -> Result<bool, NoMemory> {
    match edit(alloc, file, question, out) {
        Some(Ok(())) => Ok(true),
        Some(Err(e)) => {
            refuse(out, &e.try_clone()?)?;
            Ok(true)
        }
        None => look_up(alloc, file, question, out),
    }
}
