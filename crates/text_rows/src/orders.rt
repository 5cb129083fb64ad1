//! Orders of what a configuration says.

use fetch_lookup::{Name, push};
use fetch_store::{NoMemory, Text, after};
use rows::{say, split_word};
use std::alloc::Global;
use std::cmp::Ordering;

fn tell_order(out: &mut Vec<u8>, order: Ordering) -> Result<bool, NoMemory> {
    match order {
        Ordering::Less => say(out, &[b"less"])?,
        Ordering::Equal => say(out, &[b"equal"])?,
        Ordering::Greater => say(out, &[b"greater"])?,
    }
    Ok(true)
}

/// A symbol, or behind a colon a place.
fn name_of(alloc: Global, word: &[u8]) -> Result<Name, NoMemory> {
    match after(b":", word) {
        Some(place) => Ok(Name::Url(Text::new(alloc, place)?)),
        None => Ok(Name::Symbol(Text::new(alloc, word)?)),
    }
}

/// `<name> <name>`: the order of two names of remotes, or of a name and its copy where one stands alone.
fn tell_names(alloc: Global, rest: &[u8], out: &mut Vec<u8>) -> Result<bool, NoMemory> {
    let (one, other) = split_word(rest);
    let one = name_of(alloc, one)?;
    let other = if other.is_empty() {
        one.try_clone()?
    } else {
        name_of(alloc, other)?
    };
    tell_order(out, one.cmp(&other))
}

fn choice_of(word: &[u8]) -> Option<push::Default> {
    for (name, choice) in [
        (b"nothing".as_slice(), push::Default::Nothing),
        (b"current".as_slice(), push::Default::Current),
        (b"upstream".as_slice(), push::Default::Upstream),
        (b"simple".as_slice(), push::Default::Simple),
        (b"matching".as_slice(), push::Default::Matching),
    ] {
        if word == name {
            return Some(choice);
        }
    }
    None
}

/// `<choice> <choice>`: the order of two choices of what is pushed. Whether the words are these.
fn tell_choices(rest: &[u8], out: &mut Vec<u8>) -> Result<bool, NoMemory> {
    let (one, other) = split_word(rest);
    match (choice_of(one), choice_of(other)) {
        (Some(one), Some(other)) => tell_order(out, one.cmp(&other)),
        _ => Ok(false),
    }
}

/// `names <name> <name>` or `pushes <choice> <choice>`: tells their order. Whether the words are these.
pub(crate) fn ask(alloc: Global, rest: &[u8], out: &mut Vec<u8>) -> Result<bool, NoMemory> {
    let (what, rest) = split_word(rest);
    if what == b"names".as_slice() {
        tell_names(alloc, rest, out)
    } else if what == b"pushes".as_slice() {
        tell_choices(rest, out)
    } else {
        Ok(false)
    }
}
