//! Copies and comparisons of what a store keeps.

use fetch_store::{List, NoMemory, Text, decimal};
use rows::{Question, say, split_word};
use std::alloc::Global;

/// `<text>`: copies it.
fn tell_copy(alloc: Global, text: &[u8], out: &mut Vec<u8>) -> Result<(), NoMemory> {
    let copy = Text::new(alloc, text)?.try_clone()?;
    say(out, &[b"copy", copy.as_bytes()])
}

fn numbers_of(alloc: Global, text: &[u8]) -> Result<List<u64>, NoMemory> {
    let mut numbers = List::new(alloc);
    for digits in text.split(|b| *b == b',') {
        if let Some(number) = decimal(digits) {
            numbers.push(number)?;
        }
    }
    Ok(numbers)
}

/// `<numbers> <numbers>`: whether these lists are equal.
fn tell_equality(alloc: Global, rest: &[u8], out: &mut Vec<u8>) -> Result<(), NoMemory> {
    let (one, other) = split_word(rest);
    if numbers_of(alloc, one)? == numbers_of(alloc, other)? {
        say(out, &[b"equal"])
    } else {
        say(out, &[b"different"])
    }
}

/// Tells what is asked of copies. Whether something is.
pub(crate) fn ask(
    alloc: Global,
    question: Question<'_>,
    out: &mut Vec<u8>,
) -> Result<bool, NoMemory> {
    if question.what == b"copy".as_slice() {
        tell_copy(alloc, question.rest, out)?;
    } else if question.what == b"compare".as_slice() {
        tell_equality(alloc, question.rest, out)?;
    } else {
        return Ok(false);
    }
    Ok(true)
}
