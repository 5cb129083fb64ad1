//! Words of a line.

ghost use Rattle.std.specs.Prelude.{◌≡◌, [], IfOk, unwrap_or};
ghost use Rattle.fetch_base.specs.Scan as scan;
ghost use Rattle.percent_encoding.specs.Percent as percent;

use fetch_specs::{FullName, NameError};
use fetch_store::{NoMemory, split_first};
use percent_encoding::percent_decode;
use std::alloc::Global;

/// The first word of a line, and what follows its space.
pub fn split_word(line: &[u8]) -> (&[u8], &[u8])
    ensures { (result.0.now, result.1.now) ≡ unwrap_or (scan.split_first 32 line.now) (line.now, []) }
{
    match split_first(b' ', line) {
        Some((word, rest)) => (word, rest),
        None => (line, &[]),
    }
}

/// What a line asks.
#[derive(Clone, Copy)]
pub struct Question<'a> {
    /// Its first word.
    pub what: &'a [u8],
    /// What follows the space after it.
    pub rest: &'a [u8],
}

impl<'a> Question<'a> {
    /// The question of a line.
    pub fn of(line: &'a [u8]) -> Question<'a> {
        let (what, rest) = split_word(line);
        Question { what, rest }
    }
}

/// A text in which `%` and two hexadecimal digits stand for a byte.
pub fn decoded(alloc: Global, word: &[u8]) -> Result<Vec<u8>, NoMemory>
    ensures { IfOk result (λ bytes. bytes.items ≡ percent.percent_decode word.now) }
{
    let mut bytes = Vec::new(alloc);
    percent_decode(word).append_to(&mut bytes)?;
    Ok(bytes)
}

/// The full name that a text is. None where it is none.
pub fn name_of(alloc: Global, text: &[u8]) -> Result<Option<FullName>, NoMemory> {
    match FullName::new(alloc, text) {
        Ok(name) => Ok(Some(name)),
        Err(NameError::Invalid { .. }) => Ok(None),
        Err(NameError::NoMemory) => Err(NoMemory),
    }
}
