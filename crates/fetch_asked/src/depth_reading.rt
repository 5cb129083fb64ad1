//! The depth lines of a fetch request.

ghost use Rattle.std.specs.Prelude.{◌≡◌, option_map, option_and_then, IfOk};
ghost use Rattle.fetch_asked.specs.RequestTexts as texts;
ghost use Rattle.fetch_asked.specs.Requests as spec;
ghost use Rattle.fetch_asked.specs.declared.fetch_reading.Detail.TheVariants as details;
ghost use Rattle.fetch_base.specs.Scan.{after};
ghost use Rattle.fetch_lines.specs.RequestWords as words;

use crate::fetch_reading::Detail;
use fetch_specs::{NameError, PartialName};
use fetch_store::{NoMemory, after, decimal, is_decimal};
use std::alloc::Global;

fn is_number(text: &[u8]) -> bool
    ensures { result ≡ texts.is_number text.now }
{
    match text {
        [] => false,
        [_] => is_decimal(text),
        [first, _, ..] => *first != b'0' && is_decimal(text),
    }
}

/// The number of 64 bits that a text writes in decimal digits, without a leading zero.
#[tactic(auto, using(crate::proofs::Digits::number_is, crate::proofs::Digits::no_number))]
fn number(text: &[u8]) -> Option<u64>
    ensures { result ≡ texts.number_in text.now }
{
    if is_number(text) { decimal(text) } else { None }
}

/// The same of 32 bits.
#[tactic(auto, unfolding(crate::specs::RequestTexts::small_number_in))]
fn small_number(text: &[u8]) -> Option<u32>
    ensures { result ≡ texts.small_number_in text.now }
{
    let number = number(text)?;
    if number < 1 << 32 {
        Some(number as u32)
    } else {
        None
    }
}

/// The depth of `deepen`.
#[tactic(auto, unfolding(fetch_lines::specs::RequestWords::deepen_word))]
fn depth_behind(text: &[u8]) -> Option<u32>
    ensures { result ≡ option_and_then texts.small_number_in (after words.deepen_word text.now) }
{
    small_number(after(b"deepen ", text)?)
}

/// The seconds of `deepen-since`.
#[tactic(auto, unfolding(fetch_lines::specs::RequestWords::since_word))]
fn cutoff_behind(text: &[u8]) -> Option<u64>
    ensures { result ≡ option_and_then texts.number_in (after words.since_word text.now) }
{
    number(after(b"deepen-since ", text)?)
}

/// A name, whole or short, where the text is one.
fn name_of(alloc: Global, text: &[u8]) -> Result<Option<PartialName>, NoMemory>
    ensures { IfOk result (λ name. name ≡ texts.if_name text.now) }
{
    match PartialName::new(alloc, text) {
        Ok(name) => Ok(Some(name)),
        Err(NameError::Invalid { .. }) => Ok(None),
        Err(NameError::NoMemory) => Err(NoMemory),
    }
}

/// The name of `deepen-not`.
#[tactic(auto, unfolding(fetch_lines::specs::RequestWords::not_word))]
fn name_behind(alloc: Global, text: &[u8]) -> Result<Option<PartialName>, NoMemory>
    ensures { IfOk result (λ name. name ≡ option_and_then texts.if_name (after words.not_word text.now)) }
{
    match after(b"deepen-not ", text) {
        Some(name) => name_of(alloc, name),
        None => Ok(None),
    }
}

fn excluded_in(alloc: Global, text: &[u8]) -> Result<Option<Detail>, NoMemory>
    ensures { IfOk result (λ detail. detail ≡ option_map details.Not (option_and_then texts.if_name (after words.not_word text.now))) }
{
    match name_behind(alloc, text)? {
        Some(name) => Ok(Some(Detail::Not(name))),
        None => Ok(None),
    }
}

/// What a line says of the depth.
#[tactic(auto, unfolding(crate::specs::Requests::depth_in, fetch_lines::specs::RequestWords::relative_word))]
pub(crate) fn depth_in(alloc: Global, text: &[u8]) -> Result<Option<Detail>, NoMemory>
    ensures { IfOk result (λ detail. detail ≡ spec.depth_in text.now) }
{
    if text == b"deepen-relative".as_slice() {
        return Ok(Some(Detail::Relative));
    }
    if let Some(depth) = depth_behind(text) {
        return Ok(Some(Detail::Deepen(depth)));
    }
    if let Some(cutoff) = cutoff_behind(text) {
        return Ok(Some(Detail::Since(cutoff)));
    }
    excluded_in(alloc, text)
}
