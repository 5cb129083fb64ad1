//! A line of a configuration.

ghost use Rattle.std.specs.Prelude.{◌≡◌, IfOk, option_map};
ghost use Rattle.fetch_config.specs.Lines as spec;

use crate::text::{
    NUL, behind, is_blank, is_comment_sign, is_key, is_name, is_nothing, name_len, skip_blanks,
};
use crate::value::{subsection_of, value_of};
use fetch_base::{NoMemory, Text};
use std::alloc::Global;

/// What a line says.
// Not copied: a line is read, and taken apart at once.
#[derive(Debug, Drop)]
pub enum Line {
    /// Blanks or a comment.
    Nothing,
    /// A section begins: its name, and its subsection where it has one.
    Header(Text, Option<Text>),
    /// An entry: its key, and its value where it has one.
    Entry(Text, Option<Text>),
}

/// What a line says. None where it breaks the grammar.
#[tactic(auto, unfolding(crate::specs::Lines::line_of))]
pub(crate) fn line_of(alloc: Global, text: &[u8]) -> Result<Option<Line>, NoMemory>
    ensures { IfOk result (λ line. line ≡ spec.line_of text.now) }
{
    if has_nul(text) {
        return Ok(None);
    }
    line_at(alloc, skip_blanks(text))
}

fn has_nul(text: &[u8]) -> bool
    ensures { result ≡ spec.has_nul text.now }
{
    text.iter().any(|c| *c == NUL)
}

fn line_at(alloc: Global, text: &[u8]) -> Result<Option<Line>, NoMemory>
    ensures { IfOk result (λ line. line ≡ spec.line_at text.now) }
{
    let [first, others @ ..] = text else {
        return Ok(Some(Line::Nothing));
    };
    if is_comment_sign(*first) {
        return Ok(Some(Line::Nothing));
    }
    if *first == b'[' {
        return header_of(alloc, others);
    }
    entry_of(alloc, text)
}

fn header_of(alloc: Global, text: &[u8]) -> Result<Option<Line>, NoMemory>
    ensures { IfOk result (λ line. line ≡ spec.header_of text.now) }
{
    let (name, others) = text.split_at(name_len(text));
    if is_name(name) {
        header_behind(alloc, name, others)
    } else {
        Ok(None)
    }
}

fn header_behind(alloc: Global, name: &[u8], text: &[u8]) -> Result<Option<Line>, NoMemory>
    ensures { IfOk result (λ line. line ≡ spec.header_behind name.now text.now) }
{
    let [first, others @ ..] = text else {
        return Ok(None);
    };
    if *first == b']' {
        return header_before(alloc, name, None, others);
    }
    if is_blank(*first) {
        return header_with_sub(alloc, name, others);
    }
    Ok(None)
}

fn header_with_sub(alloc: Global, name: &[u8], text: &[u8]) -> Result<Option<Line>, NoMemory>
    ensures { IfOk result (λ line. line ≡ spec.header_with_sub name.now text.now) }
{
    let Some(quoted) = behind(b'"', skip_blanks(text)) else {
        return Ok(None);
    };
    let Some((sub, others)) = subsection_of(alloc, quoted)? else {
        return Ok(None);
    };
    let Some(tail) = behind(b']', others) else {
        return Ok(None);
    };
    header_before(alloc, name, Some(Text::from(sub)), tail)
}

fn header_before(
    alloc: Global,
    name: &[u8],
    sub: Option<Text>,
    tail: &[u8],
) -> Result<Option<Line>, NoMemory>
    ensures { IfOk result (λ line. line ≡ spec.header_before name.now sub tail.now) }
{
    if is_nothing(tail) {
        Ok(Some(Line::Header(Text::new(alloc, name)?, sub)))
    } else {
        Ok(None)
    }
}

fn entry_of(alloc: Global, text: &[u8]) -> Result<Option<Line>, NoMemory>
    ensures { IfOk result (λ line. line ≡ spec.entry_of text.now) }
{
    let (key, others) = text.split_at(name_len(text));
    if is_key(key) {
        entry_behind(alloc, key, skip_blanks(others))
    } else {
        Ok(None)
    }
}

fn entry_behind(alloc: Global, key: &[u8], text: &[u8]) -> Result<Option<Line>, NoMemory>
    ensures { IfOk result (λ line. line ≡ spec.entry_behind key.now text.now) }
{
    let [first, others @ ..] = text else {
        return Ok(Some(Line::Entry(Text::new(alloc, key)?, None)));
    };
    if *first != b'=' {
        return Ok(None);
    }
    let Some(value) = value_of(alloc, others)? else {
        return Ok(None);
    };
    Ok(Some(Line::Entry(Text::new(alloc, key)?, Some(Text::from(value)))))
}
