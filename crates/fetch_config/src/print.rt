//! Writing a configuration.

ghost use Rattle.std.specs.Prelude.{◌≡◌, ◌++◌, OnOk, IfOk};
ghost use Rattle.std.specs.List.{flat_map, list_any};
ghost use Rattle.fetch_config.specs.Pieces.{is_comment_sign};
ghost use Rattle.fetch_config.specs.Print as spec;

use crate::meta::Origin;
use crate::section::Section;
use crate::text::{CR, is_blank, is_comment_sign};
use fetch_base::{NoMemory, Text};
use std::alloc::Global;

fn push_value_byte(out: &mut Vec<u8>, c: u8) -> Result<(), NoMemory>
    ensures { OnOk result (out.new.items ≡ out.old.items ++ spec.value_byte c) }
{
    match c {
        b'\\' => out.extend_from_slice(b"\\\\")?,
        b'"' => out.extend_from_slice(b"\\\"")?,
        b'\n' => out.extend_from_slice(b"\\n")?,
        b'\t' => out.extend_from_slice(b"\\t")?,
        8 => out.extend_from_slice(b"\\b")?,
        _ => out.push(c)?,
    }
    Ok(())
}

fn push_escaped(out: &mut Vec<u8>, text: &[u8]) -> Result<(), NoMemory>
    ensures { OnOk result (out.new.items ≡ out.old.items ++ spec.escaped text.now) }
{
    for c in text {
        push_value_byte(out, *c)?;
    }
    Ok(())
}

fn is_edge(c: Option<u8>) -> bool
    ensures { result ≡ spec.is_edge c }
{
    match c {
        Some(c) => is_blank(c) || c == CR,
        None => true,
    }
}

fn has_comment_sign(text: &[u8]) -> bool
    ensures { result ≡ list_any is_comment_sign text.now }
{
    text.iter().any(|c| is_comment_sign(*c))
}

fn needs_quotes(text: &[u8]) -> bool
    ensures { result ≡ spec.needs_quotes text.now }
{
    is_edge(text.first().copied()) || is_edge(text.last().copied()) || has_comment_sign(text)
}

#[tactic(auto, unfolding(crate::specs::Print::value_text))]
fn push_value(out: &mut Vec<u8>, text: &[u8]) -> Result<(), NoMemory>
    ensures { OnOk result (out.new.items ≡ out.old.items ++ spec.value_text text.now) }
{
    if needs_quotes(text) {
        out.push(b'"')?;
        push_escaped(out, text)?;
        out.push(b'"')?;
        return Ok(());
    }
    push_escaped(out, text)
}

fn push_equals(out: &mut Vec<u8>, value: &Option<Text>) -> Result<(), NoMemory>
    ensures { OnOk result (out.new.items ≡ out.old.items ++ spec.equals_text value.now) }
{
    match value {
        Some(value) => {
            out.extend_from_slice(b" = ")?;
            push_value(out, value.as_bytes())
        }
        None => Ok(()),
    }
}

fn push_line(out: &mut Vec<u8>, entry: &(Text, Option<Text>)) -> Result<(), NoMemory>
    ensures { OnOk result (out.new.items ≡ out.old.items ++ spec.entry_text entry.now) }
{
    out.push(b'\t')?;
    out.extend_from_slice(entry.0.as_bytes())?;
    push_equals(out, &entry.1)?;
    out.push(b'\n')?;
    Ok(())
}

fn push_lines(out: &mut Vec<u8>, entries: &[(Text, Option<Text>)]) -> Result<(), NoMemory>
    ensures { OnOk result (out.new.items ≡ out.old.items ++ flat_map spec.entry_text entries.now) }
{
    for entry in entries {
        push_line(out, entry)?;
    }
    Ok(())
}

fn push_sub_byte(out: &mut Vec<u8>, c: u8) -> Result<(), NoMemory>
    ensures { OnOk result (out.new.items ≡ out.old.items ++ spec.sub_byte c) }
{
    match c {
        b'\\' => out.extend_from_slice(b"\\\\")?,
        b'"' => out.extend_from_slice(b"\\\"")?,
        _ => out.push(c)?,
    }
    Ok(())
}

fn push_sub_bytes(out: &mut Vec<u8>, text: &[u8]) -> Result<(), NoMemory>
    ensures { OnOk result (out.new.items ≡ out.old.items ++ flat_map spec.sub_byte text.now) }
{
    for c in text {
        push_sub_byte(out, *c)?;
    }
    Ok(())
}

fn push_sub(out: &mut Vec<u8>, sub: &Option<Text>) -> Result<(), NoMemory>
    ensures { OnOk result (out.new.items ≡ out.old.items ++ spec.sub_text sub.now) }
{
    match sub {
        Some(sub) => {
            out.extend_from_slice(b" \"")?;
            push_sub_bytes(out, sub.as_bytes())?;
            out.push(b'"')?;
            Ok(())
        }
        None => Ok(()),
    }
}

fn push_header(out: &mut Vec<u8>, section: &Section) -> Result<(), NoMemory>
    ensures { OnOk result (out.new.items ≡ out.old.items ++ spec.header_text section.now) }
{
    out.push(b'[')?;
    out.extend_from_slice(section.name.as_bytes())?;
    push_sub(out, &section.sub)?;
    out.extend_from_slice(b"]\n")?;
    Ok(())
}

fn push_section(out: &mut Vec<u8>, section: &Section) -> Result<(), NoMemory>
    ensures { OnOk result (out.new.items ≡ out.old.items ++ spec.section_text section.now) }
{
    push_header(out, section)?;
    push_lines(out, section.entries.as_slice())
}

fn is_of(origin: Option<Origin>, section: &Section) -> bool
    ensures { result ≡ spec.is_of origin section.now }
{
    match origin {
        Some(origin) => section.meta.source == origin,
        None => true,
    }
}

fn push_if_of(out: &mut Vec<u8>, origin: Option<Origin>, section: &Section) -> Result<(), NoMemory>
    ensures { OnOk result (out.new.items ≡ out.old.items ++ spec.text_if_of origin section.now) }
{
    if is_of(origin, section) {
        return push_section(out, section);
    }
    Ok(())
}

/// The text of the sections of this source, or of all sections.
pub(crate) fn text_of(
    alloc: Global,
    sections: &[Section],
    origin: Option<Origin>,
) -> Result<Vec<u8>, NoMemory>
    ensures { IfOk result (λ text. text.items ≡ spec.text_of (spec.of_origin origin sections.now)) }
{
    let mut out = Vec::new(alloc);
    for section in sections {
        push_if_of(&mut out, origin, section)?;
    }
    Ok(out)
}
