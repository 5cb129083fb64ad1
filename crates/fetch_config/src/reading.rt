//! Reading a configuration, line by line.

ghost use Rattle.std.specs.Prelude.{◌≡◌, ◌<◌, ◌+◌, length, IfOk, OnOk, IfErr, None, Some, [], ◌∷◌};
ghost use Rattle.fetch_config.specs.Contents.{IsRefusedAt};
ghost use Rattle.fetch_config.specs.Lines as lines;
ghost use Rattle.fetch_config.specs.Reading as spec;

use crate::error::ConfigError;
use crate::line::{Line, line_of};
use crate::meta::Meta;
use crate::section::{Section, push_entry};
use crate::text::first_line;
use fetch_base::{List, NoMemory, Text};
use std::alloc::Global;

/// The sections of a text.
pub(crate) fn read_sections(
    alloc: Global,
    text: &[u8],
    meta: &Meta,
) -> Result<Vec<Section>, ConfigError>
    ensures accepted { OnOk result (lines.broken_line text.now ≡ None) }
    ensures sections { IfOk result (λ sections. sections.items ≡ lines.sections_of meta.now text.now) }
    ensures refused { IfErr result (IsRefusedAt (lines.broken_line text.now)) }
{
    let mut sections = Vec::new(alloc);
    let mut rest = text;
    let mut number = 0;
    while !rest.is_empty() {
        let (line, behind) = first_line(rest);
        number += 1;
        if !take_line(alloc, &mut sections, line, meta)? {
            return Err(ConfigError::Syntax { line: number });
        }
        rest = behind;
    }
    Ok(sections)
}

/// Takes one line more, and says whether it fits the grammar where it stands.
fn take_line(
    alloc: Global,
    sections: &mut Vec<Section>,
    text: &[u8],
    meta: &Meta,
) -> Result<bool, NoMemory>
    ensures fits { IfOk result (λ fits. fits ≡ lines.fits_behind (spec.is_opened sections.old.items) (lines.line_of text.now)) }
    ensures sections { OnOk result (sections.new.items ≡ spec.after_line meta.now sections.old.items (lines.line_of text.now)) }
{
    let Some(line) = line_of(alloc, text)? else {
        return Ok(false);
    };
    match line {
        Line::Nothing => Ok(true),
        Line::Header(name, sub) => {
            open_section(alloc, sections, name, sub, meta)?;
            Ok(true)
        }
        Line::Entry(key, value) => add_to_last(sections, key, value),
    }
}

fn open_section(
    alloc: Global,
    sections: &mut Vec<Section>,
    name: Text,
    sub: Option<Text>,
    meta: &Meta,
) -> Result<(), NoMemory>
    ensures { OnOk result (sections.new.items ≡ spec.after_line meta.now sections.old.items (Some (Line.Header name sub))) }
{
    sections.push(Section {
        name,
        sub,
        meta: meta.try_clone()?,
        entries: List::new(alloc),
    })?;
    Ok(())
}

/// Adds an entry to the last section, if there is one.
fn add_to_last(
    sections: &mut Vec<Section>,
    key: Text,
    value: Option<Text>,
) -> Result<bool, NoMemory>
    ensures fits { IfOk result (λ fits. fits ≡ spec.is_opened sections.old.items) }
    ensures sections { OnOk result (sections.new.items ≡ spec.with_entries sections.old.items ((key, value) ∷ [])) }
{
    if sections.is_empty() {
        return Ok(false);
    }
    let last = sections.len() - 1;
    push_entry(sections, last, key, value)?;
    Ok(true)
}
