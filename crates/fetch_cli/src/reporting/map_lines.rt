//! What a report tells of a mapping.

ghost use Rattle.std.specs.Prelude.{◌≡◌, ◌++◌, OnOk};
ghost use Rattle.fetch_lines.specs.References.{name_in};
ghost use Rattle.fetch_update.specs.Modes.{mode_text};
ghost use Rattle.fetch_cli.specs.MapLines as spec;

use fetch_store::{NoMemory, Text, append_hex, append_number};
use fetch_update::{Mode, TypeChange, Update};
use fetch_wire::{Mapping, Ref, Source};
use std::io::Write;

fn append_source(out: &mut Vec<u8>, source: &Source) -> Result<(), NoMemory>
    ensures { OnOk result (out.new.items ≡ out.old.items ++ spec.source_text source.now) }
{
    match source {
        Source::ObjectId(id) => append_hex(out, id),
        Source::Ref(reference) => append_name(out, reference),
    }
}

fn append_name(out: &mut Vec<u8>, reference: &Ref) -> Result<(), NoMemory>
    ensures { OnOk result (out.new.items ≡ out.old.items ++ name_in reference.now) }
{
    out.extend_from_slice(reference.unpack().0)?;
    Ok(())
}

#[tactic(auto, unfolding(crate::specs::MapLines::destination_text))]
fn append_destination(out: &mut Vec<u8>, destination: &Option<Text>) -> Result<(), NoMemory>
    ensures { OnOk result (out.new.items ≡ out.old.items ++ spec.destination_text destination.now) }
{
    match destination {
        Some(name) => out.extend_from_slice(name.as_bytes())?,
        None => out.extend_from_slice(b"(none)")?,
    }
    Ok(())
}

/// A mode, as it is displayed. What is written into memory fails only where memory runs out.
fn append_mode(out: &mut Vec<u8>, mode: &Mode) -> Result<(), NoMemory>
    ensures { OnOk result (out.new.items ≡ out.old.items ++ mode_text mode.now) }
{
    match write!(out, "{mode}") {
        Ok(()) => Ok(()),
        Err(_) => Err(NoMemory),
    }
}

#[tactic(auto, unfolding(crate::specs::MapLines::type_change_text))]
fn append_type_change(out: &mut Vec<u8>, change: Option<TypeChange>) -> Result<(), NoMemory>
    ensures { OnOk result (out.new.items ≡ out.old.items ++ spec.type_change_text change) }
{
    match change {
        Some(TypeChange::SymbolicToDirect) => out.extend_from_slice(b" [symbolic-to-direct]")?,
        Some(TypeChange::DirectToSymbolic) | None => {}
    }
    Ok(())
}

#[tactic(auto, unfolding(crate::specs::MapLines::map_front))]
fn append_map_front(out: &mut Vec<u8>, index: usize, mapping: &Mapping) -> Result<(), NoMemory>
    ensures { OnOk result (out.new.items ≡ out.old.items ++ spec.map_front index mapping.now) }
{
    out.extend_from_slice(b"map ")?;
    append_number(out, index)?;
    out.extend_from_slice(b" ")?;
    append_source(out, &mapping.remote)?;
    out.extend_from_slice(b" -> ")?;
    append_destination(out, &mapping.local)
}

#[tactic(auto, unfolding(crate::specs::MapLines::map_back))]
fn append_map_back(out: &mut Vec<u8>, update: &Update) -> Result<(), NoMemory>
    ensures { OnOk result (out.new.items ≡ out.old.items ++ spec.map_back update.now) }
{
    out.extend_from_slice(b": ")?;
    append_mode(out, &update.mode)?;
    append_type_change(out, update.type_change)?;
    out.extend_from_slice(b"\n")?;
    Ok(())
}

/// What became of a mapping. The mapping is that of the update's index.
pub fn append_map(out: &mut Vec<u8>, update: &Update, mapping: &Mapping) -> Result<(), NoMemory>
    ensures { OnOk result (out.new.items ≡ out.old.items ++ spec.map_line update.now mapping.now) }
{
    append_map_front(out, update.mapping_index, mapping)?;
    append_map_back(out, update)
}
