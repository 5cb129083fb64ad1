//! Copies of maps of names. What holds nothing isn't copied: places of names that are gone, and reflogs without lines.

ghost use Rattle.std.specs.Prelude.{◌≡◌, IfOk, OnOk};
ghost use Rattle.std.specs.BTreeMap.{insert_entry, IsOrdered};
ghost use Rattle.fetch_refs.specs.Contents.{shown_in, held};
ghost use Rattle.fetch_refs.specs.Iter.{standing};
ghost use Rattle.fetch_refs.specs.Names.{name_cmp};
ghost use Rattle.fetch_refs.specs.Overlay.{shown_lines};
ghost use Rattle.fetch_refs.specs.Slots.{each};

use crate::contents::Contents;
use crate::log::LogLine;
use crate::slot::Slot;
use crate::target::Target;
use fetch_specs::FullName;
use fetch_store::{List, NoMemory};
use std::alloc::Global;
use std::collections::BTreeMap;

pub(crate) fn copy_contents(contents: &Contents) -> Result<Contents, NoMemory>
    ensures { IfOk result (λ copy. shown_in copy ≡ shown_in contents.now) }
{
    Ok(Contents {
        alloc: contents.alloc,
        hash: contents.hash,
        names: copy_names(contents.alloc, &contents.names)?,
        logs: copy_logs(contents.alloc, &contents.logs)?,
    })
}

fn copy_names(
    alloc: Global,
    names: &BTreeMap<FullName, Slot>,
) -> Result<BTreeMap<FullName, Slot>, NoMemory>
    ensures entries { IfOk result (λ copy. copy.entries ≡ standing (each held names.now.entries)) }
    ensures ordered { IsOrdered name_cmp names.now }
    ensures copied { IfOk result (λ copy. IsOrdered name_cmp copy) }
{
    let mut copy = BTreeMap::new(alloc);
    // The keys ascend.
    let _count = names.len();
    'names: for (name, slot) in names {
        if slot.is_held() {
            add(&mut copy, name.try_clone()?, copy_slot(slot)?)?;
        }
    }
    // So do those of the copy.
    let _copied = copy.len();
    Ok(copy)
}

fn copy_slot(slot: &Slot) -> Result<Slot, NoMemory>
    ensures { IfOk result (λ copy. copy ≡ slot.now) }
{
    Ok(Slot {
        value: copy_value(&slot.value)?,
        packed: slot.packed,
    })
}

/// A copy of a value, if there is one.
pub(crate) fn copy_value(value: &Option<Target>) -> Result<Option<Target>, NoMemory>
    ensures { IfOk result (λ copy. copy ≡ value.now) }
{
    match value {
        Some(target) => Ok(Some(target.try_clone()?)),
        None => Ok(None),
    }
}

fn copy_logs(
    alloc: Global,
    logs: &BTreeMap<FullName, List<LogLine>>,
) -> Result<BTreeMap<FullName, List<LogLine>>, NoMemory>
    ensures entries { IfOk result (λ copy. copy.entries ≡ standing (each shown_lines logs.now.entries)) }
    ensures ordered { IsOrdered name_cmp logs.now }
    ensures copied { IfOk result (λ copy. IsOrdered name_cmp copy) }
{
    let mut copy = BTreeMap::new(alloc);
    // The keys ascend.
    let _count = logs.len();
    'logs: for (name, lines) in logs {
        if !lines.is_empty() {
            add(&mut copy, name.try_clone()?, copy_lines(lines)?)?;
        }
    }
    // So do those of the copy.
    let _copied = copy.len();
    Ok(copy)
}

fn copy_lines(lines: &List<LogLine>) -> Result<List<LogLine>, NoMemory>
    ensures { IfOk result (λ copy. copy ≡ lines.now) }
{
    lines.try_clone_with(LogLine::try_clone)
}

/// Puts a value at a name.
pub(crate) fn add<V: Drop>(
    map: &mut BTreeMap<FullName, V>,
    name: FullName,
    value: V,
) -> Result<(), NoMemory>
    ensures { OnOk result (map.new.entries ≡ insert_entry name_cmp map.old.entries name value) }
{
    map.insert(name, value)?;
    Ok(())
}
