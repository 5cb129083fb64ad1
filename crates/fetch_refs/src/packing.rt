//! The text of the packed list.

ghost use Rattle.std.specs.Prelude.{◌≡◌, ◌++◌, OnOk, IfOk};
ghost use Rattle.std.specs.FinMap as map;
ghost use Rattle.std.specs.List.{list_all};
ghost use Rattle.fetch_refs.specs.Contents.{shown_in, names_of, list_of, listed};
ghost use Rattle.fetch_refs.specs.Packed.{all_direct, packed_text};
ghost use Rattle.fetch_refs.specs.Packing.{line_if, same_option, keeps_packed};
ghost use Rattle.fetch_refs.specs.Slots.{over, each};

use crate::contents::Contents;
use crate::slot::{Listed, Slot};
use crate::undo::Undo;
use fetch_specs::FullName;
use fetch_store::{NoMemory, ObjectId, Text};
use std::alloc::Global;
use std::collections::BTreeMap;

/// The text of a list that the places keep.
pub(crate) fn text_of(
    alloc: Global,
    names: &BTreeMap<FullName, Slot>,
    list: Listed,
) -> Result<Text, NoMemory>
    ensures { IfOk result (λ text. text ≡ packed_text (over map.empty (each (listed list) names.now.entries))) }
{
    let mut text = Vec::new(alloc);
    // The names ascend.
    let _count = names.len();
    'names: for (name, slot) in names {
        push_line(alloc, &mut text, name, slot.listed(list))?;
    }
    Ok(Text::from(text))
}

/// Puts each direct reference into the packed list, and nothing else. Places that hold nothing go. This takes no memory.
pub(crate) fn pack_all(names: &mut BTreeMap<FullName, Slot>)
    ensures names { names_of names.new.entries ≡ names_of names.old.entries }
    ensures packed { list_of names.new.entries ≡ all_direct (names_of names.old.entries) }
{
    names.retain(|_, slot| slot.pack());
}

/// Empties the packed list. Places that hold nothing go. This takes no memory.
pub(crate) fn unpack_all(names: &mut BTreeMap<FullName, Slot>)
    ensures names { names_of names.new.entries ≡ names_of names.old.entries }
    ensures packed { list_of names.new.entries ≡ map.empty }
{
    names.retain(|_, slot| slot.unpack());
}

/// Adds the line of a name that the list has.
fn push_line(
    alloc: Global,
    text: &mut Vec<u8>,
    name: &FullName,
    id: Option<ObjectId>,
) -> Result<(), NoMemory>
    ensures { OnOk result (text.new.items ≡ text.old.items ++ line_if name.now id) }
{
    match id {
        Some(id) => {
            let Ok(digits) = id.to_hex(alloc) else {
                return Err(NoMemory);
            };
            text.extend_from_slice(digits.as_bytes())?;
            text.push(b' ')?;
            text.extend_from_slice(name.as_bytes())?;
            text.push(b'\n')?;
            Ok(())
        }
        None => Ok(()),
    }
}

/// Whether the list has at each changed name what it had.
pub(crate) fn keeps_list(contents: &Contents, changes: &[Undo]) -> bool
    ensures { result ≡ list_all (keeps_packed (shown_in contents.now).packed) changes.now }
{
    changes.iter().all(|change| keeps(contents, change))
}

fn keeps(contents: &Contents, change: &Undo) -> bool
    ensures { result ≡ keeps_packed (shown_in contents.now).packed change.now }
{
    match change {
        Undo::Target { name, old } => is_same(contents.packed_id(name), old.packed),
        Undo::Line { .. } => true,
        Undo::Lines { .. } => true,
    }
}

#[tactic(auto, using(fetch_base::proofs::Orders::eq_is))]
fn is_same(id: Option<ObjectId>, other: Option<ObjectId>) -> bool
    ensures { result ≡ same_option id other }
{
    match (id, other) {
        (Some(id), Some(other)) => id == other,
        (None, None) => true,
        (None, Some(_)) => false,
        (Some(_), None) => false,
    }
}
