//! Sections.

ghost use Rattle.std.specs.Prelude.{◌≡◌, ◌<◌, ◌++◌, IfOk, OnOk, OnErr, length, vec_len};
ghost use Rattle.std.specs.Prelude.{take, filter, not};
ghost use Rattle.fetch_config.specs.Contents.{on_section, with_entry, without_key};
ghost use Rattle.fetch_config.specs.Pieces as pieces;

use crate::meta::{Meta, clone_of};
use crate::text::is_same_name;
use fetch_base::{List, NoMemory, Text};
use std::alloc::Global;

/// A section: its header, where it comes from, and its entries in order.
#[derive(Debug, Drop)]
pub struct Section {
    /// The name in its header.
    pub name: Text,
    /// The subsection in its header, where it has one.
    pub sub: Option<Text>,
    /// Where it comes from.
    pub meta: Meta,
    /// Keys and values. An implicit entry has no value.
    pub entries: List<(Text, Option<Text>)>,
}

impl Section {
    /// An equal section.
    pub fn try_clone(&self, alloc: Global) -> Result<Section, NoMemory>
        ensures { IfOk result (λ copy. copy ≡ self.now) }
    {
        Ok(Section {
            name: self.name.try_clone()?,
            sub: clone_of(&self.sub)?,
            meta: self.meta.try_clone()?,
            entries: copy_entries(alloc, self.entries.as_slice())?,
        })
    }
}

fn copy_entries(
    alloc: Global,
    entries: &[(Text, Option<Text>)],
) -> Result<List<(Text, Option<Text>)>, NoMemory>
    ensures { IfOk result (λ copy. copy ≡ entries.now) }
{
    let mut copy = Vec::new(alloc);
    for (key, value) in entries {
        copy.push((key.try_clone()?, clone_of(value)?))?;
    }
    Ok(List::from(copy))
}

/// Adds copies of the sections at the end.
pub(crate) fn push_copies(
    alloc: Global,
    sections: &mut Vec<Section>,
    others: &[Section],
) -> Result<(), NoMemory>
    ensures ok { OnOk result (sections.new.items ≡ sections.old.items ++ others.now) }
    ensures err { OnErr result (take (vec_len sections.old) sections.new.items ≡ sections.old.items) }
{
    for section in others {
        sections.push(section.try_clone(alloc)?)?;
    }
    Ok(())
}

/// Adds an entry to a section.
pub(crate) fn push_entry(
    sections: &mut Vec<Section>,
    index: usize,
    key: Text,
    value: Option<Text>,
) -> Result<(), NoMemory>
    requires { index < vec_len sections.old }
    ensures ok { OnOk result (sections.new.items ≡ on_section index (with_entry (key, value)) sections.old.items) }
    ensures err { OnErr result (sections.new.items ≡ sections.old.items) }
{
    let section = &mut sections[index];
    section.entries.push((key, value))?;
    Ok(())
}

fn keep_others(entries: &mut List<(Text, Option<Text>)>, key: &[u8])
    ensures { entries.new ≡ filter (λ e. not (pieces.is_same_name e.0 key.now)) entries.old }
{
    entries.retain(|entry| !is_same_name(entry.0.as_bytes(), key));
}

/// Removes the entries of a key from a section.
pub(crate) fn remove_entries(sections: &mut Vec<Section>, index: usize, key: &[u8])
    requires { index < vec_len sections.old }
    ensures { sections.new.items ≡ on_section index (without_key key.now) sections.old.items }
{
    let section = &mut sections[index];
    keep_others(&mut section.entries, key);
}
