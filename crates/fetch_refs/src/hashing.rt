//! References of another hash.

ghost use Rattle.std.specs.Prelude.{◌≡◌, true};
ghost use Rattle.std.specs.BTreeMap.{IsOrdered};
ghost use Rattle.std.specs.List.{list_all};
ghost use Rattle.fetch_refs.specs.Contents.{value_of};
ghost use Rattle.fetch_refs.specs.Hashing as spec;
ghost use Rattle.fetch_refs.specs.Iter.{standing};
ghost use Rattle.fetch_refs.specs.Names.{name_cmp};
ghost use Rattle.fetch_refs.specs.Overlay.{shown_lines};
ghost use Rattle.fetch_refs.specs.Slots.{each};

use crate::log::LogLine;
use crate::packing::unpack_all;
use crate::refs::Refs;
use crate::slot::Slot;
use crate::target::Target;
use fetch_specs::FullName;
use fetch_store::{Kind, List, Text};
use std::collections::BTreeMap;

impl Refs {
    /// Whether nothing has an id: each reference leads to a name, and no reflog has a line.
    pub fn has_no_ids(&self) -> bool
        ensures { result ≡ spec.has_no_ids self.now }
    {
        lead_to_names(&self.contents.names) && have_no_lines(&self.contents.logs)
    }

    /// The same names, in a repository of this hash, with nothing in the packed list. This takes no memory.
    pub fn change_hash(&mut self, kind: Kind)
        requires { spec.has_no_ids self.old ≡ true }
        ensures { self.new ≡ spec.of_hash kind self.old }
    {
        unpack_all(&mut self.contents.names);
        self.contents.hash = kind;
        self.text = Text::from(Vec::new(self.contents.alloc));
    }
}

/// Whether each reference leads to a name.
fn lead_to_names(names: &BTreeMap<FullName, Slot>) -> bool
    ensures leads { result ≡ list_all spec.leads (standing (each value_of names.now.entries)) }
    ensures ordered { IsOrdered name_cmp names.now }
{
    // The keys ascend.
    let _count = names.len();
    'places: for entry in names {
        if has_id(&entry.1.value) {
            return false;
        }
    }
    true
}

fn has_id(value: &Option<Target>) -> bool
    ensures { result ≡ spec.is_id value.now }
{
    matches!(value, Some(Target::Object(_)))
}

/// Whether no reflog has a line.
fn have_no_lines(logs: &BTreeMap<FullName, List<LogLine>>) -> bool
    ensures lines { result ≡ spec.is_empty (standing (each shown_lines logs.now.entries)) }
    ensures ordered { IsOrdered name_cmp logs.now }
{
    // The keys ascend.
    let _count = logs.len();
    'places: for entry in logs {
        if !entry.1.is_empty() {
            return false;
        }
    }
    true
}
