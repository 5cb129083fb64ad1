//! What references are kept in.

ghost use Rattle.std.specs.Prelude.{◌≡◌, ℕ, List as Items, ◌++◌, ◌∷◌, [], None, Some, true, cond, is_some, unwrap_or, take, OnOk, OnErr};
ghost use Rattle.std.specs.Prelude.{IfOk, option_map};
ghost use Rattle.std.specs.BTreeMap.{is_at};
ghost use Rattle.std.specs.FinMap as map;
ghost use Rattle.std.specs.Map.{lookup};
ghost use Rattle.fetch_refs.specs.Logs.{lines_of};
ghost use Rattle.fetch_refs.specs.Names.{name_cmp};
ghost use Rattle.fetch_refs.specs.Overlay.{logs_of, with_lines};
ghost use Rattle.fetch_refs.specs.Targets.{seen};
ghost use Rattle.fetch_refs.specs.Contents.{shown_in, with_slot_in, undone, has_place, TakesBack, TakesBackIf, KeepsPlaces};
ghost use Rattle.fetch_refs.specs.Changed.{with_line_in, without_lines_in};

use crate::log::LogLine;
use crate::slot::Slot;
use crate::target::{Target, TargetRef};
use crate::undo::Undo;
use fetch_specs::FullName;
use fetch_store::{Kind, List, NoMemory, ObjectId};
use std::alloc::Global;
use std::collections::BTreeMap;
use std::mem;

/// References and reflogs. A name whose value was taken away keeps its place, with no value, so
/// that the change can be taken back without memory.
#[derive(Drop)]
pub(crate) struct Contents {
    pub(crate) alloc: Global,
    pub(crate) hash: Kind,
    pub(crate) names: BTreeMap<FullName, Slot>,
    pub(crate) logs: BTreeMap<FullName, List<LogLine>>,
}

impl Contents {
    pub(crate) fn new(alloc: Global, hash: Kind) -> Contents
        ensures { shown_in result ≡ record { hash = hash; names = map.empty; logs = map.empty; packed = map.empty } }
    {
        Contents {
            alloc,
            hash,
            names: BTreeMap::new(alloc),
            logs: BTreeMap::new(alloc),
        }
    }

    /// What the reference points to, if it stands.
    pub(crate) fn find(&self, name: &FullName) -> Option<TargetRef<'_>>
        ensures { option_map seen result ≡ map.get (shown_in self.now).names name.now }
    {
        match self.names.get(name) {
            Some(slot) => shown(&slot.value),
            None => None,
        }
    }

    /// The id of a name in the packed list.
    pub(crate) fn packed_id(&self, name: &FullName) -> Option<ObjectId>
        ensures { result ≡ map.get (shown_in self.now).packed name.now }
    {
        match self.names.get(name) {
            Some(slot) => slot.packed,
            None => None,
        }
    }

    /// The lines of a name's reflog.
    pub(crate) fn lines(&self, name: &FullName) -> &[LogLine]
        ensures { result.now ≡ lines_of (shown_in self.now).logs name.now }
    {
        match self.logs.get(name) {
            Some(lines) => lines.as_slice(),
            None => &[],
        }
    }

    /// Changes what the place of a name holds.
    pub(crate) fn write(&mut self, name: &FullName, slot: Slot) -> Result<Undo, NoMemory>
        ensures written { OnOk result (shown_in self.new ≡ with_slot_in (shown_in self.old) name.now slot) }
        ensures undo { IfOk result (TakesBack self.old self.new) }
        ensures err { OnErr result (shown_in self.new ≡ shown_in self.old) }
        ensures keeps { KeepsPlaces self.old self.new }
    {
        let key = name.try_clone()?;
        let name = name.try_clone()?;
        let old = self.names.insert(key, slot)?;
        Ok(Undo::Target {
            name,
            old: slot_or_none(old),
        })
    }

    /// Adds a line after those of a name.
    pub(crate) fn add_line(&mut self, name: &FullName, line: LogLine) -> Result<Undo, NoMemory>
        ensures written { OnOk result (shown_in self.new ≡ with_line_in (shown_in self.old) name.now line) }
        ensures undo { IfOk result (TakesBack self.old self.new) }
        ensures err { OnErr result (shown_in self.new ≡ shown_in self.old) }
        ensures keeps { KeepsPlaces self.old self.new }
    {
        let left = self.lines(name).len();
        let undo_name = name.try_clone()?;
        push_line(self.alloc, &mut self.logs, name, line)?;
        Ok(Undo::Line {
            name: undo_name,
            left,
        })
    }

    /// Takes the lines of a name away, if it has any.
    pub(crate) fn clear_lines(&mut self, name: &FullName) -> Result<Option<Undo>, NoMemory>
        ensures written { OnOk result (shown_in self.new ≡ without_lines_in (shown_in self.old) name.now) }
        ensures undo { IfOk result (TakesBackIf self.old self.new) }
        ensures err { OnErr result (shown_in self.new ≡ shown_in self.old) }
        ensures keeps { KeepsPlaces self.old self.new }
    {
        if self.lines(name).is_empty() {
            return Ok(None);
        }
        let key = name.try_clone()?;
        let name = name.try_clone()?;
        let old = self.logs.insert(key, List::new(self.alloc))?;
        Ok(Some(Undo::Lines {
            name,
            old: lines_or_none(self.alloc, old),
        }))
    }

    /// Takes a change back, which needs no memory.
    pub(crate) fn take_back(&mut self, undo: Undo)
        requires { has_place self.old undo ≡ true }
        ensures shown { shown_in self.new ≡ undone undo (shown_in self.old) }
        ensures keeps { KeepsPlaces self.old self.new }
    {
        match undo {
            Undo::Target { name, old } => put(&mut self.names, name, old),
            Undo::Line { name, left } => cut_lines(self.alloc, &mut self.logs, &name, left),
            Undo::Lines { name, old } => put(&mut self.logs, name, old),
        }
    }
}

/// What stands in a place.
fn shown(slot: &Option<Target>) -> Option<TargetRef<'_>>
    ensures { option_map seen result ≡ slot.now }
{
    match slot {
        Some(target) => Some(target.as_ref()),
        None => None,
    }
}

fn slot_or_none(slot: Option<Slot>) -> Slot
    ensures { result ≡ unwrap_or slot (record { value = None; packed = None }) }
{
    match slot {
        Some(slot) => slot,
        None => Slot {
            value: None,
            packed: None,
        },
    }
}

fn lines_or_none(alloc: Global, lines: Option<List<LogLine>>) -> List<LogLine>
    ensures { result ≡ unwrap_or lines [] }
{
    match lines {
        Some(lines) => lines,
        None => List::new(alloc),
    }
}

/// Adds a line after those of a name.
fn push_line(
    alloc: Global,
    logs: &mut BTreeMap<FullName, List<LogLine>>,
    name: &FullName,
    line: LogLine,
) -> Result<(), NoMemory>
    ensures ok { (q : Items ℕ) → OnOk result (lookup (is_at (name_cmp q)) logs.new.entries
        ≡ cond (is_at (name_cmp name.now) q) (Some (unwrap_or (lookup (is_at (name_cmp name.now)) logs.old.entries) [] ++ line ∷ []))
        (lookup (is_at (name_cmp q)) logs.old.entries)) }
    ensures err { (q : Items ℕ) → OnErr result
        (lookup (is_at (name_cmp q)) logs.new.entries ≡ lookup (is_at (name_cmp q)) logs.old.entries) }
{
    if let Some(lines) = logs.get_mut(name) {
        return lines.push(line);
    }
    let key = name.try_clone()?;
    let mut lines = List::new(alloc);
    lines.push(line)?;
    logs.insert(key, lines)?;
    Ok(())
}

/// Puts a value at a name that has a place.
fn put<V: Drop>(map: &mut BTreeMap<FullName, V>, name: FullName, value: V)
    requires { is_some (lookup (is_at (name_cmp name)) map.old.entries) ≡ true }
    ensures { (q : Items ℕ) → lookup (is_at (name_cmp q)) map.new.entries
        ≡ cond (is_at (name_cmp name) q) (Some value) (lookup (is_at (name_cmp q)) map.old.entries) }
{
    match map.insert(name, value) {
        Ok(_) => {}
        Err(_) => {}
    }
}

/// Keeps the first lines of a name.
fn cut_lines(
    alloc: Global,
    logs: &mut BTreeMap<FullName, List<LogLine>>,
    name: &FullName,
    left: usize,
)
    ensures shown { logs_of logs.new.entries ≡ with_lines (logs_of logs.old.entries) name.now
        (take left (lines_of (logs_of logs.old.entries) name.now)) }
    ensures keeps { (q : Items ℕ) → is_some (lookup (is_at (name_cmp q)) logs.old.entries) ≡ true
        → is_some (lookup (is_at (name_cmp q)) logs.new.entries) ≡ true }
{
    match logs.get_mut(name) {
        Some(lines) => cut(alloc, lines, left),
        None => {}
    }
}

fn cut(alloc: Global, lines: &mut List<LogLine>, left: usize)
    ensures { lines.new ≡ take left lines.old }
{
    let mut items = mem::replace(lines, List::new(alloc)).into_vec();
    items.truncate(left);
    *lines = List::from(items);
}
