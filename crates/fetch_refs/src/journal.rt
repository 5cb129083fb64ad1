//! Edits that are made in place, with what takes them back.

ghost use Rattle.std.specs.Prelude.{◌≡◌, ◌++◌, ◌<◌, [], true, vec_len, vec_capacity};
ghost use Rattle.std.specs.Option.{option_to_list};
ghost use Rattle.fetch_refs.specs.Contents.{shown_in, has_room, unwound};

use crate::contents::Contents;
use crate::undo::Undo;
use std::alloc::Global;

/// References that are being edited, and the changes so far. The last change is taken back first.
#[derive(Drop)]
pub(crate) struct Journal {
    pub(crate) contents: Contents,
    pub(crate) undo: Vec<Undo>,
}

impl Journal {
    /// Nothing was changed yet.
    pub(crate) fn new(alloc: Global, contents: Contents) -> Journal
        ensures { (result.contents ≡ contents) × (result.undo.items ≡ []) }
    {
        Journal {
            contents,
            undo: Vec::new(alloc),
        }
    }

    /// The references as they were before all changes.
    pub(crate) fn restore(self) -> Contents
        requires { has_room self.contents self.undo.items ≡ true }
        ensures { shown_in result ≡ unwound self.undo.items (shown_in self.contents) }
    {
        let mut contents = self.contents;
        let mut undo = self.undo;
        'undo: while let Some(change) = undo.pop() {
            contents.take_back(change);
        }
        contents
    }
}

/// Notes a change, for which there is room.
pub(crate) fn note(undo: &mut Vec<Undo>, change: Option<Undo>)
    requires { vec_len undo.old < vec_capacity undo.old }
    ensures { undo.new.items ≡ undo.old.items ++ option_to_list change }
{
    if let Some(change) = change {
        undo.push_reserved(change);
    }
}
