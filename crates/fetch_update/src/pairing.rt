//! How updates are laid beside what they come from.

ghost use Rattle.std.specs.Prelude.{◌≡◌, ◌<◌, length, All};
ghost use Rattle.std.specs.Iterator.{YieldsFirstBy, item_count};
ghost use Rattle.std.specs.Option.{option_copied, option_and_then};
ghost use Rattle.std.specs.List.{slice_get};
ghost use Rattle.fetch_update.specs.Pairs.{left, shown, pairs_of};

use crate::pairs::MappingUpdates;
use crate::update::{Outcome, Update};
use fetch_map::Mapping;
use fetch_refs::RefEdit;
use fetch_specs::RefSpec;

impl Outcome {
    /// The updates beside the mappings that they were made of.
    pub fn iter_mapping_updates<'a>(
        &'a self,
        mappings: &'a [Mapping],
        refspecs: &'a [RefSpec],
        extra_refspecs: &'a [RefSpec],
    ) -> MappingUpdates<'a>
        requires { All (λ u. u.mapping_index < length mappings.now) self.now.updates }
        ensures whole { length (left result) ≡ length self.now.updates }
        ensures pairs { left result ≡ pairs_of mappings.now refspecs.now extra_refspecs.now self.now.edits self.now.updates }
    {
        MappingUpdates {
            updates: self.updates.as_slice(),
            edits: self.edits.as_slice(),
            mappings,
            refspecs,
            extra_refspecs,
        }
    }
}

impl<'a> Iterator for MappingUpdates<'a> {
    type Item = (
        &'a Update,
        &'a Mapping,
        Option<&'a RefSpec>,
        Option<&'a RefEdit>,
    );

    ghost next_gives = { YieldsFirstBy shown left };

    ghost remaining = { item_count left };

    fn next(
        &mut self,
    ) -> Option<
        (
            &'a Update,
            &'a Mapping,
            Option<&'a RefSpec>,
            Option<&'a RefEdit>,
        ),
    > {
        let updates = self.updates;
        let mappings = self.mappings;
        let [update, rest @ ..] = updates else {
            return None;
        };
        match mappings.get(update.mapping_index) {
            Some(mapping) => {
                self.updates = rest;
                let refspec = mapping.spec_index.get(self.refspecs, self.extra_refspecs);
                let edit = edit_at(self.edits, update.edit_index);
                Some((update, mapping, refspec, edit))
            }
            None => {
                self.updates = &[];
                None
            }
        }
    }
}

impl ExactSizeIterator for MappingUpdates<'_> {
    fn len(&self) -> usize {
        self.updates.len()
    }
}

fn edit_at(edits: &[RefEdit], index: Option<usize>) -> Option<&RefEdit>
    ensures { option_copied result ≡ option_and_then (λ i. slice_get edits.now i) index }
{
    match index {
        Some(index) => edits.get(index),
        None => None,
    }
}
