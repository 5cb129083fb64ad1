//! The refspecs of a scene.

ghost use Rattle.std.specs.Prelude.{◌≡◌, IfOk};
ghost use Rattle.fetch_scene.specs.LineKinds.{refspec_in, refspec_of};

use crate::line_reader::ReadsLine;
use crate::lines::Placed;
use fetch_specs::{Operation, RefSpec, SpecError, parse};
use fetch_store::NoMemory;
use std::alloc::Global;

/// The refspec to fetch by that a text is, or None where it is none.
pub fn refspec(alloc: Global, text: &[u8]) -> Result<Option<RefSpec>, NoMemory>
    ensures { IfOk result (λ found. found ≡ refspec_in text.now) }
{
    match parse(alloc, text, Operation::Fetch) {
        Ok(spec) => Ok(Some(spec)),
        Err(SpecError::NoMemory) => Err(NoMemory),
        Err(_) => Ok(None),
    }
}

/// A line of a refspec, after this word.
#[derive(Drop)]
pub(crate) struct RefSpecLine(pub &'static [u8]);

impl ReadsLine for RefSpecLine {
    type Item = RefSpec;

    ghost gives = { λ r. refspec_of r.0.now };

    #[tactic(auto, unfolding(crate::specs::LineKinds::refspec_of))]
    fn read_line(&self, alloc: Global, line: &Placed<'_>) -> Result<Option<RefSpec>, NoMemory> {
        match line.value(self.0) {
            Some(text) => refspec(alloc, text),
            None => Ok(None),
        }
    }
}
