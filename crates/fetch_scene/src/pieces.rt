//! What a peer says in a scene, and the end of a scene.

ghost use Rattle.std.specs.Prelude.{◌≡◌, is_some, IfOk};
ghost use Rattle.fetch_scene.specs.Gives.{Gives};
ghost use Rattle.fetch_scene.specs.Scene as spec;
ghost use Rattle.fetch_scene.specs.SceneLines.{delimits, next_if};

use crate::fault::SceneFault;
use crate::line_kinds::{Delimiter, Flush, Payload};
use crate::line_reader::{read_each, read_next, read_next_if};
use crate::lines::Lines;
use fetch_store::{List, NoMemory, Text};
use std::alloc::Global;

/// Reads the payloads at the front: the pieces that a peer says. There may be none.
#[tactic(auto, unfolding(crate::specs::Scene::payloads_of))]
pub fn read_payloads<'a>(
    alloc: Global,
    lines: Lines<'a>,
) -> Result<(List<Text>, Lines<'a>), SceneFault>
    ensures { Gives result (spec.payloads_of lines.entry) }
{
    let (group, lines) = lines.payloads();
    let pieces = read_each(alloc, &Payload, group)?;
    Ok((pieces, lines))
}

/// Whether a delimiter is next, and the lines after it; where none is, the lines are left.
pub fn read_delimiter_if<'a>(alloc: Global, lines: Lines<'a>) -> Result<(bool, Lines<'a>), NoMemory>
    ensures divided { IfOk result (λ x. x.0 ≡ is_some (next_if delimits lines.entry).0) }
    ensures rest { IfOk result (λ x. x.1 ≡ (next_if delimits lines.entry).1) }
{
    let (divided, lines) = read_next_if(alloc, &Delimiter, lines)?;
    Ok((divided.is_some(), lines))
}

fn ends(len: usize, lines: Lines<'_>) -> Result<(), SceneFault>
    ensures { Gives result (spec.ends_in len lines.entry.lines lines.entry.last) }
{
    let (lines, last) = lines.into_parts();
    match lines {
        [first, ..] => Err(SceneFault::Malformed {
            place: first.place(),
        }),
        [] if last == len => Ok(()),
        [] => Err(SceneFault::Malformed { place: last }),
    }
}

/// Reads the flush at the end of a scene of this many bytes, and that nothing follows it. `Malformed` tells the line that
/// stands in its place, or where the bytes after it begin.
#[tactic(auto, unfolding(crate::specs::Scene::end_of))]
pub fn read_end(alloc: Global, len: usize, lines: Lines<'_>) -> Result<(), SceneFault>
    ensures { Gives result (spec.end_of len lines.entry) }
{
    let (_, lines) = read_next(alloc, &Flush, lines)?;
    ends(len, lines)
}
