//! What lines give, one kind of line by one reader.

ghost use Rattle.std.specs.Prelude.{◌≡◌, IfOk, Option};
ghost use Rattle.fetch_lines.specs.declared.lines.line.Line.{Line};
ghost use Rattle.fetch_scene.specs.SceneLines.{each_of, each_with, next, next_if};
ghost use Rattle.fetch_scene.specs.Gives.{Gives};

use crate::fault::SceneFault;
use crate::lines::{Lines, Placed};
use fetch_store::{List, NoMemory};
use std::alloc::Global;

/// How the lines of one kind are read.
pub(crate) trait ReadsLine {
    /// What a line gives.
    type Item: Drop;

    ghost gives: { Self → Line → Option Self.Item };

    /// What the line gives, or None where it is malformed.
    fn read_line(&self, alloc: Global, line: &Placed<'_>) -> Result<Option<Self::Item>, NoMemory>
        ensures { IfOk result (λ found. found ≡ gives self.now line.now.line) };
}

/// What each line gives.
pub(crate) fn read_each<R: ReadsLine>(
    alloc: Global,
    reader: &R,
    lines: &[Placed<'_>],
) -> Result<List<R::Item>, SceneFault>
    ensures { Gives result (each_of (R.gives reader.now) lines.now) }
{
    let mut items = Vec::new(alloc);
    for line in lines {
        match reader.read_line(alloc, line)? {
            Some(item) => items.push(item)?,
            None => {
                return Err(SceneFault::Malformed {
                    place: line.place(),
                });
            }
        }
    }
    Ok(List::from(items))
}

/// What each line at the front gives that begins with the word, and the lines after these.
pub(crate) fn read_group<'a, R: ReadsLine>(
    alloc: Global,
    word: &[u8],
    reader: &R,
    lines: Lines<'a>,
) -> Result<(List<R::Item>, Lines<'a>), SceneFault>
    ensures { Gives result (each_with word.now (R.gives reader.now) lines.entry) }
{
    let (group, lines) = lines.group(word);
    let items = read_each(alloc, reader, group)?;
    Ok((items, lines))
}

/// What the next line gives.
pub(crate) fn read_next<'a, R: ReadsLine>(
    alloc: Global,
    reader: &R,
    lines: Lines<'a>,
) -> Result<(R::Item, Lines<'a>), SceneFault>
    ensures { Gives result (next (R.gives reader.now) lines.entry) }
{
    let (first, lines) = lines.split_first()?;
    match reader.read_line(alloc, first)? {
        Some(item) => Ok((item, lines)),
        None => Err(SceneFault::Malformed {
            place: first.place(),
        }),
    }
}

/// What the next line gives, or None, and then the line is left.
pub(crate) fn read_next_if<'a, R: ReadsLine>(
    alloc: Global,
    reader: &R,
    lines: Lines<'a>,
) -> Result<(Option<R::Item>, Lines<'a>), NoMemory>
    ensures { IfOk result (λ x. x ≡ next_if (R.gives reader.now) lines.entry) }
{
    let (lines, last) = lines.into_parts();
    let [first, others @ ..] = lines else {
        return Ok((None, Lines::from_parts(lines, last)));
    };
    match reader.read_line(alloc, first)? {
        Some(item) => Ok((Some(item), Lines::from_parts(others, last))),
        None => Ok((None, Lines::from_parts(lines, last))),
    }
}
