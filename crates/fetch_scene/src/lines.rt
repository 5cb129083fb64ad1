//! The lines of a scene, each with its place.

ghost use Rattle.std.specs.Prelude.{◌≡◌};
ghost use Rattle.std.specs.Option.{option_copied};
ghost use Rattle.fetch_lines.specs.LineViews.{line_of};
ghost use Rattle.fetch_scene.specs.SceneLines as spec;
ghost use Rattle.fetch_scene.specs.Gives.{GivesBy};

use crate::fault::SceneFault;
use fetch_lines::{LineRef, without_line_feed};
use std::marker::Model;

/// A line and the place where it begins.
#[derive(Drop)]
pub struct Placed<'a> {
    place: usize,
    line: LineRef<'a>,
}

impl<'a> Model for Placed<'a> {
    ghost use Rattle.fetch_lines.specs.LineViews.{line_of};
    ghost use Rattle.fetch_scene.specs.SceneLines as spec;

    ghost Value = { spec.Placed };

    ghost view = { λ p. record { place = p.place; line = line_of p.line } };
}

impl<'a> Placed<'a> {
    /// A line that begins at this place.
    pub(crate) fn new(place: usize, line: LineRef<'a>) -> Placed<'a>
        ensures { result ≡ record { place = place; line = line_of line.entry } }
    {
        Placed { place, line }
    }

    /// Where the line begins.
    pub(crate) fn place(&self) -> usize
        ensures { result ≡ self.now.place }
    {
        self.place
    }

    /// The text of a text line.
    #[tactic(auto, unfolding(crate::specs::SceneLines::text_of))]
    pub(crate) fn text(&self) -> Option<&'a [u8]>
        ensures { option_copied result ≡ spec.text_of self.now.line }
    {
        match self.line {
            LineRef::Payload(payload) => Some(without_line_feed(payload)),
            LineRef::Flush | LineRef::Delim | LineRef::End => None,
        }
    }
}

impl<'a> Placed<'a> {
    /// The payload, if the line has one.
    #[tactic(auto, unfolding(crate::specs::SceneLines::payload_of))]
    pub(crate) fn payload(&self) -> Option<&'a [u8]>
        ensures { option_copied result ≡ spec.payload_of self.now.line }
    {
        match self.line {
            LineRef::Payload(payload) => Some(payload),
            LineRef::Flush | LineRef::Delim | LineRef::End => None,
        }
    }

    /// What follows the word at the front of a text line.
    #[tactic(auto, unfolding(crate::specs::SceneLines::value_of))]
    pub(crate) fn value(&self, word: &[u8]) -> Option<&'a [u8]>
        ensures { option_copied result ≡ spec.value_of word.now self.now.line }
    {
        let text = self.text()?;
        if text.starts_with(word) {
            Some(&text[word.len()..])
        } else {
            None
        }
    }

    /// Whether the line is a delimiter.
    #[tactic(auto, unfolding(crate::specs::SceneLines::delimits))]
    pub(crate) fn delimits(&self) -> Option<()>
        ensures { result ≡ spec.delimits self.now.line }
    {
        match self.line {
            LineRef::Delim => Some(()),
            LineRef::Payload(_) | LineRef::Flush | LineRef::End => None,
        }
    }

    /// Whether the line is a flush.
    #[tactic(auto, unfolding(crate::specs::SceneLines::flushes))]
    pub(crate) fn flushes(&self) -> Option<()>
        ensures { result ≡ spec.flushes self.now.line }
    {
        match self.line {
            LineRef::Flush => Some(()),
            LineRef::Payload(_) | LineRef::Delim | LineRef::End => None,
        }
    }
}

/// Lines that follow each other, and the place after the last of them.
#[derive(Drop)]
pub struct Lines<'a> {
    lines: &'a [Placed<'a>],
    last: usize,
}

impl<'a> Model for Lines<'a> {
    ghost use Rattle.fetch_scene.specs.SceneLines as spec;

    ghost Value = { spec.Lines };

    ghost view = { λ l. record { lines = l.lines.now; last = l.last } };
}

impl<'a> Lines<'a> {
    /// The first line and the others.
    pub(crate) fn split_first(self) -> Result<(&'a Placed<'a>, Lines<'a>), SceneFault>
        ensures { GivesBy (λ x. (x.0.now, x.1)) result (spec.first_of self.entry) }
    {
        let Lines { lines, last } = self;
        match lines {
            [first, lines @ ..] => Ok((first, Lines { lines, last })),
            [] => Err(SceneFault::Malformed { place: last }),
        }
    }

    /// The lines, and the place after the last of them.
    pub(crate) fn into_parts(self) -> (&'a [Placed<'a>], usize)
        ensures lines { result.0.now ≡ self.entry.lines }
        ensures last { result.1 ≡ self.entry.last }
    {
        let Lines { lines, last } = self;
        (lines, last)
    }

    /// Lines that follow each other.
    pub fn from_parts(lines: &'a [Placed<'a>], last: usize) -> Lines<'a>
        ensures lines { result.lines ≡ lines.now }
        ensures last { result.last ≡ last }
    {
        Lines { lines, last }
    }

    /// Where the first line stands, or where it is missing.
    pub(crate) fn place(&self) -> usize
        ensures { result ≡ spec.place_of self.now }
    {
        match self.lines {
            [first, ..] => first.place(),
            [] => self.last,
        }
    }

    /// The lines at the front that begin with the word, and those after them.
    #[tactic(auto, using(crate::proofs::EachLine::group_within))]
    pub(crate) fn group(self, word: &[u8]) -> (&'a [Placed<'a>], Lines<'a>)
        ensures group { result.0.now ≡ spec.group_of (spec.value_of word.now) self.entry }
        ensures rest { result.1 ≡ spec.behind_group (spec.value_of word.now) self.entry }
    {
        let Lines { lines, last } = self;
        let (group, lines) = lines.split_at(group_len(word, lines));
        (group, Lines { lines, last })
    }

    /// The payloads at the front, and the lines after them.
    #[tactic(auto, using(crate::proofs::EachLine::group_within))]
    pub(crate) fn payloads(self) -> (&'a [Placed<'a>], Lines<'a>)
        ensures group { result.0.now ≡ spec.group_of spec.payload_of self.entry }
        ensures rest { result.1 ≡ spec.behind_group spec.payload_of self.entry }
    {
        let Lines { lines, last } = self;
        let (group, lines) = lines.split_at(payload_count(lines));
        (group, Lines { lines, last })
    }
}

fn group_len(word: &[u8], lines: &[Placed<'_>]) -> usize
    ensures { result ≡ spec.group_len (spec.value_of word.now) lines.now }
{
    lines
        .iter()
        .take_while(|line| line.value(word).is_some())
        .count()
}

fn payload_count(lines: &[Placed<'_>]) -> usize
    ensures { result ≡ spec.group_len spec.payload_of lines.now }
{
    lines
        .iter()
        .take_while(|line| line.payload().is_some())
        .count()
}
