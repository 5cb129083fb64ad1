//! The simple kinds of lines.

ghost use Rattle.std.specs.Prelude.{◌≡◌, IfOk};
ghost use Rattle.fetch_scene.specs.LineKinds.{border_of, tags_named, tags_of};
ghost use Rattle.fetch_scene.specs.SceneLines as spec;

use crate::line_reader::ReadsLine;
use crate::lines::Placed;
use fetch_specs::Tags;
use fetch_store::{Kind, NoMemory, ObjectId, Text};
use std::alloc::Global;

/// A text line that begins with this word: what follows it.
#[derive(Drop)]
pub(crate) struct After(pub &'static [u8]);

impl ReadsLine for After {
    type Item = Text;

    ghost gives = { λ r. spec.value_of r.0.now };

    fn read_line(&self, alloc: Global, line: &Placed<'_>) -> Result<Option<Text>, NoMemory> {
        match line.value(self.0) {
            Some(value) => Ok(Some(Text::new(alloc, value)?)),
            None => Ok(None),
        }
    }
}

/// A text line of this word alone.
#[derive(Drop)]
pub(crate) struct Says(pub &'static [u8]);

impl ReadsLine for Says {
    type Item = ();

    ghost gives = { λ r. spec.says r.0.now };

    #[tactic(auto, unfolding(crate::specs::SceneLines::says))]
    fn read_line(&self, _alloc: Global, line: &Placed<'_>) -> Result<Option<()>, NoMemory> {
        match line.text() {
            Some(text) if text == self.0 => Ok(Some(())),
            _ => Ok(None),
        }
    }
}

/// A payload, as it stands.
#[derive(Drop)]
pub(crate) struct Payload;

impl ReadsLine for Payload {
    type Item = Text;

    ghost gives = { λ _. spec.payload_of };

    fn read_line(&self, alloc: Global, line: &Placed<'_>) -> Result<Option<Text>, NoMemory> {
        match line.payload() {
            Some(payload) => Ok(Some(Text::new(alloc, payload)?)),
            None => Ok(None),
        }
    }
}

/// A delimiter.
#[derive(Drop)]
pub(crate) struct Delimiter;

impl ReadsLine for Delimiter {
    type Item = ();

    ghost gives = { λ _. spec.delimits };

    fn read_line(&self, _alloc: Global, line: &Placed<'_>) -> Result<Option<()>, NoMemory> {
        Ok(line.delimits())
    }
}

/// A flush.
#[derive(Drop)]
pub(crate) struct Flush;

impl ReadsLine for Flush {
    type Item = ();

    ghost gives = { λ _. spec.flushes };

    fn read_line(&self, _alloc: Global, line: &Placed<'_>) -> Result<Option<()>, NoMemory> {
        Ok(line.flushes())
    }
}

/// A line that tells a commit of the border.
#[derive(Drop)]
pub(crate) struct BorderLine {
    /// The hash of the ids.
    pub hash: Kind,
}

impl ReadsLine for BorderLine {
    type Item = ObjectId;

    ghost gives = { λ r. border_of r.hash };

    #[tactic(auto, unfolding(crate::specs::LineKinds::border_of))]
    fn read_line(&self, _alloc: Global, line: &Placed<'_>) -> Result<Option<ObjectId>, NoMemory> {
        match line.value(b"border ") {
            Some(digits) => Ok(ObjectId::in_hex(self.hash, digits)),
            None => Ok(None),
        }
    }
}

#[tactic(auto, unfolding(crate::specs::LineKinds::tags_named))]
fn tags(name: &[u8]) -> Option<Tags>
    ensures { result ≡ tags_named name.now }
{
    if name == b"all".as_slice() {
        Some(Tags::All)
    } else if name == b"included".as_slice() {
        Some(Tags::Included)
    } else if name == b"none".as_slice() {
        Some(Tags::None)
    } else {
        None
    }
}

/// The line that tells which tags are fetched.
#[derive(Drop)]
pub(crate) struct TagsLine;

impl ReadsLine for TagsLine {
    type Item = Tags;

    ghost gives = { λ _. tags_of };

    #[tactic(auto, unfolding(crate::specs::LineKinds::tags_of))]
    fn read_line(&self, _alloc: Global, line: &Placed<'_>) -> Result<Option<Tags>, NoMemory> {
        match line.value(b"tags ") {
            Some(name) => Ok(tags(name)),
            None => Ok(None),
        }
    }
}
