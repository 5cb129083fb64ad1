//! The head of a scene.

ghost use Rattle.std.specs.Prelude.{◌≡◌, IfOk};
ghost use Rattle.fetch_scene.specs.Gives.{Gives};
ghost use Rattle.fetch_scene.specs.SceneHead.{kind_named, hash_of, head_of};

use crate::fault::SceneFault;
use crate::line_kinds::{After, Says};
use crate::line_reader::{ReadsLine, read_next, read_next_if};
use crate::lines::{Lines, Placed};
use fetch_store::{Kind, NoMemory, Text};
use std::alloc::Global;

/// What the head of a scene says.
// Not copied: it is read from a text, which can be read again.
#[derive(Drop)]
pub struct Head {
    /// The hash of its ids.
    pub hash: Kind,
    /// The Git directory.
    pub git_dir: Text,
    /// The work tree, where there is one.
    pub workdir: Option<Text>,
    /// Whether settings that can't be read count as absent.
    pub lenient: bool,
}

#[tactic(auto, unfolding(crate::specs::SceneHead::kind_named))]
fn named(name: &[u8]) -> Option<Kind>
    ensures { result ≡ kind_named name.now }
{
    if name == b"sha1".as_slice() {
        Some(Kind::Sha1)
    } else if name == b"sha256".as_slice() {
        Some(Kind::Sha256)
    } else {
        None
    }
}

/// The line that names the hash.
#[derive(Drop)]
struct HashLine;

impl ReadsLine for HashLine {
    type Item = Kind;

    ghost gives = { λ _. hash_of };

    #[tactic(auto, unfolding(crate::specs::SceneHead::hash_of))]
    fn read_line(&self, _alloc: Global, line: &Placed<'_>) -> Result<Option<Kind>, NoMemory> {
        match line.value(b"hash ") {
            Some(name) => Ok(named(name)),
            None => Ok(None),
        }
    }
}

/// Reads the head of a scene.
#[tactic(auto, unfolding(crate::specs::SceneHead::head_of))]
pub(crate) fn read_head<'a>(
    alloc: Global,
    lines: Lines<'a>,
) -> Result<(Head, Lines<'a>), SceneFault>
    ensures { Gives result (head_of lines.entry) }
{
    let (_, lines) = read_next(alloc, &Says(b"scene 1"), lines)?;
    let (hash, lines) = read_next(alloc, &HashLine, lines)?;
    let (git_dir, lines) = read_next(alloc, &After(b"git-dir "), lines)?;
    let (workdir, lines) = read_next_if(alloc, &After(b"workdir "), lines)?;
    let (lenient, lines) = read_next_if(alloc, &Says(b"lenient"), lines)?;
    let lenient = lenient.is_some();
    Ok((
        Head {
            hash,
            git_dir,
            workdir,
            lenient,
        },
        lines,
    ))
}
