//! The remote of a scene.

ghost use Rattle.std.specs.Prelude.{◌≡◌};
ghost use Rattle.fetch_scene.specs.Gives.{Gives};
ghost use Rattle.fetch_scene.specs.Scene.{remote_of};

use crate::fault::SceneFault;
use crate::line_kinds::{After, Delimiter, TagsLine};
use crate::line_reader::{read_group, read_next};
use crate::lines::Lines;
use crate::options::{OptionLine, SceneOptions, scene_options};
use crate::refspecs::RefSpecLine;
use fetch_specs::{RefSpec, Tags};
use fetch_store::{List, Text};
use std::alloc::Global;

/// The remote of a scene, and how to fetch from it.
// Not copied: it is read from a text, which can be read again.
#[derive(Drop)]
pub struct RemotePart {
    /// Its one address.
    pub address: Text,
    /// Its refspecs.
    pub specs: List<RefSpec>,
    /// Which tags are fetched.
    pub tags: Tags,
    /// Refspecs for this fetch alone.
    pub extra: List<RefSpec>,
    /// What all options say together.
    pub options: SceneOptions,
}

/// Reads the remote of a scene, and the delimiter after it. `Malformed` tells the first line that breaks the grammar.
#[tactic(auto, unfolding(crate::specs::Scene::remote_of))]
pub fn read_remote<'a>(
    alloc: Global,
    lines: Lines<'a>,
) -> Result<(RemotePart, Lines<'a>), SceneFault>
    ensures { Gives result (remote_of lines.entry) }
{
    let (address, lines) = read_next(alloc, &After(b"remote "), lines)?;
    let (specs, lines) = read_group(alloc, b"fetch ", &RefSpecLine(b"fetch "), lines)?;
    let (tags, lines) = read_next(alloc, &TagsLine, lines)?;
    let (extra, lines) = read_group(alloc, b"extra ", &RefSpecLine(b"extra "), lines)?;
    let (options, lines) = read_group(alloc, b"option ", &OptionLine, lines)?;
    let (_, lines) = read_next(alloc, &Delimiter, lines)?;
    let options = scene_options(alloc, options)?;
    Ok((
        RemotePart {
            address,
            specs,
            tags,
            extra,
            options,
        },
        lines,
    ))
}
