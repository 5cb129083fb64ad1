//! The repository of a scene.

ghost use Rattle.std.specs.Prelude.{◌≡◌, IfOk};
ghost use Rattle.fetch_store.specs.Borders.{set_of};
ghost use Rattle.fetch_scene.specs.Gives.{Gives};
ghost use Rattle.fetch_scene.specs.Scene.{local_of};

use crate::configuration::read_config;
use crate::fault::SceneFault;
use crate::head::{Head, read_head};
use crate::line_kinds::{BorderLine, Delimiter};
use crate::line_reader::{read_group, read_next};
use crate::lines::Lines;
use crate::references::{Reference, read_references};
use crate::worktrees::WorktreeLine;
use fetch_config::File;
use fetch_store::{Border, List, NoMemory, ObjectId};
use fetch_update::Worktree;
use std::alloc::Global;

/// The repository of a scene, without its objects.
// Not copied: it is read from a text, which can be read again.
#[derive(Drop)]
pub struct Local {
    /// Its hash, its directories, and whether it is lenient.
    pub head: Head,
    /// The references. No name comes twice.
    pub refs: List<Reference>,
    /// The commits whose parents are left out.
    pub border: Border,
    /// The repository's own configuration, which is trusted.
    pub config: File,
    /// Which branches are checked out, and where.
    pub worktrees: List<Worktree>,
}

fn border_of(alloc: Global, ids: List<ObjectId>) -> Result<Border, NoMemory>
    ensures { IfOk result (λ border. border ≡ set_of ids) }
{
    match Border::from_ids(alloc, ids.as_slice()) {
        Ok(border) => Ok(border),
        Err(_) => Err(NoMemory),
    }
}

/// Reads the repository of a scene, and the delimiter after it. `Malformed` tells the first line that breaks the grammar.
#[tactic(auto, unfolding(crate::specs::Scene::local_of))]
pub fn read_local<'a>(alloc: Global, lines: Lines<'a>) -> Result<(Local, Lines<'a>), SceneFault>
    ensures { Gives result (local_of lines.entry) }
{
    let (head, lines) = read_head(alloc, lines)?;
    let (refs, lines) = read_references(alloc, head.hash, lines)?;
    let (ids, lines) = read_group(alloc, b"border ", &BorderLine { hash: head.hash }, lines)?;
    let (config, lines) = read_config(alloc, lines)?;
    let (worktrees, lines) = read_group(alloc, b"worktree ", &WorktreeLine, lines)?;
    let (_, lines) = read_next(alloc, &Delimiter, lines)?;
    let border = border_of(alloc, ids)?;
    Ok((
        Local {
            head,
            refs,
            border,
            config,
            worktrees,
        },
        lines,
    ))
}
