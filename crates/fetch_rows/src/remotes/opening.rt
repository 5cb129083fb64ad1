//! A repository as a row says.

ghost use Rattle.std.specs.Prelude.{◌≡◌};

use super::remote_case::RemoteCase;
use super::{finding, refusals};
use fetch_config::{ConfigError, File, Meta, Origin};
use fetch_refs::{
    Change, LogChange, PackedRefs, PreviousValue, RefEdit, RefLog, Refs, Signature, Target,
};
use fetch_remote::{OpenOptions, Parts, Repository};
use fetch_specs::FullName;
use fetch_store::{
    Border, FileError, Files, Kind, List, MemoryFiles, NoMemory, ObjectId, Store, Text,
};
use fetch_update::{ScriptedWorktrees, Worktree};
use rows::{name_of, somebody};
use std::alloc::Global;

/// Where the configuration stands.
pub(crate) const CONFIG: &[u8] = b"/w/.git/config";

fn meta(source: Origin) -> Meta {
    Meta {
        source,
        level: 0,
        path: None,
        trusted: true,
    }
}

/// A configuration of the repository's own without sections.
pub(crate) fn no_config(alloc: Global) -> Result<File, NoMemory> {
    match File::new(alloc, meta(Origin::Local)) {
        Ok(file) => Ok(file),
        Err(_) => Err(NoMemory),
    }
}

/// The configuration that a text is. None where it is none.
pub(crate) fn config_of(alloc: Global, text: &[u8]) -> Result<Option<File>, NoMemory> {
    match File::read(alloc, text, meta(Origin::Local)) {
        Ok(file) => Ok(Some(file)),
        Err(ConfigError::NoMemory) => Err(NoMemory),
        Err(_) => Ok(None),
    }
}

fn options(
    alloc: Global,
    is_lenient: bool,
    overrides: List<Text>,
) -> Result<OpenOptions, NoMemory> {
    match File::new(alloc, meta(Origin::Global)) {
        Ok(base) => Ok(OpenOptions {
            lenient_config: is_lenient,
            api_config_overrides: overrides,
            base,
        }),
        Err(_) => Err(NoMemory),
    }
}

fn edit(alloc: Global, name: FullName, new: Target) -> Result<RefEdit, NoMemory> {
    Ok(RefEdit {
        change: Change::Update {
            log: LogChange {
                mode: RefLog::AndReference,
                force_create_reflog: false,
                message: Text::new(alloc, b"made")?,
            },
            expected: PreviousValue::Any,
            new,
        },
        name,
    })
}

/// The edits that make the references: `HEAD`, and those with an id.
fn edits(alloc: Global, remote_case: &RemoteCase) -> Result<Vec<RefEdit>, NoMemory> {
    let mut edits = Vec::new(alloc);
    if let Some(branch) = &remote_case.head
        && let Some(head) = name_of(alloc, b"HEAD")?
    {
        edits.push(edit(alloc, head, Target::Symbolic(branch.try_clone()?))?)?;
    }
    for name in &remote_case.references {
        let target = Target::Object(ObjectId::Sha1([1; 20]));
        edits.push(edit(alloc, name.try_clone()?, target)?)?;
    }
    Ok(edits)
}

/// What a repository is opened with beside its configuration.
#[derive(Drop)]
struct Places {
    committer: Signature,
    git_dir: Text,
    workdir: Text,
    options: OpenOptions,
}

fn make_places(alloc: Global, is_lenient: bool, overrides: List<Text>) -> Result<Places, NoMemory> {
    let committer = somebody(alloc)?;
    let git_dir = Text::new(alloc, b"/w/.git")?;
    let workdir = Text::new(alloc, b"/w")?;
    Ok(Places {
        committer,
        git_dir,
        workdir,
        options: options(alloc, is_lenient, overrides)?,
    })
}

/// A repository without objects and references.
fn parts(alloc: Global, local: File, places: Places) -> Parts
    ensures { result.store.hash ≡ result.refs.hash }
{
    let Places {
        committer,
        git_dir,
        workdir,
        options,
    } = places;
    Parts {
        store: Store::new(alloc, Kind::Sha1),
        refs: Refs::new(alloc, Kind::Sha1),
        border: Border::new(alloc),
        local,
        committer,
        git_dir,
        workdir: Some(workdir),
        options,
    }
}

/// A repository with this configuration and without references. There are no overrides, so memory alone may refuse it.
fn empty(alloc: Global, local: File, is_lenient: bool) -> Result<Repository, NoMemory> {
    let places = make_places(alloc, is_lenient, List::new(alloc))?;
    match Repository::from_parts(alloc, parts(alloc, local, places)) {
        Ok(repo) => Ok(repo),
        Err(_) => Err(NoMemory),
    }
}

/// Opens a repository with this configuration and these overrides, and tells its remotes.
pub(crate) fn tell_overridden(
    alloc: Global,
    local: File,
    is_lenient: bool,
    overrides: Vec<Text>,
    out: &mut Vec<u8>,
) -> Result<(), NoMemory> {
    let places = make_places(alloc, is_lenient, List::from(overrides))?;
    match Repository::from_parts(alloc, parts(alloc, local, places)) {
        Ok(repo) => finding::names(alloc, &repo, out),
        Err(e) => refusals::opened(out, &e),
    }
}

fn make_references(
    alloc: Global,
    remote_case: &RemoteCase,
    repo: &mut Repository,
) -> Result<(), NoMemory> {
    let edits = edits(alloc, remote_case)?;
    let committer = somebody(alloc)?;
    match repo.edit_refs(edits.as_slice(), &committer, PackedRefs::Never) {
        Ok(()) => Ok(()),
        Err(_) => Err(NoMemory),
    }
}

/// The repository of a row, which logs its branches. None where its configuration is none.
pub(crate) fn open(
    alloc: Global,
    remote_case: &RemoteCase,
) -> Result<Option<Repository>, NoMemory> {
    let Some(config) = config_of(alloc, remote_case.config.as_slice())? else {
        return Ok(None);
    };
    let mut repo = empty(alloc, config, remote_case.is_lenient)?;
    make_references(alloc, remote_case, &mut repo)?;
    Ok(Some(repo))
}

/// The calls that fail, after the one that sets the files up.
fn failing(alloc: Global, calls: &[u64]) -> Result<Vec<u64>, NoMemory> {
    let mut failing = Vec::new(alloc);
    for call in calls {
        failing.push(call.saturating_add(1))?;
    }
    Ok(failing)
}

/// Writes the configuration, or where it has no text, asks for it.
fn place(files: &mut MemoryFiles, text: &[u8]) -> Result<(), FileError> {
    if text.is_empty() {
        files.kind_of(CONFIG)?;
        Ok(())
    } else {
        files.write(CONFIG, text)
    }
}

/// The files of a row, which have the configuration alone. Their calls are counted from then on.
pub(crate) fn files(alloc: Global, remote_case: &RemoteCase) -> Result<MemoryFiles, NoMemory> {
    let mut files = MemoryFiles::new(alloc, failing(alloc, remote_case.files.as_slice())?);
    match place(&mut files, remote_case.file.as_slice()) {
        Ok(()) => Ok(files),
        Err(_) => Err(NoMemory),
    }
}

fn trees(alloc: Global, remote_case: &RemoteCase) -> Result<Vec<Worktree>, NoMemory> {
    let mut trees = Vec::new(alloc);
    for tree in &remote_case.worktrees {
        trees.push(tree.try_clone()?)?;
    }
    Ok(trees)
}

/// The work trees of a row.
pub(crate) fn worktrees(
    alloc: Global,
    remote_case: &RemoteCase,
) -> Result<ScriptedWorktrees, NoMemory> {
    let failing = Vec::from_slice(alloc, remote_case.listings.as_slice())?;
    Ok(ScriptedWorktrees::new(trees(alloc, remote_case)?, failing))
}
