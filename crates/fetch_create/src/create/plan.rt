//! Where a new repository stands, and the steps by which it is created.

ghost use Rattle.std.specs.Prelude.{◌≡◌, IfOk, OnOk, ◌++◌, ◌∷◌, []};
ghost use Rattle.fetch_create.specs.Plans as spec;
ghost use Rattle.fetch_create.specs.declared.create.step.Step.TheVariants.{Directory, File};

use crate::configuration::configuration_of;
use crate::create::step::Step;
use crate::create::{Capabilities, Kind, Options, Path};
use fetch_store::{NoMemory, Text};
use std::alloc::Global;

const USUAL: Capabilities = Capabilities {
    executable_bit: true,
    symlink: true,
    ignore_case: false,
    precompose_unicode: false,
};

/// The directory itself, or `.git` in it beside a work tree.
pub(crate) fn path_of(alloc: Global, directory: &[u8], kind: Kind) -> Result<Path, NoMemory>
    ensures { IfOk result (λ path. path ≡ spec.path_of directory.now kind) }
{
    match kind {
        Kind::Bare => Ok(Path {
            git_dir: Text::new(alloc, directory)?,
            workdir: None,
        }),
        Kind::WithWorktree => Ok(Path {
            git_dir: below(alloc, directory, b".git")?,
            workdir: Some(Text::new(alloc, directory)?),
        }),
    }
}

/// The steps, in order.
#[tactic(auto, unfolding(crate::specs::Plans::steps_of))]
pub(crate) fn steps_of(
    alloc: Global,
    directory: &[u8],
    kind: Kind,
    options: Options,
) -> Result<Vec<Step>, NoMemory>
    ensures { IfOk result (λ steps. steps.items ≡ spec.steps_of directory.now kind options) }
{
    let git_dir = path_of(alloc, directory, kind)?.git_dir;
    let configuration = configuration_in(alloc, kind, options)?;
    let mut steps = Vec::new(alloc);
    push_cleared(alloc, &mut steps, directory, must_be_empty(kind, options))?;
    push_vacated(alloc, &mut steps, git_dir.as_bytes(), kind)?;
    push_contents(alloc, &mut steps, git_dir.as_bytes(), configuration)?;
    Ok(steps)
}

fn configuration_in(alloc: Global, kind: Kind, options: Options) -> Result<Text, NoMemory>
    ensures { IfOk result (λ text. text ≡ spec.configuration_in kind options) }
{
    let can = options.fs_capabilities.unwrap_or(USUAL);
    let hash = options.object_hash.unwrap_or(fetch_store::Kind::Sha1);
    configuration_of(alloc, kind, can, hash)
}

fn must_be_empty(kind: Kind, options: Options) -> bool
    ensures { result ≡ spec.must_be_empty kind options.destination_must_be_empty }
{
    match kind {
        Kind::Bare => true,
        Kind::WithWorktree => options.destination_must_be_empty.unwrap_or(false),
    }
}

fn push_cleared(
    alloc: Global,
    steps: &mut Vec<Step>,
    directory: &[u8],
    must_be_empty: bool,
) -> Result<(), NoMemory>
    ensures { OnOk result (steps.new.items ≡ steps.old.items ++ spec.cleared must_be_empty directory.now) }
{
    if must_be_empty {
        steps.push(Step::Clear {
            path: Text::new(alloc, directory)?,
        })?;
    }
    Ok(())
}

fn push_vacated(
    alloc: Global,
    steps: &mut Vec<Step>,
    git_dir: &[u8],
    kind: Kind,
) -> Result<(), NoMemory>
    ensures { OnOk result (steps.new.items ≡ steps.old.items ++ spec.vacated kind git_dir.now) }
{
    if kind == Kind::WithWorktree {
        steps.push(Step::Vacant {
            path: Text::new(alloc, git_dir)?,
        })?;
    }
    Ok(())
}

fn push_contents(
    alloc: Global,
    steps: &mut Vec<Step>,
    git_dir: &[u8],
    configuration: Text,
) -> Result<(), NoMemory>
    ensures { OnOk result (steps.new.items ≡ steps.old.items ++ spec.contents_of git_dir.now configuration) }
{
    push_file(alloc, steps, git_dir, b"info/exclude", b"")?;
    push_directory(alloc, steps, git_dir, b"hooks")?;
    push_directory(alloc, steps, git_dir, b"objects/info")?;
    push_directory(alloc, steps, git_dir, b"objects/pack")?;
    push_directory(alloc, steps, git_dir, b"refs/heads")?;
    push_directory(alloc, steps, git_dir, b"refs/tags")?;
    push_file(alloc, steps, git_dir, b"HEAD", b"ref: refs/heads/main\n")?;
    push_file(alloc, steps, git_dir, b"description", b"")?;
    push_file(alloc, steps, git_dir, b"config", configuration.as_bytes())?;
    Ok(())
}

fn push_directory(
    alloc: Global,
    steps: &mut Vec<Step>,
    git_dir: &[u8],
    name: &[u8],
) -> Result<(), NoMemory>
    ensures { OnOk result (steps.new.items ≡ steps.old.items ++ Directory (spec.below git_dir.now name.now) ∷ []) }
{
    steps.push(Step::Directory {
        path: below(alloc, git_dir, name)?,
    })?;
    Ok(())
}

fn push_file(
    alloc: Global,
    steps: &mut Vec<Step>,
    git_dir: &[u8],
    name: &[u8],
    bytes: &[u8],
) -> Result<(), NoMemory>
    ensures { OnOk result (steps.new.items ≡ steps.old.items ++ File (spec.below git_dir.now name.now) bytes.now ∷ []) }
{
    steps.push(Step::File {
        path: below(alloc, git_dir, name)?,
        bytes: Text::new(alloc, bytes)?,
    })?;
    Ok(())
}

/// What has this name in the directory.
fn below(alloc: Global, directory: &[u8], name: &[u8]) -> Result<Text, NoMemory>
    ensures { IfOk result (λ path. path ≡ spec.below directory.now name.now) }
{
    let mut path = Vec::from_slice(alloc, directory)?;
    path.push(b'/')?;
    path.extend_from_slice(name)?;
    Ok(Text::from(path))
}
