//! A repository is opened whose files were created.

ghost use Rattle.std.specs.Prelude.{◌≡◌, IfOk, IfErr, IsErrOf, OnOk, IsTrue, Some, codes};
ghost use Rattle.fetch_files.specs.FileCalls.{IsRefused};
ghost use Rattle.fetch_base.specs.Faults.{Rose, Counts};
ghost use Rattle.fetch_files.specs.Paths.{parts_of};
ghost use Rattle.fetch_files.specs.Trees.{read_in};
ghost use Rattle.fetch_create.specs.Branches.{default_branch_of};
ghost use Rattle.fetch_init.specs.Initial as spec;
ghost use Rattle.fetch_init.specs.Initial.{IsBranchRefusal, IsInitial, IsNew, IsUnopened, IsUnready, is_init_fault};
ghost use Rattle.fetch_remote.specs.Paths.{config_path as path_of_config};
ghost use Rattle.fetch_remote.specs.Reloads.{IsRefusedAt};
ghost use Rattle.fetch_remote.specs.Repositories.{state_of, setup_of, setup_in, state_in, IsOpenRefusal};
ghost use Rattle.fetch_remote.specs.declared.repository.open_error.OpenError.TheVariants as errors;

use crate::create::Path;
use crate::init::Error;
use fetch_config::{File, Meta, Origin};
use fetch_create::{branch_of, default_branch};
use fetch_refs::{
    Change, LogChange, PackedRefs, PreviousValue, RefEdit, RefLog, Refs, Signature, Target,
};
use fetch_remote::{OpenError, OpenOptions, Parts, Repository, read_configuration};
use fetch_specs::FullName;
use fetch_store::{Border, Files, Kind, NoMemory, Store, Text};
use std::alloc::Global;

/// What a repository is opened with, once its files are created.
#[derive(Drop)]
pub(crate) struct New {
    /// Where the repository was created.
    pub path: Path,
    /// The hash of its objects.
    pub hash: Kind,
    /// Who writes the lines of reflogs.
    pub committer: Signature,
    /// Leniency, overrides, and what comes before the local file.
    pub options: OpenOptions,
}

/// Reads the configuration, opens the repository, and lets its `HEAD` lead to the branch that the configuration names.
pub(crate) fn open_new<F: Files>(
    alloc: Global,
    files: &mut F,
    new: New,
) -> Result<Repository, Error>
    ensures tree { F.told files.new ≡ F.told files.old }
    ensures repo { IfOk result (IsInitial (F.told files.old) new) }
    ensures refused { IfErr result (IsUnready (F.may_fail files.old) (F.told files.old) new (F.told files.new)) }
    ensures cause { IfErr result (λ e. IsTrue (is_init_fault e) → Rose (F.faults files.old) (F.faults files.new)) }
    ensures counts { Counts (F.faults files.old) (F.faults files.new) }
    ensures may_fail { F.may_fail files.new ≡ F.may_fail files.old }
{
    let local = read_local(alloc, files, &new.path.git_dir)?;
    opened(alloc, new, local)
}

/// Reads the file `config` in the directory as the local file.
fn read_local<F: Files>(alloc: Global, files: &mut F, git_dir: &Text) -> Result<File, OpenError>
    ensures file { IfOk result (spec.IsLocalAt (F.told files.old) (path_of_config git_dir.now)) }
    ensures refused { IfErr result (IsRefusedAt (F.told files.old) (path_of_config git_dir.now)) }
    ensures io { IsErrOf result errors.Io → Rose (F.faults files.old) (F.faults files.new) }
    ensures in_the_way { IsErrOf result errors.Io
        → IsRefused (F.may_fail files.old) (F.told files.old) (λ t. read_in t (parts_of (path_of_config git_dir.now))) }
    ensures counts { Counts (F.faults files.old) (F.faults files.new) }
    ensures tree { F.told files.new ≡ F.told files.old }
    ensures may_fail { F.may_fail files.new ≡ F.may_fail files.old }
{
    let path = config_path(alloc, git_dir.as_bytes())?;
    let meta = local_meta(&path)?;
    read_configuration(alloc, files, path, &meta)
}

/// Where the local file stands.
pub fn config_path(alloc: Global, git_dir: &[u8]) -> Result<Text, NoMemory>
    ensures { IfOk result (λ path. path ≡ path_of_config git_dir.now) }
{
    let mut path = Vec::from_slice(alloc, git_dir)?;
    path.push(b'/')?;
    path.extend_from_slice(b"config")?;
    Ok(Text::from(path))
}

fn local_meta(path: &Text) -> Result<Meta, NoMemory>
    ensures { IfOk result (λ meta. meta ≡ spec.local_meta path.now) }
{
    Ok(Meta {
        source: Origin::Local,
        level: 0,
        path: Some(path.try_clone()?),
        trusted: true,
    })
}

/// Opens the repository with its local file, and lets its `HEAD` lead to the branch that the configuration names.
fn opened(alloc: Global, new: New, local: File) -> Result<Repository, Error>
    ensures repo { IfOk result (IsNew new local) }
    ensures refused { IfErr result (IsUnopened new local) }
{
    let mut repo = empty(alloc, new, local)?;
    let branch = head_branch(alloc, &repo)?;
    lead_head(alloc, &mut repo, branch)?;
    Ok(repo)
}

/// A repository without objects and references.
fn empty(alloc: Global, new: New, local: File) -> Result<Repository, OpenError>
    ensures state { IfOk result (λ repo. state_of repo ≡ state_in (spec.parts_with new local)) }
    ensures setup { IfOk result (λ repo. setup_in (spec.parts_with new local) ≡ Some (setup_of repo)) }
    ensures refused { IfErr result (IsOpenRefusal new.options.api_config_overrides) }
{
    Repository::from_parts(alloc, parts_with(alloc, new, local))
}

fn parts_with(alloc: Global, new: New, local: File) -> Parts
    ensures parts { result ≡ spec.parts_with new local }
    ensures hash { result.store.hash ≡ result.refs.hash }
{
    let New {
        path,
        hash,
        committer,
        options,
    } = new;
    let Path { git_dir, workdir } = path;
    Parts {
        store: Store::new(alloc, hash),
        refs: Refs::new(alloc, hash),
        border: Border::new(alloc),
        local,
        committer,
        git_dir,
        workdir,
        options,
    }
}

/// The branch that the configuration in force names.
fn head_branch(alloc: Global, repo: &Repository) -> Result<FullName, Error>
    ensures branch { IfOk result (λ branch. spec.head_branch (setup_of repo.now) ≡ Some branch) }
    ensures refused { IfErr result (IsBranchRefusal (default_branch_of (setup_of repo.now).settings.config)) }
{
    let name = default_branch(repo.config());
    match branch_of(alloc, name)? {
        Some(branch) => Ok(branch),
        None => Err(Error::InvalidBranchName {
            name: Text::new(alloc, name)?,
        }),
    }
}

/// Lets `HEAD` lead to the branch.
fn lead_head(alloc: Global, repo: &mut Repository, branch: FullName) -> Result<(), NoMemory>
    ensures state { OnOk result (state_of repo.new ≡ spec.with_head (state_of repo.old) branch) }
    ensures setup { setup_of repo.new ≡ setup_of repo.old }
{
    let edits = [leading(alloc, branch)?];
    let committer = repo.settings().committer.try_clone()?;
    match repo.edit_refs(&edits, &committer, PackedRefs::Never) {
        Ok(()) => Ok(()),
        Err(_) => Err(NoMemory),
    }
}

/// An edit by which `HEAD` leads to the branch.
fn leading(alloc: Global, branch: FullName) -> Result<RefEdit, NoMemory>
    ensures { IfOk result (λ edit. edit ≡ spec.leading branch) }
{
    Ok(RefEdit {
        change: Change::Update {
            log: LogChange {
                mode: RefLog::AndReference,
                force_create_reflog: false,
                message: Text::new(alloc, b"")?,
            },
            expected: PreviousValue::Any,
            new: Target::Symbolic(branch),
        },
        name: head(alloc)?,
    })
}

/// The name `HEAD`.
pub(crate) fn head(alloc: Global) -> Result<FullName, NoMemory>
    ensures { IfOk result (λ name. name ≡ codes "HEAD") }
{
    match FullName::new(alloc, b"HEAD") {
        Ok(name) => Ok(name),
        Err(_) => Err(NoMemory),
    }
}
