//! A repository's files are created.

mod plan;
mod run;
pub mod step;

ghost use Rattle.std.specs.Prelude.{◌≡◌, IfOk, IfErr, OnOk, IsTrue};
ghost use Rattle.fetch_base.specs.Faults.{Rose, Counts};
ghost use Rattle.fetch_create.specs.Creation.{Reaches, IsStopped, is_fault};
ghost use Rattle.fetch_create.specs.Plans.{path_of, steps_of};

pub use crate::create::run::listed;
use crate::create::run::perform;
use fetch_store::{Files, NoMemory, Text};
use std::alloc::Global;
use thiserror::Error as ThisError;

/// Whether a repository has a work tree.
#[derive(Clone, Copy, Debug, PartialEq, Eq)]
pub enum Kind {
    /// The git directory is `.git` in the directory of the work tree.
    WithWorktree,
    /// The directory is the git directory.
    Bare,
}

/// What the file system can do, as the configuration says it.
#[derive(Clone, Copy, Debug, PartialEq, Eq)]
pub struct Capabilities {
    /// Files have executable bits.
    pub executable_bit: bool,
    /// There are symbolic links.
    pub symlink: bool,
    /// Names that differ in case alone are one.
    pub ignore_case: bool,
    /// Names come back with their characters decomposed.
    pub precompose_unicode: bool,
}

/// How a repository is created.
#[derive(Clone, Copy, Debug, PartialEq, Eq, Default)]
pub struct Options {
    /// Refuse a directory that has entries. A bare repository always does; with a work tree, None doesn't.
    pub destination_must_be_empty: Option<bool>,
    /// What the file system can do. None: executable bits and symbolic links, and nothing else.
    pub fs_capabilities: Option<Capabilities>,
    /// The hash of ids. None: SHA-1.
    pub object_hash: Option<fetch_store::Kind>,
}

/// Where a repository is.
#[derive(Debug, Drop, PartialEq, Eq)]
pub struct Path {
    /// The directory of the repository.
    pub git_dir: Text,
    /// The directory of the work tree, where there is one.
    pub workdir: Option<Text>,
}

impl Path {
    /// An equal place.
    pub fn try_clone(&self) -> Result<Path, NoMemory>
        ensures { IfOk result (λ copy. copy ≡ self.now) }
    {
        let workdir = match &self.workdir {
            Some(workdir) => Some(workdir.try_clone()?),
            None => None,
        };
        Ok(Path {
            git_dir: self.git_dir.try_clone()?,
            workdir,
        })
    }
}

/// Why a repository wasn't created. What was written before stays.
#[derive(Debug, Drop, PartialEq, Eq, ThisError)]
pub enum Error {
    /// The directory that has to be empty couldn't be listed, or made; or the files failed where they were asked what is there.
    #[error("a directory couldn't be opened")]
    IoOpen { path: Text },
    /// The files failed to write a file.
    #[error("a file couldn't be written")]
    IoWrite { path: Text },
    /// The files failed to make a directory.
    #[error("a directory couldn't be made")]
    CreateDirectory { path: Text },
    /// The directory has an entry.
    #[error("the directory isn't empty")]
    DirectoryNotEmpty { path: Text },
    /// The git directory is there.
    #[error("the directory exists")]
    DirectoryExists { path: Text },
    /// Memory ran out.
    #[error("out of memory")]
    NoMemory,
}

impl Error {
    /// An equal error.
    pub fn try_clone(&self) -> Result<Error, NoMemory>
        ensures { IfOk result (λ copy. copy ≡ self.now) }
    {
        match self {
            Error::IoOpen { path } => Ok(Error::IoOpen {
                path: path.try_clone()?,
            }),
            Error::IoWrite { path } => Ok(Error::IoWrite {
                path: path.try_clone()?,
            }),
            Error::CreateDirectory { path } => Ok(Error::CreateDirectory {
                path: path.try_clone()?,
            }),
            Error::DirectoryNotEmpty { path } => Ok(Error::DirectoryNotEmpty {
                path: path.try_clone()?,
            }),
            Error::DirectoryExists { path } => Ok(Error::DirectoryExists {
                path: path.try_clone()?,
            }),
            Error::NoMemory => Ok(Error::NoMemory),
        }
    }
}

impl From<NoMemory> for Error {
    ghost use Rattle.std.specs.Prelude.{◌≡◌};
    ghost use Rattle.fetch_create.specs.declared.create.Error.TheVariants as errors;

    ghost from_gives = { λ _ e. e ≡ errors.NoMemory };

    fn from(_e: NoMemory) -> Error {
        Error::NoMemory
    }
}

/// Creates the files of an empty repository, step by step. What was done before a step that is refused stays. A fault
/// of the files comes only where their count rose; `DirectoryNotEmpty` and `DirectoryExists` tell the directory that is
/// in the way.
pub fn into<F: Files>(
    alloc: Global,
    files: &mut F,
    directory: &[u8],
    kind: Kind,
    options: Options,
) -> Result<Path, Error>
    ensures path { IfOk result (λ path. path ≡ path_of directory.now kind) }
    ensures done { OnOk result (Reaches (F.told files.old) (steps_of directory.now kind options) (F.told files.new)) }
    ensures refused { IfErr result (IsStopped (F.may_fail files.old) (F.told files.old) (steps_of directory.now kind options)
        (F.told files.new)) }
    ensures cause { IfErr result (λ e. IsTrue (is_fault e) → Rose (F.faults files.old) (F.faults files.new)) }
    ensures counts { Counts (F.faults files.old) (F.faults files.new) }
    ensures may_fail { F.may_fail files.new ≡ F.may_fail files.old }
{
    let path = plan::path_of(alloc, directory, kind)?;
    let steps = plan::steps_of(alloc, directory, kind, options)?;
    perform(files, steps.as_slice())?;
    Ok(path)
}
