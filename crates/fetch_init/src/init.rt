//! A repository is created and opened.

pub(crate) mod opening;

ghost use Rattle.std.specs.Prelude.{◌≡◌, true, IfOk, IfErr, OnOk, IsTrue};
ghost use Rattle.fetch_base.specs.Faults.{Rose, Counts};
ghost use Rattle.fetch_remote.specs.Repositories.{open_options as usual_options};
ghost use Rattle.fetch_create.specs.Creation.{Reaches};
ghost use Rattle.fetch_init.specs.Initial.{IsInitial, IsInitRefusal, new_of, is_init_fault};
ghost use Rattle.fetch_create.specs.Plans.{steps_of};

use crate::create::{self, Kind, Options};
use crate::init::opening::{New, open_new};
use fetch_refs::Signature;
use fetch_remote::{OpenError, OpenOptions, ThreadSafeRepository};
use fetch_store::{Files, NoMemory, Text};
use std::alloc::Global;
use thiserror::Error as ThisError;

/// Why there is no new repository. What was created before stays.
#[derive(Debug, Drop, ThisError)]
pub enum Error {
    /// Its files weren't created.
    #[error(transparent)]
    Init(create::Error),
    /// It wasn't opened.
    #[error(transparent)]
    Open(OpenError),
    /// No branch can be called so.
    #[error("the default branch has no name of a branch")]
    InvalidBranchName {
        /// The short name, as the configuration has it.
        name: Text,
    },
    /// Memory ran out.
    #[error("out of memory")]
    NoMemory,
}

impl Error {
    ghost use Rattle.std.specs.Prelude.{◌≡◌, IfOk};

    /// An equal error.
    pub fn try_clone(&self) -> Result<Error, NoMemory>
        ensures { IfOk result (λ copy. copy ≡ self.now) }
    {
        match self {
            Error::Init(e) => Ok(Error::Init(e.try_clone()?)),
            Error::Open(e) => Ok(Error::Open(e.try_clone()?)),
            Error::InvalidBranchName { name } => Ok(Error::InvalidBranchName {
                name: name.try_clone()?,
            }),
            Error::NoMemory => Ok(Error::NoMemory),
        }
    }
}

impl From<create::Error> for Error {
    ghost use Rattle.std.specs.Prelude.{◌≡◌};
    ghost use Rattle.fetch_init.specs.Initial.{creation_refusal};

    ghost from_gives = { λ e f. f ≡ creation_refusal e };

    fn from(e: create::Error) -> Error {
        match e {
            create::Error::NoMemory => Error::NoMemory,
            e => Error::Init(e),
        }
    }
}

impl From<OpenError> for Error {
    ghost use Rattle.std.specs.Prelude.{◌≡◌};
    ghost use Rattle.fetch_init.specs.Initial.{opening_refusal};

    ghost from_gives = { λ e f. f ≡ opening_refusal e };

    fn from(e: OpenError) -> Error {
        match e {
            OpenError::NoMemory => Error::NoMemory,
            e => Error::Open(e),
        }
    }
}

impl From<NoMemory> for Error {
    ghost use Rattle.std.specs.Prelude.{◌≡◌};
    ghost use Rattle.fetch_init.specs.declared.init.Error.TheVariants as errors;

    ghost from_gives = { λ _ e. e ≡ errors.NoMemory };

    fn from(_e: NoMemory) -> Error {
        Error::NoMemory
    }
}

/// Creates a repository and opens it, as `init_opts` does: settings that can't be read are taken as absent, there are no
/// overrides, and nothing comes before the repository's own configuration.
pub fn init<F: Files>(
    alloc: Global,
    files: &mut F,
    directory: &[u8],
    kind: Kind,
    options: Options,
    committer: Signature,
) -> Result<ThreadSafeRepository, Error>
    ensures created { OnOk result (Reaches (F.told files.old) (steps_of directory.now kind options) (F.told files.new)) }
    ensures repo { IfOk result (IsInitial (F.told files.new) (new_of directory.now kind options committer (usual_options true))) }
    ensures refused { IfErr result (IsInitRefusal (F.may_fail files.old) (F.told files.old) (steps_of directory.now kind options)
        (new_of directory.now kind options committer (usual_options true)) (F.told files.new)) }
    ensures cause { IfErr result (λ e. IsTrue (is_init_fault e) → Rose (F.faults files.old) (F.faults files.new)) }
    ensures counts { Counts (F.faults files.old) (F.faults files.new) }
    ensures may_fail { F.may_fail files.new ≡ F.may_fail files.old }
{
    init_opts(
        alloc,
        files,
        directory,
        kind,
        options,
        OpenOptions::lenient(alloc),
        committer,
    )
}

/// Creates a repository, reads its configuration, and lets `HEAD` lead to the branch that the configuration names, or
/// to `main`. No line of a reflog is written. What was created before a refusal stays. `Init` tells a step of the
/// creation that was refused, `Open` why the configuration couldn't be read, and `InvalidBranchName` a branch that
/// can't be called so.
// Many arguments: the public signature. Each tells another thing of the new repository.
pub fn init_opts<F: Files>(
    alloc: Global,
    files: &mut F,
    directory: &[u8],
    kind: Kind,
    options: Options,
    open_options: OpenOptions,
    committer: Signature,
) -> Result<ThreadSafeRepository, Error>
    ensures created { OnOk result (Reaches (F.told files.old) (steps_of directory.now kind options) (F.told files.new)) }
    ensures repo { IfOk result (IsInitial (F.told files.new) (new_of directory.now kind options committer open_options)) }
    ensures refused { IfErr result (IsInitRefusal (F.may_fail files.old) (F.told files.old) (steps_of directory.now kind options)
        (new_of directory.now kind options committer open_options) (F.told files.new)) }
    ensures cause { IfErr result (λ e. IsTrue (is_init_fault e) → Rose (F.faults files.old) (F.faults files.new)) }
    ensures counts { Counts (F.faults files.old) (F.faults files.new) }
    ensures may_fail { F.may_fail files.new ≡ F.may_fail files.old }
{
    let path = create::into(alloc, files, directory, kind, options)?;
    let new = New {
        path,
        hash: options.object_hash.unwrap_or(fetch_store::Kind::Sha1),
        committer,
        options: open_options,
    };
    let repo = open_new(alloc, files, new)?;
    Ok(repo.into_sync())
}
