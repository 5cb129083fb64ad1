//! A clone takes the hash of its remote.

ghost use Rattle.std.specs.Prelude.{◌≡◌, IfOk, IfErr, IsErrOf, OnErr};
ghost use Rattle.fetch_base.specs.Faults.{Rose, Counts};
ghost use Rattle.fetch_remote.specs.Repositories.{setup_of};
ghost use Rattle.fetch_remote.specs.declared.repository.open_error.OpenError.TheVariants as opening;
ghost use Rattle.fetch_clone.specs.Hashed as spec;
ghost use Rattle.fetch_clone.specs.Hashed.{IsHashed, IsUnhashed};
ghost use Rattle.fetch_init.specs.declared.clone.fetch.Error.TheVariants as errors;

use fetch_config::File;
use fetch_create::set_version;
use fetch_init::clone::fetch::Error;
use fetch_init::{config_path, write_local};
use fetch_remote::{OpenError, Repository, Resolved, read_configuration};
use fetch_store::{Files, Kind};
use std::alloc::Global;

/// A repository in which nothing has an id takes the hash. Before that the file `config` is read, and written anew with the
/// hash's version; what it says then is answered, to be put in force. Where the hash is the same, or something has an id, all
/// stays as it is. After an error the repository is as before. `ReopenWithObjectHash` comes where the file is missing, can't be
/// read or written, or breaks the grammar.
pub(crate) fn take_hash<F: Files>(
    alloc: Global,
    kind: Kind,
    repo: &mut Repository,
    files: &mut F,
) -> Result<Option<Resolved>, Error>
    ensures hashed { IfOk result (λ reread. IsHashed (F.told files.old) (F.told files.new) kind repo.old repo.new reread) }
    ensures refused { IfErr result (IsUnhashed (F.may_fail files.old) (F.told files.old) (F.told files.new) kind repo.old) }
    ensures err { OnErr result (repo.new ≡ repo.old) }
    ensures io { IsErrOf result (errors.ReopenWithObjectHash opening.Io) → Rose (F.faults files.old) (F.faults files.new) }
    ensures counts { Counts (F.faults files.old) (F.faults files.new) }
    ensures may_fail { F.may_fail files.new ≡ F.may_fail files.old }
{
    if repo.object_hash() == kind || !repo.has_no_ids() {
        return Ok(None);
    }
    let reread = rewritten(alloc, kind, repo, files)?;
    repo.change_hash(kind);
    Ok(Some(reread))
}

/// Reads the file `config`, and writes it anew with the version of the hash. All memory for that is taken before.
fn rewritten<F: Files>(
    alloc: Global,
    kind: Kind,
    repo: &Repository,
    files: &mut F,
) -> Result<Resolved, Error>
    ensures ok { IfOk result (spec.IsReread (F.told files.old) (F.told files.new) kind (setup_of repo.now)) }
    ensures refused { IfErr result (spec.IsUnreread (F.may_fail files.old) (F.told files.old) (F.told files.new) kind (setup_of repo.now)) }
    ensures io { IsErrOf result (errors.ReopenWithObjectHash opening.Io) → Rose (F.faults files.old) (F.faults files.new) }
    ensures counts { Counts (F.faults files.old) (F.faults files.new) }
    ensures may_fail { F.may_fail files.new ≡ F.may_fail files.old }
{
    let mut local = read_local(alloc, repo, files)?;
    set_version(alloc, &mut local, kind)?;
    let Ok(reread) = repo.resolve_local(alloc, local) else {
        return Err(Error::NoMemory);
    };
    match write_local(alloc, files, repo.git_dir(), &reread.file) {
        Ok(()) => Ok(reread),
        Err(Error::SaveConfigIo) => Err(Error::ReopenWithObjectHash(OpenError::Io)),
        Err(_) => Err(Error::NoMemory),
    }
}

/// What the file `config` says.
fn read_local<F: Files>(alloc: Global, repo: &Repository, files: &mut F) -> Result<File, Error>
    ensures ok { IfOk result (spec.IsLocal (F.told files.old) (setup_of repo.now)) }
    ensures refused { IfErr result (spec.IsUnread (F.may_fail files.old) (F.told files.old) (setup_of repo.now)) }
    ensures io { IsErrOf result (errors.ReopenWithObjectHash opening.Io) → Rose (F.faults files.old) (F.faults files.new) }
    ensures counts { Counts (F.faults files.old) (F.faults files.new) }
    ensures tree { F.told files.new ≡ F.told files.old }
    ensures may_fail { F.may_fail files.new ≡ F.may_fail files.old }
{
    let path = config_path(alloc, repo.git_dir())?;
    match read_configuration(alloc, files, path, repo.local().meta()) {
        Ok(local) => Ok(local),
        Err(OpenError::NoMemory) => Err(Error::NoMemory),
        Err(e) => Err(Error::ReopenWithObjectHash(e)),
    }
}
