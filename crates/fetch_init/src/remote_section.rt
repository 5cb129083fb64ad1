//! A remote's section is written into a repository's configuration.

ghost use Rattle.fetch_base.specs.Faults.{Rose, Counts};
ghost use Rattle.fetch_lookup.specs.Saved.{valid_name};
ghost use Rattle.fetch_remote.specs.Remotes.{renamed};
ghost use Rattle.fetch_init.specs.RemoteSections as remote_sections;
ghost use Rattle.fetch_init.specs.declared.clone.fetch.Error.TheVariants as errors;
ghost use Rattle.std.specs.Prelude.{◌≡◌, IfOk, IfErr, IsErrOf, OnOk, OnErr, Some};
ghost use Rattle.fetch_remote.specs.Repositories.{state_of, setup_of, reopened};
ghost use Rattle.fetch_remote.specs.declared.repository.open_error.OpenError.TheVariants as opening;
ghost use Rattle.fetch_create.specs.Replacing.{replaced as replaced_in};

use crate::clone::fetch::Error;
use crate::head_update::write_local;
use crate::init::opening::config_path;
use fetch_config::File;
use fetch_create::replaced;
use fetch_lookup::save::AsError;
use fetch_remote::{OpenError, Remote, Repository, read_configuration};
use fetch_store::Files;
use std::alloc::Global;

/// Puts the sections of a file into the repository's own configuration in memory, in place of those of the same name and
/// subsection. Memory alone may refuse it: then the repository is as before.
pub fn append_config_to_repo_config(
    alloc: Global,
    repo: &mut Repository,
    config: &File,
) -> Result<(), OpenError>
    ensures state { state_of repo.new ≡ state_of repo.old }
    ensures ok { OnOk result (reopened (setup_of repo.old) (replaced_in config.now.sections (setup_of repo.old).local)
        ≡ Some (setup_of repo.new)) }
    ensures refused { IfErr result (λ e. e ≡ opening.NoMemory) }
    ensures err { OnErr result (setup_of repo.new ≡ setup_of repo.old) }
{
    let local = replaced(alloc, repo.local(), config)?;
    repo.replace_local(alloc, local)
}

/// Saves the remote by itself under a valid name, which it then has, and writes its section into the file `config`, in place
/// of those of that name. It answers the file of that section. `SaveConfig` comes before the file is read. After an error
/// the remote and the files are as before.
pub fn append_remote_to_local_config_file<F: Files>(
    alloc: Global,
    files: &mut F,
    repo: &Repository,
    remote: &mut Remote,
    name: &[u8],
) -> Result<File, Error>
    ensures section { IfOk result (λ section. section ≡ remote_sections.section_of (setup_of repo.now) remote.old name.now) }
    ensures named { OnOk result (remote.new ≡ renamed (valid_name name.now) remote.old) }
    ensures written { IfOk result (remote_sections.IsSectionWritten (F.told files.old) (setup_of repo.now) (F.told files.new)) }
    ensures refused { IfErr result (remote_sections.IsSectionRefusal (F.may_fail files.old) (F.told files.old)
        (setup_of repo.now) remote.old name.now (F.told files.new)) }
    ensures err { OnErr result (remote.new ≡ remote.old) }
    ensures load { IsErrOf result (errors.LoadConfig opening.Io) → Rose (F.faults files.old) (F.faults files.new) }
    ensures io { IsErrOf result errors.SaveConfigIo → Rose (F.faults files.old) (F.faults files.new) }
    ensures counts { Counts (F.faults files.old) (F.faults files.new) }
    ensures may_fail { F.may_fail files.new ≡ F.may_fail files.old }
{
    let mut named = remote.try_clone()?;
    let section = saved_alone(alloc, repo, &mut named, name)?;
    match write_section(alloc, files, repo, &section) {
        Ok(()) => {
            *remote = named;
            Ok(section)
        }
        Err(e) => Err(e),
    }
}

/// Writes sections into the file `config`, in place of those of their names and subsections. After an error it is as before.
fn write_section<F: Files>(
    alloc: Global,
    files: &mut F,
    repo: &Repository,
    section: &File,
) -> Result<(), Error>
    ensures written { OnOk result (remote_sections.IsSectionWritten (F.told files.old) (setup_of repo.now) (F.told files.new) section.now) }
    ensures refused { IfErr result (remote_sections.IsUnwritten (F.may_fail files.old) (F.told files.old) (setup_of repo.now) section.now
        (F.told files.new)) }
    ensures load { IsErrOf result (errors.LoadConfig opening.Io) → Rose (F.faults files.old) (F.faults files.new) }
    ensures io { IsErrOf result errors.SaveConfigIo → Rose (F.faults files.old) (F.faults files.new) }
    ensures counts { Counts (F.faults files.old) (F.faults files.new) }
    ensures may_fail { F.may_fail files.new ≡ F.may_fail files.old }
{
    let path = config_path(alloc, repo.git_dir())?;
    let local = match read_configuration(alloc, files, path, repo.local().meta()) {
        Ok(local) => local,
        Err(OpenError::NoMemory) => return Err(Error::NoMemory),
        Err(e) => return Err(Error::LoadConfig(e)),
    };
    let local = replaced(alloc, &local, section)?;
    write_local(alloc, files, repo.git_dir(), &local)
}

/// The section of a remote in a file by itself.
fn saved_alone(
    alloc: Global,
    repo: &Repository,
    remote: &mut Remote,
    name: &[u8],
) -> Result<File, Error>
    ensures section { IfOk result (λ section. section ≡ remote_sections.section_of (setup_of repo.now) remote.old name.now) }
    ensures named { OnOk result (remote.new ≡ renamed (valid_name name.now) remote.old) }
    ensures saveable { OnOk result (remote_sections.IsSaveable remote.old name.now) }
    ensures refused { IfErr result (remote_sections.IsUnsavedAs remote.old name.now) }
{
    let meta = repo.local().meta().try_clone()?;
    let Ok(mut section) = File::new(alloc, meta) else {
        return Err(Error::NoMemory);
    };
    match remote.save_as_to(alloc, name, &mut section) {
        Ok(()) => Ok(section),
        Err(AsError::NoMemory) => Err(Error::NoMemory),
        Err(e) => Err(Error::SaveConfig(e)),
    }
}
