//! A repository whose local configuration file changes.

ghost use Rattle.std.specs.Prelude.{◌≡◌, IfOk, IfErr, IsErrOf, OnOk, OnErr, Some};
ghost use Rattle.fetch_base.specs.Faults.{Rose, Counts};
ghost use Rattle.fetch_files.specs.FileCalls.{IsRefused};
ghost use Rattle.fetch_files.specs.Paths.{parts_of};
ghost use Rattle.fetch_files.specs.Trees.{read_in};
ghost use Rattle.fetch_config.specs.Lines.{broken_line, sections_of};
ghost use Rattle.fetch_remote.specs.Paths.{config_path};
ghost use Rattle.fetch_remote.specs.Reloads.{HasRead, HasReloaded, IsReloadRefusal, IsReadRefusal, IsRefusedAt, IsBroken, Reads};
ghost use Rattle.fetch_remote.specs.Repositories.{state_of, setup_of};
ghost use Rattle.fetch_remote.specs.declared.repository.open_error.OpenError.TheVariants as errors;

use crate::repository::Repository;
use crate::repository::open_error::OpenError;
use crate::repository::paths::in_directory;
use fetch_config::{ConfigError, File, Meta};
use fetch_store::{FileError, Files, Text};
use std::alloc::Global;

impl Repository {
    /// Reads the file `config` in the git directory in place of the local file, under that file's metadata, and
    /// resolves configuration, settings and logging anew. After an error the repository is as before. `Missing` comes
    /// where there is no such file, `Config` with the first line that breaks the grammar, and `Io` only where the
    /// files' count of faults rose.
    pub fn reload<F: Files>(&mut self, alloc: Global, files: &mut F) -> Result<(), OpenError>
        ensures state { state_of self.new ≡ state_of self.old }
        ensures ok { OnOk result (HasReloaded (F.told files.old) (setup_of self.old) (setup_of self.new)) }
        ensures refused { IfErr result (IsReloadRefusal (F.told files.old) (setup_of self.old)) }
        ensures err { OnErr result (setup_of self.new ≡ setup_of self.old) }
        ensures io { IsErrOf result errors.Io → Rose (F.faults files.old) (F.faults files.new) }
        ensures in_the_way { IsErrOf result errors.Io
            → IsRefused (F.may_fail files.old) (F.told files.old)
            (λ t. read_in t (parts_of (config_path (setup_of self.old).settings.git_dir))) }
        ensures counts { Counts (F.faults files.old) (F.faults files.new) }
        ensures tree { F.told files.new ≡ F.told files.old }
        ensures may_fail { F.may_fail files.new ≡ F.may_fail files.old }
    {
        let path = in_directory(alloc, self.git_dir(), b"config")?;
        let local = read_configuration(alloc, files, path, self.local_meta())?;
        self.replace_local(alloc, local)
    }
}

/// Reads a configuration file that has to be there, under this metadata. The errors are those of `Repository::reload`.
pub fn read_configuration<F: Files>(
    alloc: Global,
    files: &mut F,
    path: Text,
    meta: &Meta,
) -> Result<File, OpenError>
    ensures file { IfOk result (HasRead (F.told files.old) path meta.now) }
    ensures refused { IfErr result (IsRefusedAt (F.told files.old) path) }
    ensures io { IsErrOf result errors.Io → Rose (F.faults files.old) (F.faults files.new) }
    ensures in_the_way { IsErrOf result errors.Io → IsRefused (F.may_fail files.old) (F.told files.old) (λ t. read_in t (parts_of path)) }
    ensures counts { Counts (F.faults files.old) (F.faults files.new) }
    ensures tree { F.told files.new ≡ F.told files.old }
    ensures may_fail { F.may_fail files.new ≡ F.may_fail files.old }
{
    let text = read_file(path, files)?;
    file_of(alloc, text.as_bytes(), meta)
}

/// The text of a file that has to be there.
fn read_file<F: Files>(path: Text, files: &mut F) -> Result<Text, OpenError>
    ensures ok { IfOk result (λ text. Reads (F.told files.old) path (Some text)) }
    ensures refused { IfErr result (IsReadRefusal (F.told files.old) path) }
    ensures io { IsErrOf result errors.Io → Rose (F.faults files.old) (F.faults files.new) }
    ensures in_the_way { IsErrOf result errors.Io → IsRefused (F.may_fail files.old) (F.told files.old) (λ t. read_in t (parts_of path)) }
    ensures counts { Counts (F.faults files.old) (F.faults files.new) }
    ensures tree { F.told files.new ≡ F.told files.old }
    ensures may_fail { F.may_fail files.new ≡ F.may_fail files.old }
{
    match files.read(path.as_bytes()) {
        Ok(Some(text)) => Ok(text),
        Ok(None) => Err(OpenError::Missing { path }),
        Err(FileError::Failed) => Err(OpenError::Io),
        Err(FileError::NoMemory) => Err(OpenError::NoMemory),
    }
}

/// The file of a text.
pub(crate) fn file_of(alloc: Global, text: &[u8], meta: &Meta) -> Result<File, OpenError>
    ensures accepted { OnOk result (broken_line text.now ≡ None) }
    ensures file { IfOk result (λ file. file ≡ record { meta = meta.now; sections = sections_of meta.now text.now }) }
    ensures refused { IfErr result (IsBroken (broken_line text.now)) }
{
    match File::read(alloc, text, meta.try_clone()?) {
        Ok(file) => Ok(file),
        Err(ConfigError::Syntax { line }) => Err(OpenError::Config { line }),
        Err(_) => Err(OpenError::NoMemory),
    }
}
