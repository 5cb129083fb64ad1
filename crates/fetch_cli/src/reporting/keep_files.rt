//! The keep file that stands in a git directory.

ghost use Rattle.std.specs.Prelude.{◌≡◌, false, None, IfOk};
ghost use Rattle.fetch_remote.specs.Paths.{in_directory as path_in};
ghost use Rattle.fetch_cli.specs.KeepFiles as spec;

use fetch_store::{FileError, Files, MemoryFiles, NoMemory, Text};
use std::alloc::Global;

/// The path of a file in a directory.
fn in_directory(alloc: Global, directory: &[u8], name: &[u8]) -> Result<Text, NoMemory>
    ensures { IfOk result (λ path. path ≡ path_in directory.now name.now) }
{
    let mut path = Vec::from_slice(alloc, directory)?;
    path.push(b'/')?;
    path.extend_from_slice(name)?;
    Ok(Text::from(path))
}

/// The first name in a directory of files that never fail by themselves.
fn first_in(mut files: MemoryFiles, directory: &[u8]) -> Result<Option<Text>, NoMemory>
    requires { ⟦<MemoryFiles as Files>⟧.may_fail files ≡ false }
    ensures { IfOk result (λ name. name ≡ spec.first_in files.tree directory.now) }
{
    match files.list(directory) {
        Ok(names) => Ok(names.into_iter().next()),
        Err(FileError::Failed) => Ok(None),
        Err(FileError::NoMemory) => Err(NoMemory),
    }
}

/// The first file beside the packs of a git directory, where one stands. The files never fail by themselves.
#[tactic(auto, unfolding(crate::specs::KeepFiles::first_kept))]
pub(crate) fn first_kept(
    alloc: Global,
    files: MemoryFiles,
    git_dir: &[u8],
) -> Result<Option<Text>, NoMemory>
    requires { ⟦<MemoryFiles as Files>⟧.may_fail files ≡ false }
    ensures { IfOk result (λ path. path ≡ spec.first_kept git_dir.now files.tree) }
{
    let directory = in_directory(alloc, git_dir, b"objects/pack")?;
    match first_in(files, directory.as_bytes())? {
        Some(name) => Ok(Some(in_directory(alloc, directory.as_bytes(), name.as_bytes())?)),
        None => Ok(None),
    }
}
