//! Files of a repository.

ghost use Rattle.std.specs.Prelude.{◌≡◌, IfOk};
ghost use Rattle.fetch_remote.specs.Paths as spec;

use crate::repository::settings::Settings;
use fetch_store::{NoMemory, ObjectId, Text};
use std::alloc::Global;

/// The path of a file in a directory.
pub(crate) fn in_directory(alloc: Global, directory: &[u8], name: &[u8]) -> Result<Text, NoMemory>
    ensures { IfOk result (λ path. path ≡ spec.in_directory directory.now name.now) }
{
    let mut path = Vec::from_slice(alloc, directory)?;
    path.push(b'/')?;
    path.extend_from_slice(name)?;
    Ok(Text::from(path))
}

/// Where the border is written.
#[tactic(auto, unfolding(crate::specs::Paths::shallow_file_of, crate::specs::Paths::shallow_files_in))]
pub(crate) fn shallow_file(alloc: Global, settings: &Settings) -> Result<Text, NoMemory>
    ensures { IfOk result (λ path. path ≡ spec.shallow_file_of settings.now.config settings.now.git_dir) }
{
    let name = match settings
        .config
        .string(b"gitoxide", Some(b"core"), b"shallowFile", true)
    {
        Some(name) => name,
        None => b"shallow",
    };
    in_directory(alloc, settings.git_dir.as_bytes(), name)
}

/// The file that keeps the pack of a digest.
#[tactic(auto, unfolding(crate::specs::Paths::keep_path))]
pub(crate) fn keep_file(alloc: Global, git_dir: &[u8], digest: &ObjectId) -> Result<Text, NoMemory>
    ensures { IfOk result (λ path. path ≡ spec.keep_path git_dir.now digest.now) }
{
    let Ok(digits) = digest.to_hex(alloc) else {
        return Err(NoMemory);
    };
    let mut name = Vec::from_slice(alloc, b"objects/pack/pack-")?;
    name.extend_from_slice(digits.as_bytes())?;
    name.extend_from_slice(b".keep")?;
    in_directory(alloc, git_dir, &name)
}
