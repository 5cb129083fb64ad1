//! The keep file of a pack.

ghost use Rattle.std.specs.Prelude.{◌≡◌, ◌⊎◌, [], None, Some, false, if◌then◌else◌, IfOk, IfErr, OnErr, OnOk};
ghost use Rattle.std.specs.Option.{option_map};
ghost use Rattle.fetch_base.specs.Faults.{Rose, Counts};
ghost use Rattle.fetch_files.specs.FileCalls.{Changes, IsRefused};
ghost use Rattle.fetch_files.specs.Paths.{parts_of};
ghost use Rattle.fetch_files.specs.Trees.{written, without_file};
ghost use Rattle.fetch_conversation.specs.declared.fetch.Error.TheVariants as errors;
ghost use Rattle.fetch_remote.specs.Keeping as spec;
ghost use Rattle.fetch_remote.specs.Keeping.{AreFiles, with_keep, without_keep};
ghost use Rattle.fetch_remote.specs.Paths.{keep_path};
ghost use Rattle.fetch_remote.specs.Applying.{pack_kept, kept_told, released};
ghost use Rattle.fetch_remote.specs.Blame.{BlamesFiles, keep_fault_in, lent_files, told_by};

use crate::fetch;
use crate::fetching::outcome::PackOutcome;
use crate::repository::paths::keep_file;
use crate::repository::settings::Settings;
use fetch_store::{Failed, FileError, Files, NoMemory, ObjectId, Text};
use fetch_update::update;
use std::alloc::Global;

/// A pack whose keep file was made.
#[derive(Drop)]
pub struct Kept {
    /// How many objects it has, each as often as it comes.
    pub num_objects: u32,
    /// The digest of the pack, after which the file is named.
    pub digest: ObjectId,
    /// Where the keep file stands.
    pub path: Text,
}

impl Kept {
    /// An equal pack.
    pub fn try_clone(&self) -> Result<Kept, NoMemory>
        ensures { IfOk result (λ copy. copy ≡ self.now) }
    {
        Ok(Kept {
            num_objects: self.num_objects,
            digest: self.digest,
            path: self.path.try_clone()?,
        })
    }
}

/// Makes the file that keeps the pack of a digest, `<git dir>/objects/pack/pack-<digest>.keep`, and answers its path. The
/// file is empty. After an error the tree that the files tell is as before.
pub fn make_keep<F: Files>(
    alloc: Global,
    files: &mut F,
    settings: &Settings,
    digest: &ObjectId,
) -> Result<Text, fetch::Error>
    ensures path { IfOk result (λ path. path ≡ keep_path settings.now.git_dir digest.now) }
    ensures refused { IfErr result (λ e. (e ≡ errors.KeepFile (keep_path settings.now.git_dir digest.now)) ⊎ (e ≡ errors.NoMemory)) }
    ensures tree { Changes (F.told files.old) (F.told files.new)
        (λ t. written t (parts_of (keep_path settings.now.git_dir digest.now)) []) result }
    ensures files { BlamesFiles (lent_files F.may_fail F.told F.faults files.old)
        (lent_files F.may_fail F.told F.faults files.new) (told_by keep_fault_in result) }
{
    let path = keep_file(alloc, settings.git_dir.as_bytes(), digest)?;
    match files.write(path.as_bytes(), b"") {
        Ok(()) => Ok(path),
        Err(FileError::Failed) => Err(fetch::Error::KeepFile { path }),
        Err(FileError::NoMemory) => Err(fetch::Error::NoMemory),
    }
}

/// Removes the file that keeps a pack. Takes no memory. After an error, which tells the path, the tree that the files tell is
/// as before.
pub fn remove_keep<F: Files>(files: &mut F, path: Text) -> Result<(), fetch::Error>
    ensures refused { IfErr result (λ e. e ≡ errors.RemovePackKeepFile path) }
    ensures counts { Counts (F.faults files.old) (F.faults files.new) }
    ensures cause { OnErr result (Rose (F.faults files.old) (F.faults files.new)) }
    ensures tree { Changes (F.told files.old) (F.told files.new) (λ t. without_file t (parts_of path)) result }
    ensures in_the_way { OnErr result (IsRefused (F.may_fail files.old) (F.told files.old) (λ t. without_file t (parts_of path))) }
    ensures may_fail { F.may_fail files.new ≡ F.may_fail files.old }
{
    match files.remove_file(path.as_bytes()) {
        Ok(()) => Ok(()),
        Err(Failed) => Err(fetch::Error::RemovePackKeepFile { path }),
    }
}

/// Makes the keep file of a pack, where one was read.
pub fn keep<F: Files>(
    alloc: Global,
    files: &mut F,
    settings: &Settings,
    pack: Option<(u32, ObjectId)>,
) -> Result<Option<Kept>, fetch::Error>
    ensures kept { IfOk result (λ found. found ≡ option_map (pack_kept settings.now.git_dir) pack) }
    ensures made { OnOk result (AreFiles (F.told files.old) (F.told files.new) (with_keep (spec.made settings.now.git_dir pack))) }
    ensures refused { IfErr result (λ e. spec.IsUnmade (spec.made settings.now.git_dir pack) (F.told files.old) (F.told files.new) e) }
    ensures unread { pack ≡ None → files.new ≡ files.old }
    ensures files { BlamesFiles (lent_files F.may_fail F.told F.faults files.old)
        (lent_files F.may_fail F.told F.faults files.new) (told_by keep_fault_in result) }
{
    let Some((num_objects, digest)) = pack else {
        return Ok(None);
    };
    let path = make_keep(alloc, files, settings, &digest)?;
    Ok(Some(Kept {
        num_objects,
        digest,
        path,
    }))
}

/// Removes the keep file, unless it stays, and tells the pack. Takes no memory.
pub(crate) fn release<F: Files>(
    files: &mut F,
    kept: Kept,
    updates: &update::Outcome,
) -> Result<PackOutcome, fetch::Error>
    ensures told { IfOk result (λ pack. pack ≡ kept_told updates.now kept) }
    ensures removed { OnOk result (AreFiles (F.told files.old) (F.told files.new) (without_keep (released updates.now (Some kept)))) }
    ensures refused { IfErr result (λ e. (e ≡ errors.RemovePackKeepFile kept.path) × (released updates.now (Some kept) ≡ Some kept.path)) }
    ensures stands { OnErr result (F.told files.new ≡ F.told files.old) }
    ensures counts { Counts (F.faults files.old) (F.faults files.new) }
    ensures cause { OnErr result (Rose (F.faults files.old) (F.faults files.new)) }
    ensures in_the_way { OnErr result (IsRefused (F.may_fail files.old) (F.told files.old) (λ t. without_file t (parts_of kept.path))) }
    ensures may_fail { F.may_fail files.new ≡ F.may_fail files.old }
{
    let Kept {
        num_objects,
        digest,
        path,
    } = kept;
    let keep_path = path_that_stays(files, path, stays(updates, num_objects))?;
    Ok(PackOutcome {
        num_objects,
        digest,
        keep_path,
    })
}

/// Whether a keep file stays: where no edit stands and the pack has objects.
fn stays(updates: &update::Outcome, num_objects: u32) -> bool
    ensures { result ≡ spec.stays updates.now num_objects }
{
    updates.edits.is_empty() && num_objects != 0
}

/// The path, where the file stays; else the file is removed.
fn path_that_stays<F: Files>(
    files: &mut F,
    path: Text,
    stays: bool,
) -> Result<Option<Text>, fetch::Error>
    ensures told { IfOk result (λ told. told ≡ (if stays then Some path else None)) }
    ensures removed { OnOk result (AreFiles (F.told files.old) (F.told files.new) (without_keep (if stays then None else Some path))) }
    ensures refused { IfErr result (λ e. (e ≡ errors.RemovePackKeepFile path) × (stays ≡ false)) }
    ensures stands { OnErr result (F.told files.new ≡ F.told files.old) }
    ensures counts { Counts (F.faults files.old) (F.faults files.new) }
    ensures cause { OnErr result (Rose (F.faults files.old) (F.faults files.new)) }
    ensures in_the_way { OnErr result (IsRefused (F.may_fail files.old) (F.told files.old) (λ t. without_file t (parts_of path))) }
    ensures may_fail { F.may_fail files.new ≡ F.may_fail files.old }
{
    if stays {
        return Ok(Some(path));
    }
    remove_keep(files, path)?;
    Ok(None)
}
