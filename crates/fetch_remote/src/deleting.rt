//! Deleting local branches.

pub mod deletion;
pub mod editing;
pub mod undeletable;

ghost use Rattle.std.specs.Prelude.{◌≡◌, ◌≢◌, [], Ok, map as each, is_some, IfOk, IfErr, IfSome, IsErrOf, OnOk, OnErr, option_and_then};
ghost use Rattle.std.specs.Bool.{OnTrue};
ghost use Rattle.std.specs.BTreeSet.{insert_key};
ghost use Rattle.fetch_base.specs.Faults.{Rose, Counts};
ghost use Rattle.fetch_files.specs.FileCalls.{IsRefused};
ghost use Rattle.fetch_files.specs.Paths.{parts_of};
ghost use Rattle.fetch_files.specs.Trees.{read_in, written, renamed};
ghost use Rattle.fetch_specs.specs.Categories.{shortened};
ghost use Rattle.fetch_config.specs.Print.{text_of};
ghost use Rattle.fetch_lookup.specs.Removed.{without_branches};
ghost use Rattle.fetch_refs.specs.Names.{name_cmp};
ghost use Rattle.fetch_remote.specs.Deleting as spec;
ghost use Rattle.fetch_remote.specs.DeletionSteps as steps;
ghost use Rattle.fetch_remote.specs.Repositories.{state_of, setup_of};
ghost use Rattle.fetch_remote.specs.declared.delete.Error.TheVariants as errors;
ghost use Rattle.fetch_remote.specs.declared.repository.open_error.OpenError.TheVariants as causes;
ghost use Rattle.fetch_remote.specs.Blame.{BlamesWorktrees, fault_deleting, told_by, lent_trees};

use crate::delete::{CleanupError, Error};
use crate::deleting::undeletable::{check_local, check_unheld};
use crate::repository::open_error::OpenError;
use crate::repository::paths::in_directory;
use crate::repository::reload::file_of;
use crate::repository::{Repository, Resolved};
use fetch_config::{File, Meta, Origin};
use fetch_lookup::{Names, has_branch_sections, without_branch_sections};
use fetch_refs::{Change, PackedRefs, PreviousValue, RefEdit, RefLog};
use fetch_specs::FullName;
use fetch_store::{FileError, Files, List, NoMemory, Text};
use fetch_update::Worktrees;
use std::alloc::Global;
use std::collections::BTreeSet;

/// What becomes of the configuration, with all memory that it takes.
#[derive(Drop)]
pub(crate) struct ConfigChange {
    /// Where the new text is written first.
    pub(crate) lock: Text,
    /// The text without the sections.
    pub(crate) text: Text,
    /// The local file without them.
    pub(crate) local: Resolved,
}

impl Repository {
    /// Deletes local branches that are checked out nowhere: their references with the reflogs, and then their sections of
    /// the configuration, from the file `config` of the git directory and from memory. A branch that isn't there is no
    /// fault. No name at all is Ok at once.
    ///
    /// The new text is written to `config.lock`, which is then put in the place of `config`; where the file has no
    /// section of these branches, it isn't written. All memory but that of these two calls is taken before anything
    /// changes. What each error says, and what it leaves, stands at `delete::Error`. The faults of work trees and files
    /// come only where their count rose.
    pub fn delete_local_branches<W: Worktrees, F: Files>(
        &mut self,
        alloc: Global,
        names: &[FullName],
        worktrees: &mut W,
        files: &mut F,
    ) -> Result<(), Error>
        ensures nothing { names.now ≡ [] → (result ≡ Ok tt)
            × ((self.new ≡ self.old) × ((worktrees.new ≡ worktrees.old) × (files.new ≡ files.old))) }
        ensures deleted { names.now ≢ [] → OnOk result
            (spec.IsDeleted (W.told worktrees.old) (F.told files.old) (F.told files.new) (spec.in_order names.now) self.old self.new) }
        ensures refused { IfErr result (spec.IsRefused (W.told worktrees.old) (F.told files.old) (setup_of self.old).settings.git_dir
            (spec.in_order names.now)) }
        ensures left { IfErr result (spec.Leaves (F.told files.old) (F.told files.new) (setup_of self.old).settings.git_dir
            (spec.in_order names.now) (state_of self.old) (state_of self.new)) }
        ensures setup { OnErr result (setup_of self.new ≡ setup_of self.old) }
        ensures unasked { IfErr result (λ e. OnTrue (spec.is_unlocal e) (worktrees.new ≡ worktrees.old)) }
        ensures worktrees { BlamesWorktrees (lent_trees W.told W.asked W.listing W.open_repo W.follow_symref worktrees.old)
            (lent_trees W.told W.asked W.listing W.open_repo W.follow_symref worktrees.new) (told_by fault_deleting result) }
        ensures untouched { IfErr result (λ e. OnTrue (spec.is_before_files e) (files.new ≡ files.old)) }
        ensures file_fault { IfErr result (λ e. OnTrue (spec.is_file_fault e) (Rose (F.faults files.old) (F.faults files.new))) }
        ensures in_the_way { IfErr result (spec.IsInTheWay (F.may_fail files.old) (F.told files.old) (F.told files.new)
            (setup_of self.old).settings.git_dir) }
        ensures counts { Counts (F.faults files.old) (F.faults files.new) }
        ensures tree { is_some (F.told files.new) ≡ is_some (F.told files.old) }
        ensures may_fail { F.may_fail files.new ≡ F.may_fail files.old }
    {
        if names.is_empty() {
            return Ok(());
        }
        let names = in_order(alloc, names)?;
        check_local(names.as_slice())?;
        check_unheld(alloc, names.as_slice(), worktrees)?;
        self.delete(alloc, names, files)
    }

    /// The same, once nothing stands against it but the configuration.
    fn delete<F: Files>(
        &mut self,
        alloc: Global,
        names: List<FullName>,
        files: &mut F,
    ) -> Result<(), Error>
        ensures deleted { OnOk result (steps.IsGone (F.told files.old) (F.told files.new) names self.old self.new) }
        ensures refused { IfErr result (steps.IsNotGone (F.told files.old) (setup_of self.old).settings.git_dir names) }
        ensures left { IfErr result (spec.Leaves (F.told files.old) (F.told files.new) (setup_of self.old).settings.git_dir names
            (state_of self.old) (state_of self.new)) }
        ensures setup { OnErr result (setup_of self.new ≡ setup_of self.old) }
        ensures file_fault { IfErr result (λ e. OnTrue (spec.is_file_fault e) (Rose (F.faults files.old) (F.faults files.new))) }
        ensures in_the_way { IfErr result (spec.IsInTheWay (F.may_fail files.old) (F.told files.old) (F.told files.new)
            (setup_of self.old).settings.git_dir) }
        ensures counts { Counts (F.faults files.old) (F.faults files.new) }
        ensures tree { is_some (F.told files.new) ≡ is_some (F.told files.old) }
        ensures may_fail { F.may_fail files.new ≡ F.may_fail files.old }
    {
        let path = in_directory(alloc, self.git_dir(), b"config")?;
        let file = read_config(alloc, path.as_bytes(), files)?;
        let change = self.plan(alloc, names.as_slice(), file)?;
        self.delete_references(alloc, names.as_slice())?;
        let Some(change) = change else {
            return Ok(());
        };
        replace_file(&change, path.as_bytes(), names, files)?;
        self.put_local(change.local);
        Ok(())
    }

    /// What becomes of the configuration, where the file has sections of the branches.
    fn plan(
        &self,
        alloc: Global,
        names: &[FullName],
        file: File,
    ) -> Result<Option<ConfigChange>, Error>
        ensures plan { IfOk result (steps.Plans names.now file (setup_of self.now)) }
        ensures refused { IfErr result (λ e. e ≡ errors.NoMemory) }
    {
        let branches = short_names(alloc, names)?;
        if !has_branch_sections(&file, &branches) {
            return Ok(None);
        }
        let mut local = self.local().try_clone(alloc)?;
        without_branch_sections(&mut local, &branches);
        Ok(Some(ConfigChange {
            lock: in_directory(alloc, self.git_dir(), b"config.lock")?,
            text: text_without(alloc, file, &branches)?,
            local: self.resolve_local(alloc, local)?,
        }))
    }

    /// The references go, with their reflogs. Memory alone may refuse it, and then all is as before.
    fn delete_references(&mut self, alloc: Global, names: &[FullName]) -> Result<(), NoMemory>
        ensures ok { OnOk result (state_of self.new ≡ spec.state_without names.now (state_of self.old)) }
        ensures err { OnErr result (state_of self.new ≡ state_of self.old) }
        ensures setup { setup_of self.new ≡ setup_of self.old }
    {
        let edits = deletions(alloc, names)?;
        self.move_refs(edits.as_slice(), PackedRefs::Never)
    }
}

/// Names in ascending order, each once.
pub(crate) fn in_order(alloc: Global, names: &[FullName]) -> Result<List<FullName>, NoMemory>
    ensures { IfOk result (λ list. list ≡ spec.in_order names.now) }
{
    let mut set = BTreeSet::new(alloc);
    for name in names {
        place(&mut set, name.try_clone()?)?;
    }
    list(alloc, set)
}

fn place(set: &mut BTreeSet<FullName>, name: FullName) -> Result<(), NoMemory>
    ensures { OnOk result (set.new.keys ≡ insert_key name_cmp set.old.keys name) }
{
    set.insert(name)?;
    Ok(())
}

fn list(alloc: Global, set: BTreeSet<FullName>) -> Result<List<FullName>, NoMemory>
    ensures { IfOk result (λ list. list ≡ set.keys) }
{
    let mut names = Vec::with_capacity(alloc, set.len())?;
    for name in set {
        names.push(name)?;
    }
    Ok(List::from(names))
}

/// What branches are called for short.
fn short_names(alloc: Global, names: &[FullName]) -> Result<Names, NoMemory>
    ensures { IfOk result (λ short. short.keys ≡ spec.short_names names.now) }
{
    let mut short = BTreeSet::new(alloc);
    for name in names {
        place_short(alloc, &mut short, name)?;
    }
    Ok(short)
}

fn place_short(alloc: Global, short: &mut Names, name: &FullName) -> Result<(), NoMemory>
    ensures { OnOk result (short.new.keys ≡ insert_key name_cmp short.old.keys (shortened name.now)) }
{
    short.insert(Text::new(alloc, name.shorten())?)?;
    Ok(())
}

/// The file's text without the sections of these branches.
fn text_without(alloc: Global, file: File, branches: &Names) -> Result<Text, NoMemory>
    ensures { IfOk result (λ text. text ≡ text_of (without_branches branches.now.keys file).sections) }
{
    let mut file = file;
    without_branch_sections(&mut file, branches);
    match file.write(alloc, None) {
        Ok(text) => Ok(text),
        Err(_) => Err(NoMemory),
    }
}

/// Reads the configuration file. Where there is none it has no sections.
fn read_config<F: Files>(alloc: Global, path: &[u8], files: &mut F) -> Result<File, OpenError>
    ensures ok { IfOk result (steps.IsRead (F.told files.old) path.now) }
    ensures refused { IfErr result (steps.IsUnread (F.told files.old) path.now) }
    ensures io { IsErrOf result causes.Io → Rose (F.faults files.old) (F.faults files.new) }
    ensures in_the_way { IsErrOf result causes.Io
        → IsRefused (F.may_fail files.old) (F.told files.old) (λ t. read_in t (parts_of path.now)) }
    ensures counts { Counts (F.faults files.old) (F.faults files.new) }
    ensures tree { F.told files.new ≡ F.told files.old }
    ensures may_fail { F.may_fail files.new ≡ F.may_fail files.old }
{
    let meta = Meta {
        source: Origin::Local,
        level: 0,
        path: None,
        trusted: true,
    };
    match files.read(path) {
        Ok(Some(text)) => file_of(alloc, text.as_bytes(), &meta),
        Ok(None) => empty_file(alloc, meta),
        Err(FileError::Failed) => Err(OpenError::Io),
        Err(FileError::NoMemory) => Err(OpenError::NoMemory),
    }
}

fn empty_file(alloc: Global, meta: Meta) -> Result<File, OpenError>
    ensures { result ≡ Ok (record { meta = meta; sections = [] }) }
{
    match File::new(alloc, meta) {
        Ok(file) => Ok(file),
        Err(_) => Err(OpenError::NoMemory),
    }
}

/// An edit for each name: the reference goes, whatever it was.
fn deletions(alloc: Global, names: &[FullName]) -> Result<Vec<RefEdit>, NoMemory>
    ensures { IfOk result (λ edits. edits.items ≡ each steps.deletion names.now) }
{
    let mut edits = Vec::with_capacity(alloc, names.len())?;
    for name in names {
        edits.push(deletion_of(name.try_clone()?))?;
    }
    Ok(edits)
}

fn deletion_of(name: FullName) -> RefEdit
    ensures { result ≡ steps.deletion name }
{
    RefEdit {
        change: Change::Delete {
            expected: PreviousValue::Any,
            log: RefLog::AndReference,
        },
        name,
    }
}

/// Writes the new text to `config.lock`, and puts that in the place of `config`. A failed call is told with the names.
fn replace_file<F: Files>(
    change: &ConfigChange,
    path: &[u8],
    names: List<FullName>,
    files: &mut F,
) -> Result<(), Error>
    ensures ok { OnOk result (IfSome (F.told files.old)
        (λ t. option_and_then (λ u. renamed u (parts_of change.now.lock) (parts_of path.now))
        (written t (parts_of change.now.lock) change.now.text) ≡ F.told files.new)) }
    ensures refused { IfErr result (steps.IsCleanup names) }
    ensures left { IfErr result (steps.LeavesTree (F.told files.old) (F.told files.new) change.now.lock change.now.text) }
    ensures fault { IfErr result (λ e. OnTrue (spec.is_file_fault e) (Rose (F.faults files.old) (F.faults files.new))) }
    ensures in_the_way { IfErr result (steps.IsBarred (F.may_fail files.old) (F.told files.old)
        (F.told files.new) change.now.lock path.now change.now.text) }
    ensures counts { Counts (F.faults files.old) (F.faults files.new) }
    ensures tree { is_some (F.told files.new) ≡ is_some (F.told files.old) }
    ensures may_fail { F.may_fail files.new ≡ F.may_fail files.old }
{
    let lock = change.lock.as_bytes();
    if let Err(e) = files.write(lock, change.text.as_bytes()) {
        return Err(cleanup(e, names, CleanupError::Write));
    }
    match files.rename(lock, path) {
        Ok(()) => Ok(()),
        Err(e) => Err(cleanup(e, names, CleanupError::Commit)),
    }
}

/// What a failed file call is told as, once the branches are gone.
fn cleanup(e: FileError, references: List<FullName>, source: CleanupError) -> Error
    ensures { result ≡ steps.cleanup references source e }
{
    match e {
        FileError::Failed => Error::Cleanup { references, source },
        FileError::NoMemory => Error::NoMemory,
    }
}
