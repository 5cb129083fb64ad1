//! Files in memory.

ghost use Rattle.std.specs.Prelude.{◌≡◌, ◌↔◌, ℕ, Some, IfOk, None, Contains, nat_lt, length};
ghost use Rattle.std.specs.FinMap as map;
ghost use Rattle.fetch_base.specs.Calls.{one_more};
ghost use Rattle.fetch_base.specs.Faults.{Counts, counted};
ghost use Rattle.fetch_files.specs.FileCalls.{IsAnswered, IsChanged, IsRemoved};
ghost use Rattle.fetch_files.specs.Paths.{parts_of};
ghost use Rattle.fetch_files.specs.Trees.{kind_in, names_in, read_in, with_directories, written, renamed, without_file, without_all};
ghost use Rattle.fetch_files.specs.declared.file_error.FileError.TheVariants as errors;

use crate::file_error::FileError;
use crate::file_tree::FileTree;
use crate::files::Files;
use crate::node::Node;
use fetch_base::{Calls, Failed, NoMemory, Text};
use std::alloc::Global;
use std::marker::Model;

/// Files in memory, which begin with nothing but the root. A call fails exactly where its number is listed, counted over
/// all calls from 0, where something of the wrong kind is in its way, and where it asks for something that isn't there.
/// After an error the tree is as before. Contracts see the tree, the calls, and how many failed.
#[derive(Drop)]
pub struct MemoryFiles {
    tree: FileTree,
    calls: Calls,
    failed: u64,
}

impl Model for MemoryFiles {
    ghost use Rattle.fetch_files.specs.FileCalls.{MemoryTree};
    ghost use Rattle.fetch_files.specs.TreeCodes.{coded_memory};

    ghost Value = { MemoryTree };

    ghost coded = { coded_memory };

    ghost view = { λ f. record { tree = f.tree; calls = f.calls; failed = f.failed } };
}

impl MemoryFiles {
    /// No files, and calls that fail where their numbers are listed, counted from 0.
    pub fn new(alloc: Global, failing: Vec<u64>) -> MemoryFiles
        ensures told { ⟦<MemoryFiles as Files>⟧.told result ≡ Some map.empty }
        ensures faults { ⟦<MemoryFiles as Files>⟧.faults result ≡ counted 0 }
        ensures may_fail { ⟦<MemoryFiles as Files>⟧.may_fail result ≡ nat_lt 0 (length failing.items) }
        ensures failing { (n : ℕ) → Contains result.calls.listed n ↔ Contains failing.items n }
        ensures first { result.calls.next ≡ 0 }
    {
        MemoryFiles {
            tree: FileTree::new(alloc),
            calls: Calls::new(failing),
            failed: 0,
        }
    }

    /// Files with the same tree, whose coming calls fail as these do.
    pub fn try_clone(&self) -> Result<MemoryFiles, NoMemory>
        ensures { IfOk result (λ copy. copy ≡ self.now) }
    {
        Ok(MemoryFiles {
            tree: self.tree.try_clone()?,
            calls: self.calls.try_clone()?,
            failed: self.failed,
        })
    }
}

/// Counts a failure.
fn fail(failed: &mut u64) -> FileError
    ensures counted { failed.new ≡ one_more failed.old }
    ensures counts { Counts (counted failed.old) (counted failed.new) }
    ensures error { result ≡ errors.Failed }
{
    *failed = failed.saturating_add(1);
    FileError::Failed
}

/// The same, for a call that takes no memory.
fn fail_plainly(failed: &mut u64) -> Failed
    ensures counted { failed.new ≡ one_more failed.old }
    ensures counts { Counts (counted failed.old) (counted failed.new) }
{
    *failed = failed.saturating_add(1);
    Failed
}

impl Files for MemoryFiles {
    ghost faults = { λ f. counted f.failed };

    ghost told = { λ f. Some f.tree };

    ghost may_fail = { λ f. nat_lt 0 (length f.calls.listed) };

    fn kind_of(&mut self, path: &[u8]) -> Result<Option<Node>, FileError>
        ensures { IsAnswered (λ kind. kind) self.old self.new (λ t. kind_in t (parts_of path.now)) result }
    {
        if self.calls.count() {
            return Err(fail(&mut self.failed));
        }
        match self.tree.kind_in(path)? {
            Some(found) => Ok(found),
            None => Err(fail(&mut self.failed)),
        }
    }

    fn list(&mut self, path: &[u8]) -> Result<Vec<Text>, FileError>
        ensures { IsAnswered (λ names. names.items) self.old self.new (λ t. names_in t (parts_of path.now)) result }
    {
        if self.calls.count() {
            return Err(fail(&mut self.failed));
        }
        match self.tree.names_in(path)? {
            Some(found) => Ok(found),
            None => Err(fail(&mut self.failed)),
        }
    }

    fn make_dir_all(&mut self, path: &[u8]) -> Result<(), FileError>
        ensures { IsChanged self.old self.new (λ t. with_directories t (parts_of path.now)) result }
    {
        if self.calls.count() {
            return Err(fail(&mut self.failed));
        }
        if self.tree.make_directories(path)? {
            Ok(())
        } else {
            Err(fail(&mut self.failed))
        }
    }

    fn write(&mut self, path: &[u8], bytes: &[u8]) -> Result<(), FileError>
        ensures { IsChanged self.old self.new (λ t. written t (parts_of path.now) bytes.now) result }
    {
        if self.calls.count() {
            return Err(fail(&mut self.failed));
        }
        if self.tree.write(path, bytes)? {
            Ok(())
        } else {
            Err(fail(&mut self.failed))
        }
    }

    fn read(&mut self, path: &[u8]) -> Result<Option<Text>, FileError>
        ensures { IsAnswered (λ bytes. bytes) self.old self.new (λ t. read_in t (parts_of path.now)) result }
    {
        if self.calls.count() {
            return Err(fail(&mut self.failed));
        }
        match self.tree.read_in(path)? {
            Some(found) => Ok(found),
            None => Err(fail(&mut self.failed)),
        }
    }

    fn rename(&mut self, from: &[u8], to: &[u8]) -> Result<(), FileError>
        ensures { IsChanged self.old self.new (λ t. renamed t (parts_of from.now) (parts_of to.now)) result }
    {
        if self.calls.count() {
            return Err(fail(&mut self.failed));
        }
        if self.tree.rename(from, to)? {
            Ok(())
        } else {
            Err(fail(&mut self.failed))
        }
    }

    fn remove_file(&mut self, path: &[u8]) -> Result<(), Failed>
        ensures { IsRemoved self.old self.new (λ t. without_file t (parts_of path.now)) result }
    {
        if self.calls.count() {
            return Err(fail_plainly(&mut self.failed));
        }
        if self.tree.remove_file(path) {
            Ok(())
        } else {
            Err(fail_plainly(&mut self.failed))
        }
    }

    fn remove_dir_all(&mut self, path: &[u8]) -> Result<(), Failed>
        ensures { IsRemoved self.old self.new (λ t. without_all t (parts_of path.now)) result }
    {
        if self.calls.count() {
            return Err(fail_plainly(&mut self.failed));
        }
        if self.tree.remove_directory(path) {
            Ok(())
        } else {
            Err(fail_plainly(&mut self.failed))
        }
    }
}
