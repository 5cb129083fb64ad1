//! The files of the host.

ghost use Rattle.std.specs.Prelude.{None, true, IfErr, ◌≡◌};
ghost use Rattle.fetch_base.specs.Calls.{one_more};
ghost use Rattle.fetch_base.specs.Faults.{Counts, counted};
ghost use Rattle.fetch_create.specs.HostFaults.{IsCounted};

use fetch_store::{Failed, FileError, Files, Node, Text, split_last};
use std::alloc::{Alloc, Global};
use std::fs::{self, Files as HostCalls};
use std::io::{self, ErrorKind};
use std::str;

/// The files of the host. They tell no tree, and any call may fail. A path that isn't UTF-8, and a directory with a name
/// that isn't, is a fault.
// Not copied: it tells what happened in one caller's calls.
#[derive(Drop)]
pub struct HostFiles<R> {
    rt: R,
    failed: u64,
}

impl<R: HostCalls + Alloc<A = Global> + Clone + Drop> HostFiles<R> {
    /// The files that the runtime reaches.
    pub fn new(rt: R) -> HostFiles<R> {
        HostFiles { rt, failed: 0 }
    }
}

/// Counts what the host refused, unless memory ran out.
fn refuse(failed: &mut u64, e: io::Error) -> FileError
    ensures counted { IsCounted failed.old failed.new result }
{
    if e.kind() == ErrorKind::OutOfMemory {
        return FileError::NoMemory;
    }
    count(failed);
    FileError::Failed
}

/// Counts a fault.
fn count(failed: &mut u64) -> Failed
    ensures counted { failed.new ≡ one_more failed.old }
    ensures counts { Counts (counted failed.old) (counted failed.new) }
{
    *failed = failed.saturating_add(1);
    Failed
}

/// The path as the host takes it.
fn host_path(path: &[u8]) -> io::Result<&str> {
    match str::from_utf8(path) {
        Ok(path) => Ok(path),
        Err(_) => Err(io::Error::from(ErrorKind::InvalidFilename)),
    }
}

fn kind_of<R: HostCalls>(rt: &R, path: &[u8]) -> io::Result<Option<Node>> {
    match fs::metadata(rt, host_path(path)?) {
        Ok(found) if found.is_dir() => Ok(Some(Node::Directory)),
        Ok(_) => Ok(Some(Node::File)),
        Err(e) if e.kind() == ErrorKind::NotFound => Ok(None),
        Err(e) => Err(e),
    }
}

fn list<R: HostCalls + Alloc<A = Global> + Clone + Drop>(
    rt: &R,
    path: &[u8],
) -> io::Result<Vec<Text>> {
    let mut names = Vec::new(rt.alloc());
    for entry in fs::read_dir(rt, host_path(path)?)? {
        let name = Vec::from_slice(rt.alloc(), entry?.file_name().as_bytes())?;
        names.push(Text::from(name))?;
    }
    names.sort()?;
    Ok(names)
}

fn write<R: HostCalls>(rt: &R, path: &[u8], bytes: &[u8]) -> io::Result<()> {
    if let Some((directory, _)) = split_last(b'/', path) {
        fs::create_dir_all(rt, host_path(directory)?)?;
    }
    fs::write(rt, host_path(path)?, bytes)
}

fn read<R: HostCalls + Alloc<A = Global>>(rt: &R, path: &[u8]) -> io::Result<Option<Text>> {
    match fs::read(rt, host_path(path)?) {
        Ok(bytes) => Ok(Some(Text::from(bytes))),
        Err(e) if e.kind() == ErrorKind::NotFound => Ok(None),
        Err(e) => Err(e),
    }
}

/// A file alone is moved.
fn rename<R: HostCalls>(rt: &R, from: &[u8], to: &[u8]) -> io::Result<()> {
    match kind_of(rt, from)? {
        Some(Node::File) => fs::rename(rt, host_path(from)?, host_path(to)?),
        _ => Err(io::Error::from(ErrorKind::NotFound)),
    }
}

impl<R: HostCalls + Alloc<A = Global> + Clone + Drop> Files for HostFiles<R> {
    ghost faults = { λ f. counted f.failed };

    ghost told = { λ _. None };

    ghost may_fail = { λ _. true };

    fn kind_of(&mut self, path: &[u8]) -> Result<Option<Node>, FileError> {
        match kind_of(&self.rt, path) {
            Ok(found) => Ok(found),
            Err(e) => Err(refuse(&mut self.failed, e)),
        }
    }

    fn list(&mut self, path: &[u8]) -> Result<Vec<Text>, FileError> {
        match list(&self.rt, path) {
            Ok(names) => Ok(names),
            Err(e) => Err(refuse(&mut self.failed, e)),
        }
    }

    fn make_dir_all(&mut self, path: &[u8]) -> Result<(), FileError> {
        match host_path(path).and_then(|path| fs::create_dir_all(&self.rt, path)) {
            Ok(()) => Ok(()),
            Err(e) => Err(refuse(&mut self.failed, e)),
        }
    }

    fn write(&mut self, path: &[u8], bytes: &[u8]) -> Result<(), FileError> {
        match write(&self.rt, path, bytes) {
            Ok(()) => Ok(()),
            Err(e) => Err(refuse(&mut self.failed, e)),
        }
    }

    fn read(&mut self, path: &[u8]) -> Result<Option<Text>, FileError> {
        match read(&self.rt, path) {
            Ok(found) => Ok(found),
            Err(e) => Err(refuse(&mut self.failed, e)),
        }
    }

    fn rename(&mut self, from: &[u8], to: &[u8]) -> Result<(), FileError> {
        match rename(&self.rt, from, to) {
            Ok(()) => Ok(()),
            Err(e) => Err(refuse(&mut self.failed, e)),
        }
    }

    fn remove_file(&mut self, path: &[u8]) -> Result<(), Failed> {
        match host_path(path).and_then(|path| fs::remove_file(&self.rt, path)) {
            Ok(()) => Ok(()),
            Err(_) => Err(count(&mut self.failed)),
        }
    }

    fn remove_dir_all(&mut self, path: &[u8]) -> Result<(), Failed> {
        match host_path(path).and_then(|path| fs::remove_dir_all(&self.rt, path)) {
            Ok(()) => Ok(()),
            Err(_) => Err(count(&mut self.failed)),
        }
    }
}
