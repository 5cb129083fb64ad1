//! A disk in memory.

ghost use Rattle.std.specs.Prelude.{◌≡◌, length, reverse};
ghost use Rattle.fetch_base.specs.Faults.{counted};
ghost use Rattle.fetch_disk.specs.History.{MayLeave, LeftSince, packs_of, nothing, left_now, only_left_now};

use crate::call::Call;
use crate::device::Device;
use crate::disk::Disk;
use crate::disk_error::DiskError;
use crate::memory_file::{
    admit, cut_file, put_pack, read_file, remove_pack, replace_file, sync_file, write_file,
};
use crate::memory_packs::copy_pack;
use crate::packs::Packs;
use crate::volume::Volume;
use fetch_base::{Calls, ObjectId, Text};
use std::alloc::Global;

/// A directory in memory, which begins with nothing. It tears: what a crash may leave is all that `Device` and `Packs`
/// allow. A call fails where its number is listed, counted from 0, and then does nothing. It keeps each call that changed
/// it, so that what a crash might have left at any time is data.
// Not copied: it is one disk.
#[derive(Drop)]
pub struct MemoryDisk {
    alloc: Global,
    journal: Vec<u8>,
    calls: Vec<Call>,
    refused: Calls,
    failed: u64,
}

impl MemoryDisk {
    /// An empty directory, whose calls fail where their numbers are listed.
    pub fn new(alloc: Global, failing: Vec<u64>) -> MemoryDisk
        ensures { ⟦<MemoryDisk as Volume>⟧.seen result ≡ nothing }
    {
        MemoryDisk {
            alloc,
            journal: Vec::new(alloc),
            calls: Vec::new(alloc),
            refused: Calls::new(failing),
            failed: 0,
        }
    }

    /// The journal's bytes, as reads show them.
    pub fn journal(&self) -> &[u8]
        ensures { result.now ≡ (⟦<MemoryDisk as Volume>⟧.seen self.now).journal }
    {
        &self.journal
    }

    /// The calls that changed it, the first of them first.
    pub fn calls(&self) -> &[Call] {
        &self.calls
    }
}

impl Volume for MemoryDisk {
    ghost seen = { λ d. record { journal = d.journal.items; packs = packs_of (reverse d.calls.items) } };

    ghost may_leave = { λ d. MayLeave (reverse d.calls.items) };

    ghost moment = { λ d. length (reverse d.calls.items) };

    ghost left_since = { λ d. LeftSince (reverse d.calls.items) };

    ghost faults = { λ d. counted d.failed };

    ghost counts_now = { λ d t l le is. left_now (reverse d.calls.items) t l is };

    ghost only_now = { λ d l left. only_left_now (reverse d.calls.items) l left };
}

impl Device for MemoryDisk {
    fn read_at(&mut self, at: usize, into: &mut [u8]) -> Result<usize, DiskError> {
        admit(&mut self.refused, &mut self.failed)?;
        Ok(read_file(&self.journal, at, into))
    }

    fn write_at(&mut self, at: usize, bytes: &[u8]) -> Result<(), DiskError> {
        admit(&mut self.refused, &mut self.failed)?;
        write_file(self.alloc, &mut self.journal, &mut self.calls, at, bytes)?;
        Ok(())
    }

    fn cut(&mut self, len: usize) -> Result<(), DiskError> {
        admit(&mut self.refused, &mut self.failed)?;
        cut_file(&mut self.journal, &mut self.calls, len)?;
        Ok(())
    }

    fn sync(&mut self) -> Result<(), DiskError> {
        admit(&mut self.refused, &mut self.failed)?;
        sync_file(self.alloc, &self.journal, &mut self.calls)?;
        Ok(())
    }

    fn replace(&mut self, bytes: &[u8]) -> Result<(), DiskError> {
        admit(&mut self.refused, &mut self.failed)?;
        replace_file(self.alloc, &mut self.journal, &mut self.calls, bytes)?;
        Ok(())
    }
}

impl Packs for MemoryDisk {
    fn put(&mut self, name: &ObjectId, bytes: &[u8]) -> Result<(), DiskError> {
        admit(&mut self.refused, &mut self.failed)?;
        put_pack(self.alloc, &mut self.calls, name, bytes)?;
        Ok(())
    }

    fn get(&mut self, name: &ObjectId) -> Result<Option<Text>, DiskError> {
        admit(&mut self.refused, &mut self.failed)?;
        Ok(copy_pack(&self.calls, name)?)
    }

    fn remove(&mut self, name: &ObjectId) -> Result<(), DiskError> {
        admit(&mut self.refused, &mut self.failed)?;
        remove_pack(&mut self.calls, name)?;
        Ok(())
    }
}

impl Disk for MemoryDisk {}
