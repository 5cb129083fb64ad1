//! A journal: records behind open gates, and a closed gate behind the last of them.

ghost use Rattle.std.specs.Prelude.{◌≡◌, ◌⊎◌, ◌≤◌, ◌^◌, true, length, OnOk, OnErr, IfErr, IsErrOf};
ghost use Rattle.fetch_base.specs.Faults.{Counts};
ghost use Rattle.fetch_disk.specs.Directory.{InJournal};
ghost use Rattle.fetch_disk.specs.Disk.{IsOldOr, After, LeavesOnly};
ghost use Rattle.fetch_disk.specs.Journal.{IsSettled, IsSound, IsUnchangedOrFailed, WriteCause};
ghost use Rattle.fetch_disk.specs.Records.{journal_of, Adds, MayAdd};

use crate::device::Device;
use crate::journal_error::JournalError;
use crate::record::Record;
use crate::spelling::spell;
use crate::steps::write_durable;
use crate::writing::write_whole;
use fetch_base::Kind;
use std::alloc::Global;

const LIMIT: usize = 1 << 60;

/// A journal on a disk.
// Not copied: its disk is one.
#[derive(Drop)]
pub struct Journal<D: Device> {
    /// The disk.
    pub disk: D,
    /// The hash of the repository, by which each record has its digest.
    pub hash: Kind,
    /// Where the closed gate is.
    pub end: usize,
    /// Whether a call failed in its midst. What the file stands for isn't known then, so that it has to be opened again.
    pub failed: bool,
}

impl<D: Device> Journal<D> {
    /// Adds a record. At `Ok` it is acknowledged: each crash from then on leaves it. After an error the journal is as
    /// before, or it says that it failed, and has to be opened again.
    pub fn append(&mut self, alloc: Global, kind: u8, body: &[u8]) -> Result<(), JournalError>
        requires { IsSound D.seen D.may_leave self.old }
        ensures acknowledged { OnOk result (IsSettled D.seen D.may_leave self.new
            × Adds self.old.hash (record { kind = kind; body = body.now }) (D.seen self.old.disk).journal (D.seen self.new.disk).journal) }
        // A crash at any moment of the call leaves the records before it, or these and the new one.
        ensures any_moment { LeavesOnly D.moment D.left_since self.old.disk self.new.disk
            (After (InJournal (MayAdd self.old.hash (record { kind = kind; body = body.now }))) (D.may_leave self.old.disk)) }
        ensures packs { OnOk result ((D.seen self.new.disk).packs ≡ (D.seen self.old.disk).packs) }
        ensures sound { IsSound D.seen D.may_leave self.new }
        ensures hash { self.new.hash ≡ self.old.hash }
        ensures err { OnErr result (IsUnchangedOrFailed self.old self.new) }
        ensures once_failed { self.old.failed ≡ true → (self.new ≡ self.old) × IsErrOf result JournalError.Failed }
        ensures counts { Counts (D.faults self.old.disk) (D.faults self.new.disk) }
        ensures cause { IfErr result (WriteCause self.old.failed ((2 ^ 60 ≤ self.old.end) ⊎ (2 ^ 60 ≤ length body.now))
            (D.faults self.old.disk) (D.faults self.new.disk)) }
    {
        if self.failed {
            return Err(JournalError::Failed);
        }
        if self.end >= LIMIT || body.len() >= LIMIT {
            return Err(JournalError::Full);
        }
        let bytes = spell(alloc, self.hash, kind, body)?;
        self.failed = true;
        write_durable(&mut self.disk, self.end + 1, &bytes)?;
        write_durable(&mut self.disk, self.end, &[1])?;
        self.end += bytes.len();
        self.failed = false;
        Ok(())
    }

    /// Puts the journal of these records in the place of this one: each crash leaves the old text or the new one, whole.
    /// After an error the journal is as before, or it says that it failed, and has to be opened again.
    pub fn replace(&mut self, alloc: Global, records: &[Record]) -> Result<(), JournalError>
        requires { IsSound D.seen D.may_leave self.old }
        ensures replaced { OnOk result (IsSettled D.seen D.may_leave self.new
            × ((D.seen self.new.disk).journal ≡ journal_of self.old.hash records.now)) }
        ensures any_moment { LeavesOnly D.moment D.left_since self.old.disk self.new.disk
            (After (InJournal (IsOldOr (λ _. journal_of self.old.hash records.now))) (D.may_leave self.old.disk)) }
        ensures packs { OnOk result ((D.seen self.new.disk).packs ≡ (D.seen self.old.disk).packs) }
        ensures sound { IsSound D.seen D.may_leave self.new }
        ensures hash { self.new.hash ≡ self.old.hash }
        ensures err { OnErr result (IsUnchangedOrFailed self.old self.new) }
        ensures once_failed { self.old.failed ≡ true → (self.new ≡ self.old) × IsErrOf result JournalError.Failed }
        ensures counts { Counts (D.faults self.old.disk) (D.faults self.new.disk) }
        ensures cause { IfErr result (WriteCause self.old.failed ⊥ (D.faults self.old.disk) (D.faults self.new.disk)) }
    {
        if self.failed {
            return Err(JournalError::Failed);
        }
        self.failed = true;
        self.end = write_whole(alloc, self.hash, &mut self.disk, records)?;
        self.failed = false;
        Ok(())
    }
}
