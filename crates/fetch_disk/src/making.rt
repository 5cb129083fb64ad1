//! Journals that are made and opened.

ghost use Rattle.std.specs.Prelude.{◌≡◌, IfOk, IfErr, false};
ghost use Rattle.fetch_disk.specs.Directory.{InJournal};
ghost use Rattle.fetch_disk.specs.Disk.{IsOldOr, After, LeavesOnly};
ghost use Rattle.fetch_disk.specs.Journal.{IsSettled, OpenCause, WriteCause};
ghost use Rattle.fetch_disk.specs.Records.{journal_of, Stands, StaysOrReads};

use crate::device::Device;
use crate::journal::Journal;
use crate::journal_error::JournalError;
use crate::opening::recover;
use crate::record::Record;
use crate::writing::write_whole;
use fetch_base::{Kind, List};
use std::alloc::Global;

/// A journal that was opened, and the records in it.
// Not copied: its disk is one.
#[derive(Drop)]
pub struct Opened<D: Device> {
    /// The journal.
    pub journal: Journal<D>,
    /// Its records, in order.
    pub records: List<Record>,
}

/// Makes a journal of these records, in the place of what the file had. A crash leaves what was there, or the journal
/// whole. An error hands the disk back.
pub fn create<D: Device>(
    alloc: Global,
    hash: Kind,
    disk: D,
    records: &[Record],
) -> Result<Journal<D>, (JournalError, D)>
    ensures created { IfOk result (λ j. IsSettled D.seen D.may_leave j × ((D.seen j.disk).journal ≡ journal_of hash records.now) × (j.hash ≡ hash)) }
    ensures any_moment { IfOk result (λ j. LeavesOnly D.moment D.left_since disk j.disk
        (After (InJournal (IsOldOr (λ _. journal_of hash records.now))) (D.may_leave disk))) }
    ensures any_moment_err { IfErr result (λ e. LeavesOnly D.moment D.left_since disk e.1
        (After (InJournal (IsOldOr (λ _. journal_of hash records.now))) (D.may_leave disk))) }
    ensures cause { IfErr result (λ e. WriteCause false ⊥ (D.faults disk) (D.faults e.1) e.0) }
{
    let mut disk = disk;
    match write_whole(alloc, hash, &mut disk, records) {
        Err(e) => Err((e, disk)),
        Ok(end) => Ok(Journal {
            disk,
            hash,
            end,
            failed: false,
        }),
    }
}

/// Opens a journal that a crash may have left. It may crash too, at any moment. An error hands the disk back.
pub fn open<D: Device>(alloc: Global, hash: Kind, disk: D) -> Result<Opened<D>, (JournalError, D)>
    ensures opened { IfOk result (λ o. IsSettled D.seen D.may_leave o.journal × (o.journal.hash ≡ hash) × (o.journal.failed ≡ false)) }
    ensures records { IfOk result (λ o. Stands hash (D.seen disk).journal o.records × Stands hash (D.seen o.journal.disk).journal o.records) }
    ensures any_moment { IfOk result (λ o. LeavesOnly D.moment D.left_since disk o.journal.disk
        (After (InJournal (StaysOrReads hash (D.seen disk).journal)) (D.may_leave disk))) }
    ensures any_moment_err { IfErr result (λ e. LeavesOnly D.moment D.left_since disk e.1
        (After (InJournal (StaysOrReads hash (D.seen disk).journal)) (D.may_leave disk))) }
    ensures cause { IfErr result (λ e. OpenCause hash (D.seen disk).journal (D.faults disk) (D.faults e.1) e.0) }
{
    let mut disk = disk;
    match recover(alloc, hash, &mut disk) {
        Err(e) => Err((e, disk)),
        Ok(found) => Ok(Opened {
            journal: Journal {
                disk,
                hash,
                end: found.end,
                failed: false,
            },
            records: found.records,
        }),
    }
}
