//! Opening a journal that a crash may have left.

ghost use Rattle.std.specs.Prelude.{◌≡◌, IfOk, OnOk, IfErr};
ghost use Rattle.fetch_base.specs.Faults.{Counts};
ghost use Rattle.fetch_disk.specs.Directory.{InJournal};
ghost use Rattle.fetch_disk.specs.Disk.{After, JournalIs, LeavesOnly};
ghost use Rattle.fetch_disk.specs.Journal.{OpenCause};
ghost use Rattle.fetch_disk.specs.Records.{Stands, IsAtRest, StaysOrReads};

use crate::device::Device;
use crate::journal_error::JournalError;
use crate::reading::{Recovered, read_records};
use crate::steps::{cut_durable, settle};
use crate::whole_file::read_all;
use fetch_base::Kind;
use std::alloc::Global;

/// Reads the records of a journal that a crash may have left, and repairs its end: what is behind the first gate that
/// isn't open is cut off, and synced. It may crash too, at any moment.
pub fn recover<D: Device>(
    alloc: Global,
    hash: Kind,
    disk: &mut D,
) -> Result<Recovered, JournalError>
    ensures records { IfOk result (λ r. Stands hash (D.seen disk.old).journal r.records) }
    ensures at_rest { IfOk result (λ r. IsAtRest hash (D.seen disk.new).journal r.records r.end) }
    ensures durable { OnOk result (JournalIs (D.seen disk.new).journal (D.may_leave disk.new)) }
    ensures packs { OnOk result ((D.seen disk.new).packs ≡ (D.seen disk.old).packs) }
    // A crash at any moment leaves what it might have left before, or the records that are read.
    ensures any_moment { LeavesOnly D.moment D.left_since disk.old disk.new
        (After (InJournal (StaysOrReads hash (D.seen disk.old).journal)) (D.may_leave disk.old)) }
    ensures counts { Counts (D.faults disk.old) (D.faults disk.new) }
    ensures cause { IfErr result (OpenCause hash (D.seen disk.old).journal (D.faults disk.old) (D.faults disk.new)) }
{
    settle(disk)?;
    let bytes = read_all(alloc, disk)?;
    let found = read_records(alloc, hash, &bytes)?;
    cut_durable(disk, found.end + 1)?;
    Ok(found)
}
