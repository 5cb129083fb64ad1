//! A journal's file that is written whole.

ghost use Rattle.std.specs.Prelude.{◌≡◌, IfOk, OnOk, IfErr, false};
ghost use Rattle.fetch_base.specs.Faults.{Counts};
ghost use Rattle.fetch_disk.specs.Directory.{InJournal};
ghost use Rattle.fetch_disk.specs.Disk.{IsOldOr, After, JournalIs, LeavesOnly};
ghost use Rattle.fetch_disk.specs.Journal.{WriteCause};
ghost use Rattle.fetch_disk.specs.Records.{journal_of, IsAtRest};

use crate::device::Device;
use crate::journal_error::JournalError;
use crate::record::Record;
use crate::spelling::spell_all;
use crate::steps::replace_durable;
use fetch_base::Kind;
use std::alloc::Global;

/// Puts the journal of these records in the place of the file, and tells where its closed gate is.
pub(crate) fn write_whole<D: Device>(
    alloc: Global,
    hash: Kind,
    disk: &mut D,
    records: &[Record],
) -> Result<usize, JournalError>
    ensures written { OnOk result ((D.seen disk.new).journal ≡ journal_of hash records.now) }
    ensures at_rest { IfOk result (λ end. IsAtRest hash (D.seen disk.new).journal records.now end) }
    ensures durable { OnOk result (JournalIs (D.seen disk.new).journal (D.may_leave disk.new)) }
    ensures packs { OnOk result ((D.seen disk.new).packs ≡ (D.seen disk.old).packs) }
    ensures any_moment { LeavesOnly D.moment D.left_since disk.old disk.new
        (After (InJournal (IsOldOr (λ _. journal_of hash records.now))) (D.may_leave disk.old)) }
    ensures counts { Counts (D.faults disk.old) (D.faults disk.new) }
    ensures cause { IfErr result (WriteCause false ⊥ (D.faults disk.old) (D.faults disk.new)) }
{
    let bytes = spell_all(alloc, hash, records)?;
    replace_durable(disk, &bytes)?;
    Ok(bytes.len() - 1)
}
