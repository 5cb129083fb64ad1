//! A change of the journal's file and the sync behind it, as one step.

ghost use Rattle.std.specs.Prelude.{◌≡◌, ◌≤◌, length, take, IfOk, OnOk};
ghost use Rattle.fetch_disk.specs.Directory.{in_journal, InJournal};
ghost use Rattle.fetch_disk.specs.Disk.{overwritten, Torn, Shortened, IsOldOr, After, Follows, NoOther, JournalIs, LeavesOnly, HasCause};

use crate::device::Device;
use crate::disk_error::DiskError;

/// Syncs: from then on each crash leaves the file that reads show.
pub fn settle<D: Device>(disk: &mut D) -> Result<(), DiskError>
    ensures seen { D.seen disk.new ≡ D.seen disk.old }
    ensures durable { OnOk result (JournalIs (D.seen disk.old).journal (D.may_leave disk.new)) }
    ensures crash { NoOther (D.may_leave disk.old) (D.may_leave disk.new) }
    ensures any_moment { LeavesOnly D.moment D.left_since disk.old disk.new (D.may_leave disk.old) }
    ensures cause { HasCause (D.faults disk.old) (D.faults disk.new) result }
{
    disk.sync()
}

/// Writes, and syncs.
pub fn write_durable<D: Device>(disk: &mut D, at: usize, bytes: &[u8]) -> Result<(), DiskError>
    requires { at ≤ length (D.seen disk.old).journal }
    ensures written { OnOk result (D.seen disk.new ≡ in_journal (overwritten at bytes.now) (D.seen disk.old)) }
    ensures durable { OnOk result (JournalIs (D.seen disk.new).journal (D.may_leave disk.new)) }
    ensures crash { Follows (InJournal (Torn at (length bytes.now))) (D.may_leave disk.old) (D.may_leave disk.new) }
    ensures any_moment { LeavesOnly D.moment D.left_since disk.old disk.new
        (After (InJournal (Torn at (length bytes.now))) (D.may_leave disk.old)) }
    ensures cause { HasCause (D.faults disk.old) (D.faults disk.new) result }
{
    disk.write_at(at, bytes)?;
    disk.sync()
}

/// Cuts, and syncs.
pub fn cut_durable<D: Device>(disk: &mut D, len: usize) -> Result<(), DiskError>
    requires { len ≤ length (D.seen disk.old).journal }
    ensures cut { OnOk result (D.seen disk.new ≡ in_journal (take len) (D.seen disk.old)) }
    ensures durable { OnOk result (JournalIs (D.seen disk.new).journal (D.may_leave disk.new)) }
    ensures crash { Follows (InJournal (Shortened len)) (D.may_leave disk.old) (D.may_leave disk.new) }
    ensures any_moment { LeavesOnly D.moment D.left_since disk.old disk.new
        (After (InJournal (Shortened len)) (D.may_leave disk.old)) }
    ensures cause { HasCause (D.faults disk.old) (D.faults disk.new) result }
{
    disk.cut(len)?;
    disk.sync()
}

/// Puts another file in its place.
pub fn replace_durable<D: Device>(disk: &mut D, bytes: &[u8]) -> Result<(), DiskError>
    ensures replaced { OnOk result (D.seen disk.new ≡ in_journal (λ _. bytes.now) (D.seen disk.old)) }
    ensures durable { OnOk result (JournalIs (D.seen disk.new).journal (D.may_leave disk.new)) }
    ensures any_moment { LeavesOnly D.moment D.left_since disk.old disk.new
        (After (InJournal (IsOldOr (λ _. bytes.now))) (D.may_leave disk.old)) }
    ensures cause { HasCause (D.faults disk.old) (D.faults disk.new) result }
{
    disk.replace(bytes)
}
