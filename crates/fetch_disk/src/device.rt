//! The journal's file on a disk that may crash.

ghost use Rattle.std.specs.Prelude.{◌≡◌, ◌⊎◌, ◌≤◌, length, take, drop, IfOk, OnOk};
ghost use Rattle.fetch_disk.specs.Directory.{in_journal, InJournal};
ghost use Rattle.fetch_disk.specs.Disk.{overwritten, IsPiece, Torn, Shortened, IsOldOr, Follows, NoOther, JournalIs, Elapses, HasCause};

use crate::disk_error::DiskError;
use crate::volume::Volume;

/// The journal's file. Where none was made yet it is empty. A call that fails may have been done in part: what it leaves
/// is told by what a crash may leave, and by nothing else, so open the journal again.
pub trait Device: Volume {
    /// Reads bytes from a place on to the front of `into`, and tells how many: some, unless the file ends there or nothing
    /// fits.
    fn read_at(&mut self, at: usize, into: &mut [u8]) -> Result<usize, DiskError>
        ensures bytes { IfOk result (λ n. IsPiece (drop at (Self.seen self.old).journal) n into.new) }
        ensures end { IfOk result (λ n. n ≡ 0 → (length (Self.seen self.old).journal ≤ at) ⊎ (length into.new ≡ 0)) }
        ensures seen { Self.seen self.new ≡ Self.seen self.old }
        ensures crash { NoOther (Self.may_leave self.old) (Self.may_leave self.new) }
        ensures time { Elapses (Self.moment self.old) (Self.moment self.new) (Self.left_since self.old) (Self.left_since self.new) (Self.may_leave self.new) }
        ensures cause { HasCause (Self.faults self.old) (Self.faults self.new) result };

    /// Writes over what is there and past the end. Until a sync a crash may leave anything in the range.
    fn write_at(&mut self, at: usize, bytes: &[u8]) -> Result<(), DiskError>
        requires { at ≤ length (Self.seen self.old).journal }
        ensures written { OnOk result (Self.seen self.new ≡ in_journal (overwritten at bytes.now) (Self.seen self.old)) }
        ensures crash { Follows (InJournal (Torn at (length bytes.now))) (Self.may_leave self.old) (Self.may_leave self.new) }
        ensures time { Elapses (Self.moment self.old) (Self.moment self.new) (Self.left_since self.old) (Self.left_since self.new) (Self.may_leave self.new) }
        ensures cause { HasCause (Self.faults self.old) (Self.faults self.new) result };

    /// Cuts the file to a length. Until a sync a crash may leave any length between.
    fn cut(&mut self, len: usize) -> Result<(), DiskError>
        requires { len ≤ length (Self.seen self.old).journal }
        ensures cut { OnOk result (Self.seen self.new ≡ in_journal (take len) (Self.seen self.old)) }
        ensures crash { Follows (InJournal (Shortened len)) (Self.may_leave self.old) (Self.may_leave self.new) }
        ensures time { Elapses (Self.moment self.old) (Self.moment self.new) (Self.left_since self.old) (Self.left_since self.new) (Self.may_leave self.new) }
        ensures cause { HasCause (Self.faults self.old) (Self.faults self.new) result };

    /// After it a crash leaves the file that reads show.
    fn sync(&mut self) -> Result<(), DiskError>
        ensures durable { OnOk result (JournalIs (Self.seen self.old).journal (Self.may_leave self.new)) }
        ensures seen { Self.seen self.new ≡ Self.seen self.old }
        ensures crash { NoOther (Self.may_leave self.old) (Self.may_leave self.new) }
        ensures time { Elapses (Self.moment self.old) (Self.moment self.new) (Self.left_since self.old) (Self.left_since self.new) (Self.may_leave self.new) }
        ensures cause { HasCause (Self.faults self.old) (Self.faults self.new) result };

    /// Puts another file in its place: written beside, synced, renamed over it, and the directory synced. A crash leaves the
    /// old bytes or the new ones, whole.
    fn replace(&mut self, bytes: &[u8]) -> Result<(), DiskError>
        ensures replaced { OnOk result (Self.seen self.new ≡ in_journal (λ _. bytes.now) (Self.seen self.old)) }
        ensures durable { OnOk result (JournalIs bytes.now (Self.may_leave self.new)) }
        ensures crash { Follows (InJournal (IsOldOr (λ _. bytes.now))) (Self.may_leave self.old) (Self.may_leave self.new) }
        ensures time { Elapses (Self.moment self.old) (Self.moment self.new) (Self.left_since self.old) (Self.left_since self.new) (Self.may_leave self.new) }
        ensures cause { HasCause (Self.faults self.old) (Self.faults self.new) result };
}
