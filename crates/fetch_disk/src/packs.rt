//! The packs on a disk that may crash.

ghost use Rattle.std.specs.Prelude.{◌≡◌, IfOk, OnOk};
ghost use Rattle.std.specs.FinMap as map;
ghost use Rattle.fetch_disk.specs.Directory.{in_packs, InPacks};
ghost use Rattle.fetch_disk.specs.Disk.{IsOldOr, Follows, NoOther, IsKept, Elapses, HasCause};

use crate::disk_error::DiskError;
use crate::volume::Volume;
use fetch_base::{ObjectId, Text};

/// The packs, each a file of its own that is named by its digest. A pack that a crash or a failure cut short isn't there:
/// what was written of it beside doesn't count, and is written anew.
pub trait Packs: Volume {
    /// Puts a pack: written beside, synced, renamed, and the directory synced. A crash leaves it whole or not at all.
    /// At `Ok` each crash leaves it.
    fn put(&mut self, name: &ObjectId, bytes: &[u8]) -> Result<(), DiskError>
        ensures put { OnOk result (Self.seen self.new ≡ in_packs (λ m. map.insert m name.now bytes.now) (Self.seen self.old)) }
        ensures durable { OnOk result (IsKept name.now bytes.now (Self.may_leave self.new)) }
        ensures crash { Follows (InPacks (IsOldOr (λ m. map.insert m name.now bytes.now))) (Self.may_leave self.old) (Self.may_leave self.new) }
        ensures time { Elapses (Self.moment self.old) (Self.moment self.new) (Self.left_since self.old) (Self.left_since self.new) (Self.may_leave self.new) }
        ensures cause { HasCause (Self.faults self.old) (Self.faults self.new) result };

    /// The bytes of a pack, if it is there.
    fn get(&mut self, name: &ObjectId) -> Result<Option<Text>, DiskError>
        ensures bytes { IfOk result (λ found. found ≡ map.get (Self.seen self.old).packs name.now) }
        ensures seen { Self.seen self.new ≡ Self.seen self.old }
        ensures crash { NoOther (Self.may_leave self.old) (Self.may_leave self.new) }
        ensures time { Elapses (Self.moment self.old) (Self.moment self.new) (Self.left_since self.old) (Self.left_since self.new) (Self.may_leave self.new) }
        ensures cause { HasCause (Self.faults self.old) (Self.faults self.new) result };

    /// Removes a pack, if it is there. A crash may bring it back.
    fn remove(&mut self, name: &ObjectId) -> Result<(), DiskError>
        ensures removed { OnOk result (Self.seen self.new ≡ in_packs (λ m. map.remove m name.now) (Self.seen self.old)) }
        ensures crash { Follows (InPacks (IsOldOr (λ m. map.remove m name.now))) (Self.may_leave self.old) (Self.may_leave self.new) }
        ensures time { Elapses (Self.moment self.old) (Self.moment self.new) (Self.left_since self.old) (Self.left_since self.new) (Self.may_leave self.new) }
        ensures cause { HasCause (Self.faults self.old) (Self.faults self.new) result };
}
