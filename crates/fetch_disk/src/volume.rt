//! A directory on a disk that may crash.

ghost use Rattle.std.specs.Prelude.{◌≤◌, ℕ};
ghost use Rattle.fetch_base.specs.Faults.{Faults};
ghost use Rattle.fetch_disk.specs.Directory.{Directory};

/// What a disk shows and what a crash leaves of it, at each moment. `Device` and `Packs` have the calls.
pub trait Volume {
    /// The directory that reads show.
    ghost seen: { Self → Directory };

    /// What a crash now may leave: each directory that the next start may find.
    ghost may_leave: { Self → Directory → Type 0 };

    /// The time, as a number that doesn't fall.
    ghost moment: { Self → ℕ };

    /// What a crash at some time from that one on might have left.
    ghost left_since: { Self → ℕ → Directory → Type 0 };

    /// How often the disk has failed, or was full.
    ghost faults: { Self → Faults };

    /// Now is one of the times since an earlier one.
    ghost counts_now: { (disk : Self) (t : ℕ) (l : Directory) → t ≤ moment disk → may_leave disk l → left_since disk t l };

    /// Since now there is no other time.
    ghost only_now: { (disk : Self) (l : Directory) → left_since disk (moment disk) l → may_leave disk l };
}
