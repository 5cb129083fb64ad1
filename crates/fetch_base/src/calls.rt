//! The calls of an object in memory: which are listed, as those that fail.

ghost use Rattle.std.specs.Prelude.{◌≡◌, ◌↔◌, ℕ, length, IsTrue, IfOk, Contains};
ghost use Rattle.fetch_base.specs.Calls.{one_more};

use crate::error::NoMemory;
use std::marker::Model;

/// The numbers of some calls of an object, and the number of its next call. Numbers count from 0.
#[derive(Debug, Drop)]
pub struct Calls {
    listed: Vec<u64>,
    next: u64,
}

impl Model for Calls {
    ghost use Rattle.std.specs.Prelude.{IsSorted};
    ghost use Rattle.std.specs.Ordering.{nat_cmp};
    ghost use Rattle.fetch_base.specs.Calls.{CallList};

    ghost Value = { CallList };

    ghost view = { λ calls. record { listed = calls.listed.items; next = calls.next } };

    ghost invariant = { λ calls. IsSorted nat_cmp calls.listed.items };
}

impl Calls {
    /// The calls with these numbers are listed, in any order, and none was made.
    pub fn new(listed: Vec<u64>) -> Calls
        ensures listed { (n : ℕ) → Contains result.listed n ↔ Contains listed.items n }
        ensures len { length result.listed ≡ length listed.items }
        ensures next { result.next ≡ 0 }
    {
        let mut listed = listed;
        listed.sort_unstable();
        Calls { listed, next: 0 }
    }

    /// The same calls listed, and as many made.
    pub fn try_clone(&self) -> Result<Calls, NoMemory>
        ensures { IfOk result (λ copy. copy ≡ self.now) }
    {
        Ok(Calls {
            listed: self.listed.clone()?,
            next: self.next,
        })
    }

    /// Counts a call, and tells whether it is listed. The number stands still at 2^64 - 1.
    pub fn count(&mut self) -> bool
        ensures listed { IsTrue result ↔ Contains self.old.listed self.old.next }
        ensures kept { self.new.listed ≡ self.old.listed }
        ensures next { self.new.next ≡ one_more self.old.next }
    {
        let call = self.next;
        self.next = call.saturating_add(1);
        self.listed.binary_search(&call).is_ok()
    }
}
