//! Each commit, the latest first.

ghost use Rattle.std.specs.Prelude.{◌≡◌, ◌++◌, false, IfOk, IfSome, OnOk, OnErr};
ghost use Rattle.std.specs.FinMap as map;
ghost use Rattle.std.specs.Option.{option_to_list};
ghost use Rattle.fetch_negotiate.specs.Commits.{IsStoredCommit, has};
ghost use Rattle.fetch_negotiate.specs.Haves.{started, taking, acknowledging, next_taken};
ghost use Rattle.fetch_negotiate.specs.Kept.{read_by};
ghost use Rattle.fetch_negotiate.specs.Reading.{IsTold};

use crate::negotiator::Negotiator;
use crate::walk::{HaveWalk, advance, share};
use fetch_store::{Border, NoMemory, ObjectId, Objects};
use std::alloc::Global;
use std::marker::Model;

/// Tells each commit that the tips reach, the latest first. Contracts see it as what it read and the negotiation so far.
#[derive(Debug, Drop)]
pub struct Consecutive {
    walk: HaveWalk,
}

impl Model for Consecutive {
    ghost use Rattle.fetch_negotiate.specs.Kept.{Kept, coded_kept};

    ghost Value = { Kept };

    ghost coded = { coded_kept };

    ghost use Rattle.fetch_negotiate.specs.Walking.{IsWalk, so_far_in, known_in};

    ghost view = { λ c. record { known = known_in c.walk.table; so_far = so_far_in c.walk } };

    ghost invariant = { λ c. IsWalk c.walk };
}

impl Consecutive {
    /// A negotiation from these tips on, which leaves the parents of border commits aside.
    pub fn new(alloc: Global, tips: &[ObjectId], border: &Border) -> Result<Consecutive, NoMemory>
        ensures so_far { IfOk result (λ negotiator. negotiator.so_far ≡ started tips.now border.now) }
        ensures known { IfOk result (λ negotiator. negotiator.known ≡ map.empty) }
    {
        Ok(Consecutive {
            walk: HaveWalk::new(alloc, tips, border)?,
        })
    }

    /// An equal negotiator.
    pub fn try_clone(&self, alloc: Global) -> Result<Consecutive, NoMemory>
        ensures { IfOk result (λ copy. copy ≡ self.now) }
    {
        Ok(Consecutive {
            walk: self.walk.try_clone(alloc)?,
        })
    }
}

impl Negotiator for Consecutive {
    ghost known = { λ c. read_by c.known };

    ghost given = { λ c. c.so_far.taken };

    fn next<O: Objects>(&mut self, alloc: Global, objects: &O) -> Result<Option<ObjectId>, NoMemory>
        requires { IsTold (read_by self.old.known) (O.graph objects.now) }
        ensures next { IfOk result (λ next. next ≡ next_taken (O.graph objects.now) self.old.so_far) }
        ensures ok { IfOk result (λ next. self.new.so_far ≡ taking self.old.so_far next) }
        ensures unchanged { OnErr result (self.new.so_far ≡ self.old.so_far) }
        ensures stored { IfOk result (λ next. IfSome next (λ id. IsStoredCommit (O.graph objects.now) id)) }
        ensures fresh { IfOk result (λ next. IfSome next (λ id. has self.old.so_far.taken id ≡ false)) }
        ensures given { IfOk result (λ next. self.new.so_far.taken ≡ self.old.so_far.taken ++ option_to_list next) }
        ensures err { OnErr result (self.new.so_far.taken ≡ self.old.so_far.taken) }
        ensures told { IsTold (read_by self.new.known) (O.graph objects.now) }
    {
        advance(&mut self.walk, alloc, objects)
    }

    fn in_common<O: Objects>(
        &mut self,
        _alloc: Global,
        _objects: &O,
        id: &ObjectId,
    ) -> Result<(), NoMemory>
        requires { IsTold (read_by self.old.known) (O.graph _objects.now) }
        ensures ok { OnOk result (self.new.so_far ≡ acknowledging self.old.so_far id.now) }
        ensures unchanged { OnErr result (self.new.so_far ≡ self.old.so_far) }
        ensures given { self.new.so_far.taken ≡ self.old.so_far.taken }
        ensures told { IsTold (read_by self.new.known) (O.graph _objects.now) }
    {
        share(&mut self.walk, id)
    }
}
