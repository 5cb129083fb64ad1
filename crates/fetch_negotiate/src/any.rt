//! The negotiator of an algorithm.

ghost use Rattle.std.specs.Prelude.{◌≡◌, ◌++◌, None, false, IfOk, IfSome, OnOk, OnErr};
ghost use Rattle.std.specs.Option.{option_to_list};
ghost use Rattle.fetch_negotiate.specs.Any.{algorithm_of, known_by, given_by, so_far_of, begun, offer_of, sharing};
ghost use Rattle.fetch_negotiate.specs.Commits.{IsStoredCommit, has};
ghost use Rattle.fetch_negotiate.specs.Reading.{IsTold};
ghost use Rattle.fetch_negotiate.specs.Windows.{window_of, IsBroken};

use crate::algorithm::Algorithm;
use crate::consecutive::Consecutive;
use crate::negotiator::Negotiator;
use crate::skipping::Skipping;
use fetch_store::{Border, NoMemory, ObjectId, Objects};
use std::alloc::Global;

/// The negotiator of each algorithm.
#[derive(Debug, Drop)]
pub enum AnyNegotiator {
    /// It tells no commit.
    Noop,
    /// It tells each commit, the latest first.
    Consecutive(Consecutive),
    /// It leaves out more and more commits between those that it tells.
    Skipping(Skipping),
}

impl AnyNegotiator {
    /// A negotiation from these tips on, which leaves the parents of border commits aside.
    pub fn new(
        alloc: Global,
        algorithm: Algorithm,
        tips: &[ObjectId],
        border: &Border,
    ) -> Result<AnyNegotiator, NoMemory>
        ensures algorithm { IfOk result (λ negotiator. algorithm_of negotiator ≡ algorithm) }
        ensures so_far { IfOk result (λ negotiator. so_far_of negotiator ≡ begun algorithm tips.now border.now) }
        ensures unread { IfOk result (λ negotiator. (id : ObjectId) → known_by negotiator id ≡ None) }
    {
        match algorithm {
            Algorithm::Noop => Ok(AnyNegotiator::Noop),
            Algorithm::Consecutive => {
                let consecutive = Consecutive::new(alloc, tips, border)?;
                Ok(AnyNegotiator::Consecutive(consecutive))
            }
            Algorithm::Skipping => {
                let skipping = Skipping::new(alloc, tips, border)?;
                Ok(AnyNegotiator::Skipping(skipping))
            }
        }
    }

    /// An equal negotiator.
    pub fn try_clone(&self, alloc: Global) -> Result<AnyNegotiator, NoMemory>
        ensures { IfOk result (λ copy. copy ≡ self.now) }
    {
        match self {
            AnyNegotiator::Noop => Ok(AnyNegotiator::Noop),
            AnyNegotiator::Consecutive(consecutive) => {
                Ok(AnyNegotiator::Consecutive(consecutive.try_clone(alloc)?))
            }
            AnyNegotiator::Skipping(skipping) => {
                Ok(AnyNegotiator::Skipping(skipping.try_clone(alloc)?))
            }
        }
    }

    /// The next window: at most that many commits, and fewer only where no more are left. Where memory runs out, some of
    /// them may have been told, and the others come next.
    pub fn window<O: Objects>(
        &mut self,
        alloc: Global,
        objects: &O,
        size: usize,
    ) -> Result<Vec<ObjectId>, NoMemory>
        requires { IsTold (known_by self.old) (O.graph objects.now) }
        ensures algorithm { algorithm_of self.new ≡ algorithm_of self.old }
        ensures haves { IfOk result (λ window. window.items
            ≡ (window_of (O.graph objects.now) (algorithm_of self.old) size (so_far_of self.old)).haves) }
        ensures later { OnOk result (so_far_of self.new
            ≡ (window_of (O.graph objects.now) (algorithm_of self.old) size (so_far_of self.old)).later) }
        ensures given { IfOk result (λ window. given_by self.new ≡ given_by self.old ++ window.items) }
        ensures broken { OnErr result (IsBroken (O.graph objects.now) (algorithm_of self.old) size (so_far_of self.old) (so_far_of self.new)
            (given_by self.old) (given_by self.new)) }
        ensures told { IsTold (known_by self.new) (O.graph objects.now) }
    {
        let mut window = Vec::new(alloc);
        for _ in 0..size {
            window.reserve(1)?;
            match self.next(alloc, objects)? {
                Some(id) => window.push_reserved(id),
                None => return Ok(window),
            }
        }
        Ok(window)
    }
}

impl Negotiator for AnyNegotiator {
    ghost known = { known_by };

    ghost given = { given_by };

    fn next<O: Objects>(&mut self, alloc: Global, objects: &O) -> Result<Option<ObjectId>, NoMemory>
        requires { IsTold (known_by self.old) (O.graph objects.now) }
        ensures algorithm { algorithm_of self.new ≡ algorithm_of self.old }
        ensures next { IfOk result (λ next. next ≡ (offer_of (O.graph objects.now) (algorithm_of self.old) (so_far_of self.old)).have) }
        ensures ok { OnOk result (so_far_of self.new
            ≡ (offer_of (O.graph objects.now) (algorithm_of self.old) (so_far_of self.old)).later) }
        ensures unchanged { OnErr result (so_far_of self.new ≡ so_far_of self.old) }
        ensures later { OnErr result (offer_of (O.graph objects.now) (algorithm_of self.old) (so_far_of self.new)
            ≡ offer_of (O.graph objects.now) (algorithm_of self.old) (so_far_of self.old)) }
        ensures stored { IfOk result (λ next. IfSome next (λ id. IsStoredCommit (O.graph objects.now) id)) }
        ensures fresh { IfOk result (λ next. IfSome next (λ id. has (given_by self.old) id ≡ false)) }
        ensures given { IfOk result (λ next. given_by self.new ≡ given_by self.old ++ option_to_list next) }
        ensures err { OnErr result (given_by self.new ≡ given_by self.old) }
        ensures told { IsTold (known_by self.new) (O.graph objects.now) }
    {
        match self {
            AnyNegotiator::Noop => Ok(None),
            AnyNegotiator::Consecutive(consecutive) => consecutive.next(alloc, objects),
            AnyNegotiator::Skipping(skipping) => skipping.next(alloc, objects),
        }
    }

    fn in_common<O: Objects>(
        &mut self,
        alloc: Global,
        objects: &O,
        id: &ObjectId,
    ) -> Result<(), NoMemory>
        requires { IsTold (known_by self.old) (O.graph objects.now) }
        ensures algorithm { algorithm_of self.new ≡ algorithm_of self.old }
        ensures ok { OnOk result (so_far_of self.new ≡ sharing (algorithm_of self.old) (so_far_of self.old) id.now) }
        ensures unchanged { OnErr result (so_far_of self.new ≡ so_far_of self.old) }
        ensures given { given_by self.new ≡ given_by self.old }
        ensures told { IsTold (known_by self.new) (O.graph objects.now) }
    {
        match self {
            AnyNegotiator::Noop => Ok(()),
            AnyNegotiator::Consecutive(consecutive) => consecutive.in_common(alloc, objects, id),
            AnyNegotiator::Skipping(skipping) => skipping.in_common(alloc, objects, id),
        }
    }
}
