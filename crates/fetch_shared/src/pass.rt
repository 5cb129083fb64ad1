//! Passes: who may enter into the journal of a shared repository, and under which numbers.

ghost use Rattle.std.specs.Prelude.{◌≡◌, ◌-◌};

use crate::lock_rule::Place;
use crate::view::Span;
use std::marker::Model;

/// The right to use a shared repository, and to enter into its journal under one number. It has unused numbers for
/// further passes, and a front: the beginning of the journal that its holder has seen. It takes no memory, and goes from
/// thread to thread.
// Not copied: a pass is the right of one holder.
#[derive(Drop)]
pub struct Pass {
    pub(crate) number: u64,
    pub(crate) unused: Span,
    pub(crate) seat: Place,
}

impl Model for Pass {
    ghost use Rattle.fetch_shared.specs.PassCodes.{coded_holder};
    ghost use Rattle.fetch_shared.specs.Passes.{Holder, holder_of, IsAtRest};

    ghost Value = { Holder };

    ghost coded = { coded_holder };

    ghost view = { λ p. holder_of p.seat.table_id p.seat.me.0 };

    ghost invariant = { λ p. IsAtRest p.number p.unused p.seat.me };
}

impl Pass {
    /// Its number, which its entries have.
    pub fn number(&self) -> u64
        ensures { result ≡ self.now.number }
    {
        self.number
    }

    /// How many unused numbers it has.
    pub fn unused(&self) -> u64
        ensures { result ≡ self.now.unused.end - self.now.unused.first }
    {
        self.unused.end - self.unused.first
    }
}
