//! The rule of the table, and what each step tells.
use crate::view::View;
use atomic_table::{Join, Play, Seat, Split, Table, TableRule};
use fetch_journal::SharedState;
use fetch_remote::Repository;
use opening_value::Opening;
use std::alloc::Global;
use std::marker::{Brand, PhantomData};

/// One seat at a time has the turn.
pub(crate) struct OneTurn;

impl TableRule<Option<SharedState>, View, Opening<Repository>> for OneTurn {
    ghost use Rattle.fetch_shared.specs.LockRule.{IsOrdered, newcomer};

    ghost holds = { λ opening. IsOrdered opening.value };

    ghost first = { λ opening. newcomer opening.value };
}

/// The table at which the passes of one shared repository sit: two words and the state.
pub(crate) type Desk = Table<Option<SharedState>, View, Opening<Repository>, OneTurn, Global>;

/// The seat of one pass.
pub(crate) type Place = Seat<Option<SharedState>, View>;

/// A try to get the turn.
pub(crate) struct Try;

impl Play<Option<SharedState>, View> for Try {
    ghost use Rattle.fetch_shared.specs.LockRule.{Tries};

    ghost then = { Tries };
}

/// The holder of the turn reads how many entries there are, and has then seen the whole journal.
pub(crate) struct Load;

impl Play<Option<SharedState>, View> for Load {
    ghost use Rattle.fetch_shared.specs.LockRule.{Loads};

    ghost then = { Loads };
}

/// The holder of the turn records that the journal has its entry.
pub(crate) struct Record;

impl Play<Option<SharedState>, View> for Record {
    ghost use Rattle.fetch_shared.specs.LockRule.{Records};

    ghost then = { Records };
}

/// The holder gives the turn back, and the state with it.
pub(crate) struct Release;

impl Play<Option<SharedState>, View> for Release {
    ghost use Rattle.fetch_shared.specs.LockRule.{Releases};

    ghost then = { Releases };
}

/// A look at the turn word, which tells a pass that its numbers are its own.
pub(crate) struct Learn;

impl Play<Option<SharedState>, View> for Learn {
    ghost use Rattle.fetch_shared.specs.LockRule.{Learns};

    ghost then = { Learns };
}

/// A look after a join: the pass keeps the longer of both fronts.
pub(crate) struct Settle;

impl Play<Option<SharedState>, View> for Settle {
    ghost use Rattle.fetch_shared.specs.LockRule.{Settles};

    ghost then = { Settles };
}

/// How many numbers go to the right at a split. Each call picks it.
pub(crate) trait Share {
    ghost use Rattle.std.specs.Prelude.{ℕ};

    ghost numbers: { ℕ };
}

impl Share for Brand {
    ghost numbers = { 1 };
}

/// A split: the right part gets the least unused numbers, as many as `C` says, the first as its own.
pub(crate) struct Cut<C> {
    share: PhantomData<C>,
}

impl<C: Share> Split<View> for Cut<C> {
    ghost use Rattle.fetch_shared.specs.LockRule.{left_part, right_part};

    ghost left = { left_part C.numbers };

    ghost right = { right_part C.numbers };
}

/// A join: the left pass takes in what the other one holds.
pub(crate) struct Glue;

impl Join<View> for Glue {
    ghost use Rattle.fetch_shared.specs.LockRule.{both_parts, spent};

    ghost both = { both_parts };

    ghost spent = { spent };
}
