//! How the turn is taken and given up.
//!
//! Who finds the turn taken sleeps until it is given up. No wake is lost: a sleeper is counted before the system compares
//! the turn word, and who gives the turn up frees that word before it reads the count. So it finds the sleeper counted, and
//! wakes one; or the word is compared after it was freed, and then the sleeper tries again, unless another has the turn by
//! then, who is yet to give it up. Who is woken tries again, so that it wakes the next one, or another does.

ghost use Rattle.std.specs.Prelude.{◌≡◌, [], ◌∷◌, ◌++◌, None};
ghost use Rattle.fetch_journal.specs.declared.entry.Entry.{Entry};
ghost use Rattle.fetch_shared.specs.declared.view.Stage.TheVariants.{Resting, Turn};
ghost use Rattle.fetch_journal.specs.Journals.{pass_of};
ghost use Rattle.fetch_journal.specs.Shared.{IsKept};
ghost use Rattle.fetch_shared.specs.LockRule.{turning, resting, Finds};

use crate::lock_rule::{Load, Place, Record, Release, Try};
use crate::shared::SharedRepository;
use fetch_journal::SharedState;
use std::sync::Wait;
use std::sync::atomic::Ordering::SeqCst;

/// 1 while a pass has the turn, and 0 while it is free.
pub(crate) const TURN: usize = 0;

/// How many entries the journal has.
const ENTRIES: usize = 1;

impl SharedRepository {
    /// Waits for the turn, and takes the state out.
    pub(crate) fn take_turn<R: Wait>(&self, rt: &R, seat: &mut Place) -> SharedState
        requires table { seat.old.table_id ≡ self.now.table }
        requires rests { (seat.old.me.0.stage ≡ Resting) × (seat.old.me.1 ≡ []) }
        ensures table { seat.new.table_id ≡ seat.old.table_id }
        ensures turn { seat.new.me ≡ (turning seat.old.me.0 result.journal, (0, None) ∷ []) }
        ensures opening { result.opening ≡ seat.old.me.0.opening }
        ensures finds { Finds seat.old.me.0 result.journal }
        ensures kept { IsKept result }
    {
        let shared = &self.table.shared;
        for _ in rt.forever() {
            if shared.compare_exchange::<Try>(seat, TURN, 0, 1) == 0 {
                let state = shared.exchange(seat, 0, None).unwrap();
                shared.load::<Load>(seat, ENTRIES);
                let _journal = state.journal();
                return state;
            }
            self.sleep(rt);
        }
        unreachable!()
    }

    /// Gives the turn up with the state as it was found.
    pub(crate) fn give_back(&self, seat: &mut Place, state: SharedState)
        requires table { seat.old.table_id ≡ self.now.table }
        requires opening { state.opening ≡ seat.old.me.0.opening }
        requires turn { (seat.old.me.0.stage ≡ Turn state.journal) × (seat.old.me.1 ≡ (0, None) ∷ []) }
        ensures table { seat.new.table_id ≡ seat.old.table_id }
        ensures turn { seat.new.me ≡ (resting seat.old.me.0, []) }
    {
        let shared = &self.table.shared;
        shared.exchange(seat, 0, Some(state));
        shared.swap::<Release>(seat, TURN, 0);
        self.wake();
    }

    /// Gives the turn up with a state that has one more entry of this number.
    pub(crate) fn record(&self, seat: &mut Place, state: SharedState)
        requires table { seat.old.table_id ≡ self.now.table }
        requires opening { state.opening ≡ seat.old.me.0.opening }
        requires turn { (seat.old.me.0.stage ≡ Turn seat.old.me.0.front) × (seat.old.me.1 ≡ (0, None) ∷ []) }
        requires grown { (e : Entry) × (pass_of e ≡ seat.old.me.0.number) × (state.journal ≡ seat.old.me.0.front ++ e ∷ []) }
        ensures table { seat.new.table_id ≡ seat.old.table_id }
        ensures turn { seat.new.me ≡ (resting (turning seat.old.me.0 state.journal), []) }
        ensures kept { IsKept state }
    {
        let shared = &self.table.shared;
        let _room = state.journal().len();
        shared.exchange(seat, 0, Some(state));
        shared.fetch_add::<Record>(seat, ENTRIES, 1);
        shared.swap::<Release>(seat, TURN, 0);
        self.wake();
    }

    /// Sleeps while the turn is taken. It may also return for no reason.
    fn sleep<R: Wait>(&self, rt: &R) {
        self.sleepers.fetch_add(1, SeqCst);
        self.table.shared.park(rt, TURN, 1);
        self.sleepers.fetch_sub(1, SeqCst);
    }

    /// Wakes one of those who sleep, once the turn is free. It asks the system for nothing where nobody does.
    fn wake(&self) {
        if self.sleepers.load(SeqCst) != 0 {
            self.table.shared.wake_one(TURN);
        }
    }
}
