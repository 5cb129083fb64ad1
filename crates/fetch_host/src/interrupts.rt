//! What stops a fetch.

ghost use Rattle.std.specs.Prelude.{◌≡◌, ℕ, false, IsTrue};
ghost use Rattle.fetch_base.specs.Faults.{Counts, Rose, counted};
ghost use Rattle.fetch_wire.specs.Scripts.{said_after};

use fetch_wire::Interrupt;
use std::sync::atomic::{AtomicBool, Ordering};

/// An interrupt that never says yes.
#[derive(Clone, Copy, Debug)]
pub struct NoInterrupt;

impl Interrupt for NoInterrupt {
    ghost yes = { λ _. record { count = 0; possible = false } };

    ghost will_stop = { λ _ _. ⊥ };

    fn asked(&mut self) -> bool
        ensures never { result ≡ false }
    {
        false
    }
}

/// An interrupt that says yes exactly where it sees its flag set. Another thread, which lends the flag too, sets it, and may
/// take it back. What the flag holds no contract tells: they tell how often it was seen set.
#[derive(Drop)]
pub struct FlagInterrupt<'a> {
    flag: &'a AtomicBool,
    seen: u64,
}

impl<'a> FlagInterrupt<'a> {
    /// An interrupt that looks at this flag, and has seen it set at no time.
    pub fn new(flag: &'a AtomicBool) -> FlagInterrupt<'a>
        ensures { ⟦<FlagInterrupt<'a> as Interrupt>⟧.yes result ≡ counted 0 }
    {
        FlagInterrupt { flag, seen: 0 }
    }

    /// How often the flag was seen set, which is how often the interrupt said yes.
    pub fn seen(&self) -> u64
        ensures { counted result ≡ ⟦<FlagInterrupt<'a> as Interrupt>⟧.yes self.now }
    {
        self.seen
    }
}

impl Interrupt for FlagInterrupt<'_> {
    ghost yes = { λ i. counted i.seen };

    ghost will_stop = { λ _ _. ⊥ };

    /// Looks at the flag once.
    fn asked(&mut self) -> bool
        ensures counts { Counts (counted self.old.seen) (counted self.new.seen) }
        ensures counted { IsTrue result → Rose (counted self.old.seen) (counted self.new.seen) }
        ensures said { self.new.seen ≡ said_after self.old.seen result }
        ensures left { result ≡ false → self.new.seen ≡ self.old.seen }
        ensures now { ⊥ → IsTrue result }
        ensures later { (n : ℕ) → ⊥ → ⊥ }
    {
        let is_set = self.flag.load(Ordering::SeqCst);
        if is_set {
            self.seen = self.seen.saturating_add(1);
        }
        is_set
    }
}
