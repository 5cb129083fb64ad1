//! Where the program's input comes from, and where its output goes.

ghost use Rattle.std.specs.Prelude.{◌≡◌, ◌≤◌, ◌<◌, List, ℕ, length, IfOk, OnOk, OnErr, IsErrOf};
ghost use Rattle.std.specs.Prelude.{Option};
ghost use Rattle.std.specs.Io.KnownBytes.{ReadConsumes};
ghost use Rattle.fetch_base.specs.Faults.{Faults, Rose, Counts};
ghost use Rattle.fetch_cli.specs.Io.{Takes};

use fetch_store::Failed;
use fetch_wire::SendFault;

/// Where input comes from.
pub trait Source {
    /// The bytes that are left, where the source tells them.
    ghost left: { Self → Option (List ℕ) };

    /// How often a call failed.
    ghost faults: { Self → Faults };

    /// Fills the front of `into` and answers how many bytes came. 0 is the end.
    fn read(&mut self, into: &mut [u8]) -> Result<usize, Failed>
        ensures bound { IfOk result (λ count. count ≤ length into.new) }
        ensures bytes { ReadConsumes (left self.old) (left self.new) result into.new }
        ensures counts { Counts (faults self.old) (faults self.new) }
        ensures cause { OnErr result (Rose (faults self.old) (faults self.new)) }
        ensures quiet { OnOk result ((faults self.new).count ≡ (faults self.old).count) };
}

/// Where output goes.
pub trait Sink {
    /// The bytes that the sink took, where it tells them.
    ghost taken: { Self → Option (List ℕ) };

    /// How often a call failed.
    ghost faults: { Self → Faults };

    /// Takes the bytes. At a refusal a prefix of them may have been taken.
    fn write_all(&mut self, bytes: &[u8]) -> Result<(), SendFault>
        ensures bytes { Takes (taken self.old) (taken self.new) result bytes.now }
        ensures counts { Counts (faults self.old) (faults self.new) }
        ensures cause { IsErrOf result SendFault.Failed → Rose (faults self.old) (faults self.new) }
        ensures quiet { ¬ IsErrOf result SendFault.Failed → (faults self.new).count ≡ (faults self.old).count };
}
