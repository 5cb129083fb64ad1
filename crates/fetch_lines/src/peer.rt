//! The one that is fetched from, and the one that may stop the fetch.

ghost use Rattle.std.specs.Prelude.{◌≡◌, ◌≤◌, ◌∷◌, [], ℕ, suc, Bool, false, length, IfOk, OnErr, IsErrOf, IsTrue, Option};
ghost use Rattle.fetch_base.specs.Faults.{Faults, Rose, Counts};
ghost use Rattle.fetch_lines.specs.Talks.{Talk, Sends, Receives, Makes, at_once};

use fetch_base::Failed;
use thiserror::Error;

/// Why bytes weren't sent.
#[derive(Clone, Copy, Debug, PartialEq, Eq, Error)]
pub enum SendFault {
    /// The other side failed. Its count of faults rose.
    #[error("the other side failed")]
    Failed,
    /// Memory ran out, which is no fault of the other side.
    #[error("out of memory")]
    NoMemory,
}

/// The other end of one conversation: a connection to a server, or what stands for one.
///
/// A peer serves one listing or one fetch, and is of no use afterwards: nothing closes the conversation, so who made the
/// peer closes its connection. It is asked to receive only where all that was to be sent has been sent, and a reply is
/// awaited. A request is handed over whole, in one `send`, so a peer over HTTP may post it at its flush.
///
/// `told` is what it lets contracts know of its bytes. None is right for a socket: then no clause of a fetch says which
/// bytes were sent and received, while all that is said of the repository, of the outcome and of refusals stands.
pub trait Peer {
    /// What it received, what it gave and what it has still to give, and each receive that was made of it, where it tells
    /// them.
    ghost told: { Self → Option Talk };

    ghost faults: { Self → Faults };

    /// Whether what it receives may add to what it has still to give.
    ghost answers: { Bool };

    /// Sends all of the bytes. At a refusal a prefix of them may have been received. `Failed` where the other side can't be
    /// reached or a time-out ran off; count it, and keep what you know of the cause: the error of a fetch has no room for it.
    fn send(&mut self, bytes: &[u8]) -> Result<(), SendFault>
        ensures talk { Sends answers (told self.old) (told self.new) result bytes.now }
        ensures receives { Makes (told self.old) (told self.new) [] }
        ensures counts { Counts (faults self.old) (faults self.new) }
        ensures cause { IsErrOf result SendFault.Failed → Rose (faults self.old) (faults self.new) };

    /// Fills the front of `into` and answers how many bytes came, one or more. 0 is the end of what the other side has to
    /// say: inside a reply that is `Malformed`, and no fault of the peer. So a connection that broke off, also at its end in
    /// the midst of a conversation, answers `Failed`, which a caller may try again (`is_spurious`). There is no answer for
    /// "nothing yet": wait, or answer `Failed` after a time of your own. What is to come grows in no such call. It is one
    /// receive, at a refusal too.
    fn receive(&mut self, into: &mut [u8]) -> Result<usize, Failed>
        ensures bound { IfOk result (λ count. count ≤ length into.new) }
        ensures talk { Receives (told self.old) (told self.new) result into.new }
        ensures receives { Makes (told self.old) (told self.new) (at_once ∷ []) }
        ensures counts { Counts (faults self.old) (faults self.new) }
        ensures cause { OnErr result (Rose (faults self.old) (faults self.new)) };
}

/// What is asked whether to stop: once before each receive, and at no other time. So it isn't asked while a receive
/// waits, while bytes are sent, or while objects are hashed and taken.
pub trait Interrupt {
    /// The count of yes answers.
    ghost yes: { Self → Faults };

    /// That it will say yes to the question of this number, where it tells so. The next question is 0.
    ghost will_stop: { Self → ℕ → Type 0 };

    /// Whether to stop. A yes is counted.
    fn asked(&mut self) -> bool
        ensures counts { Counts (yes self.old) (yes self.new) }
        ensures counted { IsTrue result → Rose (yes self.old) (yes self.new) }
        ensures left { result ≡ false → (yes self.new).count ≡ (yes self.old).count }
        ensures now { will_stop self.old 0 → IsTrue result }
        ensures later { (n : ℕ) → will_stop self.old (suc n) → will_stop self.new n };
}
