//! What makes the peers that a remote is reached by.

ghost use Rattle.std.specs.Prelude.{◌≡◌, ◌+◌, ◌<◌, ℕ, List, Option, IfOk, IsErrOf, slice_get};
ghost use Rattle.fetch_base.specs.Faults.{Faults, Rose, Counts};
ghost use Rattle.fetch_remote.specs.Connecting.{is_of_maker, IsMissing, Makes, MakesAt, MakesAtFirst, TakesBack, out_after, with_lost};
ghost use Rattle.fetch_remote.specs.Remotes.{urls_for};
ghost use Rattle.fetch_remote.specs.declared.connect.Error.TheVariants as errors;

use crate::remote::Remote;
use crate::remotes::direction::Direction;
use fetch_wire::{Peer, SendFault};
use thiserror::Error as ThisError;

/// Makes peers, and takes them back: one at a time, each before the next one is made.
///
/// `out` counts exactly, so a maker of one's own counts it with a test (`checked_add`) in `make`. `lost` is a count of faults: a
/// `u64` that rises by one and stands still at its end (`saturating_add`) will do. `left`, `taken` and `addresses` may be None.
pub trait Connect {
    type Peer: Peer + Drop;

    /// How often it failed.
    ghost faults: { Self → Faults };

    /// How many peers it made and didn't take back yet.
    ghost out: { Self → ℕ };

    /// How many peers were taken back that had failed.
    ghost lost: { Self → Faults };

    /// The peers still to be made, where it tells them.
    ghost left: { Self → Option (List Self.Peer) };

    /// The peers taken back, as they then stood, where it tells them.
    ghost taken: { Self → Option (List Self.Peer) };

    /// The addresses at which it made peers, in that order, where it tells them.
    ghost addresses: { Self → Option (List (List ℕ)) };

    /// Makes a peer at an address: the next one, where it tells them.
    fn make(&mut self, address: &[u8]) -> Result<Self::Peer, SendFault>
        ensures counts { Counts (faults self.old) (faults self.new) }
        ensures cause { IsErrOf result SendFault.Failed → Rose (faults self.old) (faults self.new) }
        ensures fresh { IfOk result (λ peer. (Self.Peer.faults peer).count ≡ 0) }
        ensures out { out self.new ≡ out_after result (out self.old) }
        ensures left { Makes (left self.old) (left self.new) result }
        ensures address { MakesAt address.now (addresses self.old) (addresses self.new) result }
        ensures lost { lost self.new ≡ lost self.old }
        ensures taken { taken self.new ≡ taken self.old };

    /// Takes a peer back. This takes no memory.
    fn take_back(&mut self, peer: Self::Peer)
        requires { 0 < out self.old }
        ensures out { out self.new + 1 ≡ out self.old }
        ensures lost { lost self.new ≡ with_lost (Self.Peer.faults peer) (lost self.old) }
        ensures taken { TakesBack (taken self.old) (taken self.new) peer }
        ensures left { left self.new ≡ left self.old }
        ensures addresses { addresses self.new ≡ addresses self.old }
        ensures faults { faults self.new ≡ faults self.old };
}

/// Why there is no peer.
#[derive(Clone, Copy, Debug, PartialEq, Eq, ThisError)]
pub enum Error {
    /// The remote has no address.
    #[error("a remote without an address")]
    MissingUrl {
        /// What it would be for.
        direction: Direction,
    },
    /// The maker failed.
    #[error("the remote couldn't be reached")]
    Connect,
    /// Memory ran out.
    #[error("out of memory")]
    NoMemory,
}

impl Error {
    /// Whether the cause is the way to the server alone: the maker failed.
    pub fn is_spurious(&self) -> bool
        ensures { result ≡ is_of_maker self.now }
    {
        matches!(self, Error::Connect)
    }
}

/// In place of a send: a fault of the maker.
impl From<SendFault> for Error {
    ghost use Rattle.std.specs.Prelude.{◌≡◌};
    ghost use Rattle.fetch_remote.specs.Connecting.{connecting};

    ghost from_gives = { λ e f. f ≡ connecting e };

    fn from(e: SendFault) -> Error {
        match e {
            SendFault::Failed => Error::Connect,
            SendFault::NoMemory => Error::NoMemory,
        }
    }
}

impl Remote {
    /// A peer at the remote's first address. `MissingUrl` comes exactly where it has none, and
    /// `Connect` only where the maker's count of faults rose.
    pub fn connect<C: Connect>(&self, direction: Direction, maker: &mut C) -> Result<C::Peer, Error>
        ensures missing { IsMissing (slice_get (urls_for self.now direction) 0) direction result }
        ensures cause { IsErrOf result errors.Connect → Rose (C.faults maker.old) (C.faults maker.new) }
        ensures counts { Counts (C.faults maker.old) (C.faults maker.new) }
        ensures fresh { IfOk result (λ peer. (C.Peer.faults peer).count ≡ 0) }
        ensures out { C.out maker.new ≡ out_after result (C.out maker.old) }
        ensures left { Makes (C.left maker.old) (C.left maker.new) result }
        ensures address { MakesAtFirst (slice_get (urls_for self.now direction) 0) (C.addresses maker.old) (C.addresses maker.new) result }
        ensures lost { C.lost maker.new ≡ C.lost maker.old }
        ensures taken { C.taken maker.new ≡ C.taken maker.old }
    {
        match self.url(direction) {
            Some(address) => match maker.make(address) {
                Ok(peer) => Ok(peer),
                Err(e) => Err(Error::from(e)),
            },
            None => Err(Error::MissingUrl { direction }),
        }
    }
}
