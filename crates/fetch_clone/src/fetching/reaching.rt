//! Peers that a clone makes, lets a closure configure, and takes back.

ghost use Rattle.std.specs.Prelude.{◌≡◌, ◌≤◌, IfOk, IfErr, slice_get};
ghost use Rattle.std.specs.Fn.{CalledAtMut};
ghost use Rattle.fetch_base.specs.Faults.{Counts};
ghost use Rattle.fetch_remote.specs.Connecting.{out_after};
ghost use Rattle.fetch_clone.specs.Reached as spec;
ghost use Rattle.fetch_clone.specs.Reached.{IsReached, IsTurnedAway, IsUnreached, line, ways};

use crate::prepare_fetch::ConfigureFault;
use fetch_init::clone::fetch::Error;
use fetch_remote::connect::Connect;
use fetch_remote::{Direction, Remote};

/// A peer of the remote that the closure agreed to. One that it refuses is taken back, and else none is made where it is refused.
#[tactic(auto, using(crate::proofs::Returned::lost_later))]
pub(crate) fn reached<C: Connect, G: FnMut(&mut C::Peer) -> Result<(), ConfigureFault>>(
    remote: &Remote,
    maker: &mut C,
    configure: &mut G,
) -> Result<C::Peer, Error>
    requires { G.IsAlwaysCallable configure.old }
    ensures reached { IfOk result (IsReached (ways (CalledAtMut G.FnMut) C.Peer.told C.Peer.answers) (slice_get remote.now.urls 0)
        (line (C.left maker.old) (C.taken maker.old) (C.addresses maker.old) configure.old)
        (line (C.left maker.new) (C.taken maker.new) (C.addresses maker.new) configure.new)) }
    ensures refused { IfErr result (IsUnreached
        (IsTurnedAway (ways (CalledAtMut G.FnMut) C.Peer.told C.Peer.answers) (slice_get remote.now.urls 0)
        (line (C.left maker.old) (C.taken maker.old) (C.addresses maker.old) configure.old)
        (line (C.left maker.new) (C.taken maker.new) (C.addresses maker.new) configure.new))
        (line (C.left maker.new) (C.taken maker.new) (C.addresses maker.new) configure.new ≡ line (C.left maker.old) (C.taken maker.old)
        (C.addresses maker.old) configure.old) (C.faults maker.old) (C.faults maker.new) (slice_get remote.now.urls 0)) }
    ensures counts { Counts (C.faults maker.old) (C.faults maker.new) }
    ensures out { C.out maker.new ≡ out_after result (C.out maker.old) }
    ensures lost { (C.lost maker.old).count ≤ (C.lost maker.new).count }
    ensures again { G.IsAlwaysCallable configure.new }
{
    let mut peer = remote.connect(Direction::Fetch, maker)?;
    match configure(&mut peer) {
        Ok(()) => Ok(peer),
        Err(fault) => {
            maker.take_back(peer);
            Err(turned_away(fault))
        }
    }
}

/// How it is told that the closure refused a peer.
fn turned_away(fault: ConfigureFault) -> Error
    ensures { result ≡ spec.turned_away fault }
{
    match fault {
        ConfigureFault::Refused { text } => Error::RemoteConnection { text },
        ConfigureFault::NoMemory => Error::NoMemory,
    }
}
