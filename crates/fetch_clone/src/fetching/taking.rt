//! What a peer listed is fetched from it, and the peer is taken back.

ghost use Rattle.std.specs.Prelude.{◌≡◌, ◌+◌, ◌<◌, Option, IfOk, IfErr};
ghost use Rattle.fetch_lines.specs.Talks.{Talk};
ghost use Rattle.fetch_remote.specs.Repositories.{setup_of};
ghost use Rattle.fetch_clone.specs.Counted.{BlamesLent, counts_by};
ghost use Rattle.fetch_clone.specs.Heeded.{IsHeededOver};
ghost use Rattle.fetch_clone.specs.Received.{IsNotTaken, IsTaken, WasListed};

use crate::clone_state::CloneState;
use crate::fetching::receiving::received;
use fetch_conversation::Progress;
use fetch_init::clone::fetch::Error;
use fetch_remote::connect::Connect;
use fetch_remote::{Outcome, Prepared, Remote, Repository};
use fetch_store::Files;
use fetch_update::Worktrees;
use fetch_wire::Interrupt;
use std::alloc::Global;
use std::thread::Threads;

/// Fetches what a peer listed, and takes the peer back.
// Many arguments: those of a fetch that goes on with what was listed, and what made the peer.
pub(crate) fn taken<F: Files, C: Connect, I: Interrupt, W: Worktrees>(
    rt: &(impl Threads + Sync),
    alloc: Global,
    draft: &CloneState,
    remote: &Remote,
    prepared: Prepared,
    peer: C::Peer,
    repo: &mut Repository,
    maker: &mut C,
    progress: &mut impl Progress,
    interrupt: &mut I,
    files: &mut F,
    worktrees: &mut W,
) -> Result<Outcome, Error>
    requires some_out { 0 < C.out maker.old }
    ensures taken { IfOk result (λ outcome. (begun : Option Talk)
        → WasListed C.Peer.answers begun (C.Peer.told peer) remote.now (setup_of repo.old) prepared
        → (t : IsTaken C.Peer.told C.Peer.answers begun (C.taken maker.old) (C.taken maker.new) (W.told worktrees.old) (F.told files.old)
        (F.told files.new) draft.now remote.now prepared repo.old repo.new outcome)
        × IsHeededOver (I.will_stop interrupt.old) (I.will_stop interrupt.new) (C.Peer.told peer) (C.Peer.told t.last)) }
    ensures refused { IfErr result (λ e. (begun : Option Talk)
        → WasListed C.Peer.answers begun (C.Peer.told peer) remote.now (setup_of repo.old) prepared
        → IsNotTaken C.Peer.told C.Peer.answers begun (C.taken maker.old) (C.taken maker.new) (W.told worktrees.old) (F.may_fail files.old)
        (F.told files.old) (F.told files.new) draft.now remote.now prepared repo.old repo.new e) }
    ensures blames { BlamesLent (counts_by C.faults C.lost I.yes F.faults W.listing W.open_repo W.follow_symref)
        (maker.old, interrupt.old, files.old, worktrees.old) (maker.new, interrupt.new, files.new, worktrees.new) result }
    ensures told { W.told worktrees.new ≡ W.told worktrees.old }
    ensures out { C.out maker.new + 1 ≡ C.out maker.old }
    ensures left { C.left maker.new ≡ C.left maker.old }
    ensures addresses { C.addresses maker.new ≡ C.addresses maker.old }
    ensures faults { C.faults maker.new ≡ C.faults maker.old }
    ensures may_fail { F.may_fail files.new ≡ F.may_fail files.old }
{
    let mut peer = peer;
    let answer = received(
        rt, alloc, draft, remote, prepared, repo, &mut peer, progress, interrupt, files, worktrees,
    );
    maker.take_back(peer);
    answer
}
