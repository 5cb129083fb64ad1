//! A clone whose remote is saved is fetched into.

ghost use Rattle.std.specs.Prelude.{◌≡◌, IfOk, IfErr};
ghost use Rattle.std.specs.Fn.{CalledAtMut};
ghost use Rattle.std.specs.Option.{option_copied};
ghost use Rattle.fetch_clone.specs.Cloned as spec;
ghost use Rattle.fetch_clone.specs.Cloned.{IsCompleted, IsUncompleted};
ghost use Rattle.fetch_clone.specs.Counted.{BlamesLent, counts_by};
ghost use Rattle.fetch_clone.specs.Reached.{line, ways};

use crate::clone_state::CloneState;
use crate::fetching::finishing::finished;
use crate::fetching::listing::listed;
use crate::fetching::saving::Saved;
use crate::fetching::taking::taken;
use crate::prepare_fetch::ConfigureFault;
use fetch_config::File;
use fetch_conversation::Progress;
use fetch_init::clone::fetch::Error;
use fetch_remote::connect::Connect;
use fetch_remote::{Outcome, Repository};
use fetch_store::{Files, Kind};
use fetch_update::Worktrees;
use fetch_wire::Interrupt;
use std::alloc::Global;
use std::thread::Threads;

/// Lists the references of the saved remote, fetches what is wanted of them, and lets `HEAD` take what it is to take.
// Long: one line an argument of each step.
// Many arguments: a clone's parts, of which several are changed.
pub(crate) fn completed<
    F: Files,
    C: Connect,
    G: FnMut(&mut C::Peer) -> Result<(), ConfigureFault>,
    I: Interrupt,
    W: Worktrees,
>(
    rt: &(impl Threads + Sync),
    alloc: Global,
    saved: &Saved,
    draft: &CloneState,
    repo: &mut Repository,
    files: &mut F,
    maker: &mut C,
    configure: &mut G,
    progress: &mut impl Progress,
    interrupt: &mut I,
    worktrees: &mut W,
) -> Result<Outcome, Error>
    requires { G.IsAlwaysCallable configure.old }
    ensures completed { IfOk result (IsCompleted (I.will_stop interrupt.old) (I.will_stop interrupt.new)
        (ways (CalledAtMut G.FnMut) C.Peer.told C.Peer.answers)
        (line (C.left maker.old) (C.taken maker.old) (C.addresses maker.old) configure.old)
        (line (C.left maker.new) (C.taken maker.new) (C.addresses maker.new) configure.new) (W.told worktrees.old) (F.told files.old)
        (F.told files.new) draft.now saved.now repo.old repo.new) }
    ensures refused { IfErr result (IsUncompleted (ways (CalledAtMut G.FnMut) C.Peer.told C.Peer.answers) (C.faults maker.old)
        (C.faults maker.new) (line (C.left maker.old) (C.taken maker.old) (C.addresses maker.old) configure.old)
        (line (C.left maker.new) (C.taken maker.new) (C.addresses maker.new) configure.new) (W.told worktrees.old) (F.may_fail files.old)
        (F.told files.old) (F.told files.new) draft.now saved.now repo.old repo.new) }
    ensures blames { BlamesLent (counts_by C.faults C.lost I.yes F.faults W.listing W.open_repo W.follow_symref)
        (maker.old, interrupt.old, files.old, worktrees.old) (maker.new, interrupt.new, files.new, worktrees.new) result }
    ensures told { W.told worktrees.new ≡ W.told worktrees.old }
    ensures out { C.out maker.new ≡ C.out maker.old }
    ensures may_fail { F.may_fail files.new ≡ F.may_fail files.old }
    ensures again { G.IsAlwaysCallable configure.new }
{
    let name = saved.name.as_bytes();
    let choices = &draft.choices;
    let (peer, prepared) = listed(
        alloc,
        name,
        choices,
        &saved.remote,
        repo,
        maker,
        configure,
        interrupt,
    )?;
    let before = repo.object_hash();
    let outcome = taken(
        rt,
        alloc,
        draft,
        &saved.remote,
        prepared,
        peer,
        repo,
        maker,
        progress,
        interrupt,
        files,
        worktrees,
    )?;
    let map = &outcome.ref_map;
    let section = section_left(&saved.section, before, repo.object_hash());
    match finished(alloc, draft, name, section, map, repo, files) {
        Ok(()) => Ok(outcome),
        Err(e) => Err(e),
    }
}

/// The remote's section, which is still to be put in force unless the repository took another hash: the file that was read
/// again for that has it.
fn section_left(section: &File, before: Kind, now: Kind) -> Option<&File>
    ensures { option_copied result ≡ spec.section_left section.now before now }
{
    if before == now { Some(section) } else { None }
}
