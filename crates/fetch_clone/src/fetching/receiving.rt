//! What a clone listed is fetched.

ghost use Rattle.std.specs.Prelude.{◌≡◌, Option, IfOk, IfErr, OnOk};
ghost use Rattle.fetch_lines.specs.Talks.{Talk};
ghost use Rattle.fetch_remote.specs.Repositories.{state_of, setup_of};
ghost use Rattle.fetch_clone.specs.Counted.{IsCounted, Later, peer_meters, tree_meters};
ghost use Rattle.fetch_clone.specs.Heeded.{IsHeededOver};
ghost use Rattle.fetch_clone.specs.Received as spec;
ghost use Rattle.fetch_clone.specs.Received.{IsReceived, IsUnreceived, WasListed};

use crate::choices::CloneTarget;
use crate::clone_state::CloneState;
use crate::fetching::hashing::take_hash;
use fetch_conversation::Progress;
use fetch_init::clone::fetch::Error;
use fetch_init::{check_name, check_revision};
use fetch_remote::phases::fetch_on;
use fetch_remote::{Outcome, Prepared, Remote, Repository, Resolved};
use fetch_store::{Files, NoMemory, Text};
use fetch_update::{RefLogMessage, Worktrees};
use fetch_wire::{Interrupt, Peer, RefMap};
use std::alloc::Global;
use std::thread::Threads;

/// Fetches what was listed, where what is wanted is mapped. An empty repository takes the remote's hash before, and the file
/// `config`, which that writes, is in force after the fetch, whether it succeeded or not. References are written packed, and
/// reflogs say where the clone is from.
// Many arguments: those of a fetch that goes on with what was listed.
pub(crate) fn received<P: Peer, I: Interrupt, F: Files, W: Worktrees>(
    rt: &(impl Threads + Sync),
    alloc: Global,
    draft: &CloneState,
    remote: &Remote,
    prepared: Prepared,
    repo: &mut Repository,
    peer: &mut P,
    progress: &mut impl Progress,
    interrupt: &mut I,
    files: &mut F,
    worktrees: &mut W,
) -> Result<Outcome, Error>
    ensures received { IfOk result (λ outcome. (begun : Option Talk)
        → WasListed P.answers begun (P.told peer.old) remote.now (setup_of repo.old) prepared
        → IsReceived P.answers begun (P.told peer.new) (W.told worktrees.old) (F.told files.old)
        (F.told files.new) draft.now remote.now prepared repo.old repo.new outcome) }
    ensures refused { IfErr result (λ e. (begun : Option Talk)
        → WasListed P.answers begun (P.told peer.old) remote.now (setup_of repo.old) prepared
        → IsUnreceived P.answers begun (P.told peer.new) (W.told worktrees.old) (F.may_fail files.old) (F.told files.old)
        (F.told files.new) draft.now remote.now prepared repo.old repo.new e) }
    ensures kind { IfErr result (spec.IsOfReceiving draft.now.choices.wanted prepared.listed.ref_map) }
    ensures counted { IfErr result (IsCounted
        (peer_meters (P.faults peer.old) (I.yes interrupt.old) (F.faults files.old)
        (tree_meters (W.listing worktrees.old) (W.open_repo worktrees.old) (W.follow_symref worktrees.old)))
        (peer_meters (P.faults peer.new) (I.yes interrupt.new) (F.faults files.new)
        (tree_meters (W.listing worktrees.new) (W.open_repo worktrees.new) (W.follow_symref worktrees.new)))) }
    ensures later { Later (peer_meters (P.faults peer.old) (I.yes interrupt.old) (F.faults files.old)
        (tree_meters (W.listing worktrees.old) (W.open_repo worktrees.old) (W.follow_symref worktrees.old)))
        (peer_meters (P.faults peer.new) (I.yes interrupt.new) (F.faults files.new)
        (tree_meters (W.listing worktrees.new) (W.open_repo worktrees.new) (W.follow_symref worktrees.new))) }
    ensures uninterrupted { OnOk result ((I.yes interrupt.new).count ≡ (I.yes interrupt.old).count) }
    ensures questions { OnOk result (IsHeededOver (I.will_stop interrupt.old) (I.will_stop interrupt.new) (P.told peer.old)
        (P.told peer.new)) }
    ensures may_fail { F.may_fail files.new ≡ F.may_fail files.old }
    ensures told { W.told worktrees.new ≡ W.told worktrees.old }
{
    check_mapped(alloc, &draft.choices.wanted, &prepared.listed.ref_map)?;
    // The order takes memory before anything is changed.
    let prepared = ordered(alloc, draft, prepared)?;
    let reread = take_hash(alloc, prepared.listed.ref_map.object_hash, repo, files)?;
    let fetched = fetch_on(
        rt, alloc, remote, prepared, repo, peer, progress, interrupt, files, worktrees,
    );
    // The fetch went on by the settings that its references were listed by.
    put_reread(repo, reread);
    match fetched {
        Ok(outcome) => Ok(outcome),
        Err(e) => Err(Error::from(e)),
    }
}

/// Puts the file in force that was read again, where one was.
fn put_reread(repo: &mut Repository, reread: Option<Resolved>)
    requires { spec.IsResolvedIn (setup_of repo.old) reread }
    ensures state { state_of repo.new ≡ state_of repo.old }
    ensures setup { setup_of repo.new ≡ spec.with_reread (setup_of repo.old) reread }
{
    match reread {
        Some(resolved) => repo.put_local(resolved),
        None => {}
    }
}

/// What was listed, to be fetched as the clone is.
fn ordered(alloc: Global, draft: &CloneState, prepared: Prepared) -> Result<Prepared, NoMemory>
    ensures listed { IfOk result (λ p. p.listed ≡ prepared.listed) }
    ensures options { IfOk result (λ p. p.options ≡ spec.options_of draft.now prepared.options) }
{
    let message = message_of(alloc, draft)?;
    let shallow = draft.choices.shallow.try_clone()?;
    let mut prepared = prepared;
    prepared.options.write_packed_refs_only = true;
    prepared.options.reflog_message = Some(RefLogMessage::Override { message });
    prepared.options.shallow = shallow;
    Ok(prepared)
}

/// What reflogs say.
pub(crate) fn message_of(alloc: Global, draft: &CloneState) -> Result<Text, NoMemory>
    ensures { IfOk result (λ message. message ≡ spec.message_of draft.now) }
{
    let mut message = Vec::from_slice(alloc, b"clone: from ")?;
    message.extend_from_slice(draft.url.as_bytes())?;
    Ok(Text::from(message))
}

/// The ref name has to mean one of the mapped references, and the revision to be mapped.
fn check_mapped(alloc: Global, wanted: &CloneTarget, map: &RefMap) -> Result<(), Error>
    ensures ok { OnOk result (spec.IsMapped wanted.now map.now) }
    ensures refused { IfErr result (spec.IsUnmapped wanted.now map.now) }
{
    match wanted {
        CloneTarget::Everything => Ok(()),
        CloneTarget::RefName(name) => check_name(alloc, name, map),
        CloneTarget::Revision(revision) => check_revision(alloc, revision, map),
    }
}
