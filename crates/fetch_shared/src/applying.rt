//! What a fetch does with what it received, over a shared repository.

ghost use Rattle.std.specs.Prelude.{◌≡◌, ℕ, List as Items, None, Some, IfOk, IfErr, IfSome, MatchResult, OnOk, OnErr};
ghost use Rattle.std.specs.Option.{option_map};
ghost use Rattle.fetch_base.specs.Faults.{Rose, Counts};
ghost use Rattle.fetch_files.specs.FileCalls.{IsRefused as IsBlocked};
ghost use Rattle.fetch_store.specs.Stores.{AreOf};
ghost use Rattle.fetch_pack.specs.Once.{AreNamed};
ghost use Rattle.fetch_conversation.specs.ListStage.{shown};
ghost use Rattle.fetch_remote.specs.Keeping.{AreFiles, without_keep};
ghost use Rattle.fetch_remote.specs.Applying.{released_of, status_by, kept_of as kept_in};
ghost use Rattle.fetch_remote.specs.Blame.{BlamesFiles, BlamesWorktrees, SparesFiles, fault_in, keep_fault_in};
ghost use Rattle.fetch_remote.specs.Blame.{lent_files, lent_trees, told_by};
ghost use Rattle.fetch_journal.specs.Errors.{keep_fault, tree_fault};
ghost use Rattle.fetch_shared.specs.Passes.{IsBack};
ghost use Rattle.fetch_shared.specs.Applying as spec;
ghost use Rattle.fetch_shared.specs.Applying.{HasVerdicts, IsApplied, IsStop, IsUnmoved, IsUnapplied, Moves};
ghost use Rattle.fetch_shared.specs.Applying.{course_of, is_early, matter_of};

use crate::exchange::{Exchange, unreceived};
use crate::pack_taken::{PackTaken, take_pack};
use crate::pass::Pass;
use crate::shared::SharedRepository;
use fetch_conversation::{Listed, Negotiate, Settings};
use fetch_journal::SharedError;
use fetch_refs::{RefEdit, Signature};
use fetch_remote::phases::{ApplyOptions, Kept, TakenReply, judge, keep, status};
use fetch_remote::{Outcome, fetch};
use fetch_store::{Files, NoMemory};
use fetch_update::{Worktrees, update};
use fetch_wire::{Handshake, RefMap};
use std::alloc::Global;
use std::sync::Wait;

/// What was kept of what was received, and what becomes of the mapped references.
#[derive(Drop)]
struct Verdicts {
    /// How many entries they saw.
    judged: u64,
    taken: Option<TakenReply>,
    updates: update::Outcome,
}

/// Why there are no verdicts.
#[derive(Drop)]
struct Stop {
    /// How many entries they saw, where the keep file was made.
    judged: Option<u64>,
    cause: fetch::Error,
}

/// Takes what was received in a turn, makes its keep file, judges the mapped references over what that turn leaves, moves
/// them in another turn, and removes the keep file unless it stays. In a dry run nothing is made or taken and nothing
/// moves.
// Many arguments: what a stage is given, with what is lent to it.
// Long: each stage hands the pass back at its refusal.
pub(crate) fn apply_in_turns<R: Wait, F: Files, W: Worktrees>(
    rt: &R,
    alloc: Global,
    shared: &SharedRepository,
    pass: Pass,
    options: &ApplyOptions,
    exchange: Exchange,
    files: &mut F,
    worktrees: &mut W,
) -> Result<(Pass, u64, Option<u64>, Outcome), (Pass, Option<u64>, Option<u64>, SharedError)>
    requires shared { pass.shared ≡ shared.now }
    requires of_kind { IfSome exchange.received (λ r. AreOf shared.now.opening.state.hash r.objects) }
    requires named { IfSome exchange.received (λ r. AreNamed r.objects) }
    ensures back { MatchResult result (λ r. IsBack pass r.0) (λ r. IsBack pass r.0) }
    ensures applied { IfOk result (λ r. IsApplied
        (matter_of shared.now.opening.setup options.now exchange.wants (shown exchange.listed) exchange.received)
        (course_of pass r.0 (W.told worktrees.old) (F.told files.old) (F.told files.new)) r.1 r.2 r.3) }
    ensures refused { IfErr result (λ r. IsUnapplied
        (matter_of shared.now.opening.setup options.now exchange.wants (shown exchange.listed) exchange.received)
        (course_of pass r.0 (W.told worktrees.old) (F.told files.old) (F.told files.new)) r.1 r.2 r.3) }
    ensures files { BlamesFiles (lent_files F.may_fail F.told F.faults files.old)
        (lent_files F.may_fail F.told F.faults files.new) (told_by (λ r. keep_fault r.3) result) }
    ensures untouched { SparesFiles result (λ r. r.3.status) (λ r. is_early r.3) options.now.dry_run
        shared.now.opening.setup.settings.git_dir (files.new ≡ files.old) }
    ensures worktrees { BlamesWorktrees (lent_trees W.told W.asked W.listing W.open_repo W.follow_symref worktrees.old)
        (lent_trees W.told W.asked W.listing W.open_repo W.follow_symref worktrees.new) (told_by (λ r. tree_fault r.3) result) }
{
    let (ref_map, handshake) = found(exchange.listed);
    let dry_run = options.dry_run;
    let received = exchange.received;
    let wants = exchange.wants.as_slice();
    let (pass, pack_taken) = match take_pack(rt, alloc, shared, pass, dry_run, wants, received) {
        Ok(pack_taken) => pack_taken,
        Err((pass, e)) => return Err((pass, None, None, e)),
    };
    let settings = shared.settings();
    let verdicts = match judge_over(
        alloc, settings, options, &ref_map, pack_taken, files, worktrees,
    ) {
        Ok(verdicts) => verdicts,
        Err(stop) => return Err((pass, stop.judged, None, unreceived(stop.cause))),
    };
    let Verdicts {
        judged,
        taken,
        updates,
    } = verdicts;
    let edits = updates.edits.as_slice();
    let (pass, place) = match commit(rt, alloc, shared, pass, dry_run, edits) {
        Ok(committed) => committed,
        Err((pass, e)) => return Err((pass, Some(judged), None, e)),
    };
    match outcome(files, dry_run, ref_map, handshake, taken, updates) {
        Ok(outcome) => Ok((pass, judged, place, outcome)),
        Err(e) => Err((pass, Some(judged), place, e)),
    }
}

/// What was listed, without the conversation.
fn found(listed: Listed) -> (RefMap, Handshake)
    ensures { result ≡ (listed.ref_map, listed.handshake) }
{
    (listed.ref_map, listed.handshake)
}

/// Makes the keep file of a pack that was taken, and judges the mapped references over what the taking left.
// Many arguments: each is lent by itself.
// Long: its contract names each of what is lent, before and after.
fn judge_over<F: Files, W: Worktrees>(
    alloc: Global,
    settings: &Settings,
    options: &ApplyOptions,
    ref_map: &RefMap,
    pack_taken: PackTaken,
    files: &mut F,
    worktrees: &mut W,
) -> Result<Verdicts, Stop>
    ensures verdicts { IfOk result (HasVerdicts (W.told worktrees.old) (F.told files.old)
        (F.told files.new) settings.now.git_dir options.now ref_map.now pack_taken) }
    ensures stopped { IfErr result (IsStop (W.told worktrees.old) (F.told files.old)
        (F.told files.new) settings.now.git_dir options.now ref_map.now pack_taken) }
    ensures only { IfErr result (λ s. spec.IsOfJudging s.cause) }
    ensures unread { pack_taken.pack ≡ None → files.new ≡ files.old }
    ensures files { BlamesFiles (lent_files F.may_fail F.told F.faults files.old)
        (lent_files F.may_fail F.told F.faults files.new) (told_by (λ s. keep_fault_in s.cause) result) }
    ensures worktrees { BlamesWorktrees (lent_trees W.told W.asked W.listing W.open_repo W.follow_symref worktrees.old)
        (lent_trees W.told W.asked W.listing W.open_repo W.follow_symref worktrees.new) (told_by (λ s. fault_in s.cause) result) }
{
    let PackTaken {
        taken: over,
        negotiate,
        pack,
    } = pack_taken;
    let kept = match keep(alloc, files, settings, pack) {
        Ok(kept) => kept,
        Err(cause) => return Err(Stop {
            judged: None,
            cause,
        }),
    };
    let judged = over.place;
    let answer = judge(
        alloc,
        &over.refs,
        &over.graph,
        ref_map,
        options.tags,
        &options.message,
        options.dry_run,
        worktrees,
    );
    match answer {
        Ok(updates) => Ok(Verdicts {
            judged,
            taken: beside(negotiate, kept),
            updates,
        }),
        Err(cause) => Err(Stop {
            judged: Some(judged),
            cause,
        }),
    }
}

/// The pack beside the rounds, where there were any.
fn beside(negotiate: Option<Negotiate>, pack: Option<Kept>) -> Option<TakenReply>
    ensures { result ≡ option_map (λ n. record { negotiate = n; pack = pack }) negotiate }
{
    match negotiate {
        Some(negotiate) => Some(TakenReply { negotiate, pack }),
        None => None,
    }
}

/// Commits the edits in a turn, but in a dry run, and tells the place of the entry.
fn commit<R: Wait>(
    rt: &R,
    alloc: Global,
    shared: &SharedRepository,
    pass: Pass,
    dry_run: bool,
    edits: &[RefEdit],
) -> Result<(Pass, Option<u64>), (Pass, SharedError)>
    requires { pass.shared ≡ shared.now }
    ensures back { MatchResult result (λ r. IsBack pass r.0) (λ r. IsBack pass r.0) }
    ensures moved { IfOk result (λ r. Moves dry_run pass r.0 edits.now shared.now.opening.setup.settings.committer r.1) }
    ensures refused { IfErr result (λ r. IsUnmoved dry_run pass r.0 edits.now shared.now.opening.setup.settings.committer r.1) }
{
    if dry_run {
        return Ok((pass, None));
    }
    let (edits, committer) = match copies(alloc, edits, &shared.settings().committer) {
        Ok(copies) => copies,
        Err(NoMemory) => return Err((pass, SharedError::NoMemory)),
    };
    let (pass, answer) = shared.commit(rt, pass, edits, committer);
    match answer {
        Ok(place) => Ok((pass, Some(place))),
        Err(e) => Err((pass, e)),
    }
}

/// Copies of the edits and of who makes them.
fn copies(
    alloc: Global,
    edits: &[RefEdit],
    committer: &Signature,
) -> Result<(Vec<RefEdit>, Signature), NoMemory>
    ensures edits { IfOk result (λ c. c.0.items ≡ edits.now) }
    ensures committer { IfOk result (λ c. c.1 ≡ committer.now) }
{
    let mut copies = Vec::with_capacity(alloc, edits.len())?;
    for edit in edits {
        copies.push(edit.try_clone()?)?;
    }
    Ok((copies, committer.try_clone()?))
}

/// The outcome, once the references have moved. The keep file is removed, unless it stays. Takes no memory.
fn outcome<F: Files>(
    files: &mut F,
    dry_run: bool,
    ref_map: RefMap,
    handshake: Handshake,
    taken: Option<TakenReply>,
    updates: update::Outcome,
) -> Result<Outcome, SharedError>
    ensures told { IfOk result (λ outcome. outcome
        ≡ record { ref_map = ref_map; handshake = handshake; status = status_by dry_run taken updates }) }
    ensures removed { OnOk result (AreFiles (F.told files.old) (F.told files.new) (without_keep (released_of updates taken))) }
    ensures refused { IfErr result (λ e. (path : Items ℕ) × (e ≡ spec.unremoved path) × (released_of updates taken ≡ Some path)) }
    ensures stands { OnErr result (F.told files.new ≡ F.told files.old) }
    ensures unread { kept_in taken ≡ None → files.new ≡ files.old }
    ensures counts { Counts (F.faults files.old) (F.faults files.new) }
    ensures cause { OnErr result (Rose (F.faults files.old) (F.faults files.new)) }
    ensures in_the_way { OnErr result (IsBlocked (F.may_fail files.old) (F.told files.old) (without_keep (released_of updates taken))) }
    ensures may_fail { F.may_fail files.new ≡ F.may_fail files.old }
{
    match status(files, dry_run, taken, updates) {
        Ok(status) => Ok(Outcome {
            ref_map,
            handshake,
            status,
        }),
        Err(cause) => Err(unreceived(cause)),
    }
}
