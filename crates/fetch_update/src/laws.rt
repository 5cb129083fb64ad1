//! What decides an update.

ghost use Rattle.std.specs.Prelude.{◌≡◌, ◌≢◌, ◌↔◌, ℕ, List, Some, None, Ok, Err, IfOk, IsTrue, Contains, true, false};
ghost use Rattle.std.specs.FinMap.{get};
ghost use Rattle.fetch_base.specs.Answers.{AnswersUnless};
ghost use Rattle.fetch_store.specs.Graph.{Graph};
ghost use Rattle.fetch_base.specs.declared.id.ObjectId.{ObjectId};
ghost use Rattle.fetch_specs.specs.Specs.{Spec};
ghost use Rattle.fetch_refs.specs.Expectations.{refusal_of};
ghost use Rattle.fetch_refs.specs.declared.edit.RefEdit.{RefEdit};
ghost use Rattle.fetch_refs.specs.declared.target.Target.TheVariants.{Object};
ghost use Rattle.fetch_map.specs.declared.mapping.Mapping.{Mapping};
ghost use Rattle.fetch_update.specs.Accepted.{AcceptsExactly, GuessesExactly, RejectsExactly, HasOneEach, EditsCarryOut};
ghost use Rattle.fetch_update.specs.Accepting.{is_accepting, Accepts, HasDryRow, IsTaken, Tells};
ghost use Rattle.fetch_update.specs.Ahead.{is_ahead};
ghost use Rattle.fetch_update.specs.Dated.{HasDatedPath};
ghost use Rattle.fetch_update.specs.Outcomes.{outcome_of};
ghost use Rattle.fetch_update.specs.Policy.{Policy, is_memory, policy_over, verdict_of, value_of, nothing, is_stored};
ghost use Rattle.fetch_update.specs.Refusing.{Refuses, IsRefusedWith};
ghost use Rattle.fetch_update.specs.Rejecting.{Rejects, IsCheckedOut};
ghost use Rattle.fetch_update.specs.Telling.{EditsSay, TellsTypeChanges};
ghost use Rattle.fetch_update.specs.Writes.{WritesOnly, gives};
ghost use Rattle.fetch_update.specs.declared.mode.Mode.{Mode};
ghost use Rattle.fetch_update.specs.declared.mode.Mode.TheVariants as modes;
ghost use Rattle.fetch_update.specs.declared.update.Error.{Error};
ghost use Rattle.fetch_update.specs.declared.update.Outcome.{Outcome};
ghost use Rattle.fetch_update.specs.declared.verdict.Verdict.{Verdict};

use crate::adjusting::adjusted_outcome;
pub use crate::dated::{has_dated_path, is_dated_ancestor};
use crate::judge::Judge;
use crate::message::RefLogMessage;
use crate::trees::index_of;
use crate::update::{Error, Outcome};
use crate::verdicts::verdicts;
use crate::worktrees::Worktree;
use fetch_map::Mapping;
use fetch_refs::Refs;
use fetch_specs::{RefSpec, Tags};
use fetch_store::Objects;
use std::alloc::Global;

/// What becomes of each mapping by the update policy, and the edits that carry it out. Nothing is changed. In a dry run
/// no object of the remote is asked for. A refusal is that of the first mapping that has one.
// Many arguments: the public signature. The policy looks at all of these.
#[tactic(auto, unfolding(crate::specs::Outcomes::outcome_of))]
pub fn update<O: Objects>(
    alloc: Global,
    refs: &Refs,
    objects: &O,
    message: &RefLogMessage,
    mappings: &[Mapping],
    refspecs: &[RefSpec],
    extra_refspecs: &[RefSpec],
    tags: Tags,
    dry_run: bool,
    worktrees: &[Worktree],
) -> Result<Outcome, Error>
    ensures { AnswersUnless is_memory (outcome_of (policy_over refs.now.names (O.graph objects.now) message.now tags dry_run worktrees.now)
        refspecs.now extra_refspecs.now mappings.now) result }
{
    let directories = index_of(alloc, worktrees)?;
    let judge = Judge {
        alloc,
        refs,
        message,
        tags,
        dry_run,
        worktrees,
        directories: &directories,
    };
    let verdicts = verdicts(&judge, objects, mappings, refspecs, extra_refspecs)?;
    Ok(adjusted_outcome(alloc, refs, verdicts)?)
}

/// The test for a dated path answers true exactly where there is one.
pub fn dated_paths_are_found()
    ensures { (g : Graph) (from to : ObjectId) → IsTrue (is_ahead g from to) ↔ HasDatedPath g from to }
{}

// ---- one mapping by itself

/// Outside a dry run, a mapping by itself is told an accepting mode exactly where that mode's row
/// holds. Its edit then gives its destination what the remote has.
pub fn accepting_modes_have_their_rows()
    ensures told { (p : Policy) (s : Spec) (m : Mapping) → p.dry_run ≡ false
        → IfOk (verdict_of p s m) (λ v. IsTrue (is_accepting v.mode) → Accepts p s m v.mode) }
    ensures holds { (p : Policy) (s : Spec) (m : Mapping) (mode : Mode) → p.dry_run ≡ false → Accepts p s m mode → (v : Verdict)
        × (verdict_of p s m ≡ Ok v) × Tells m mode v }
{}

/// The same in a dry run, where nothing is asked of the objects: a branch that would move is told a
/// fast-forward.
pub fn dry_runs_have_their_rows()
    ensures told { (p : Policy) (s : Spec) (m : Mapping) → p.dry_run ≡ true
        → IfOk (verdict_of p s m) (λ v. IsTrue (is_accepting v.mode) → HasDryRow p s m v.mode) }
    ensures holds { (p : Policy) (s : Spec) (m : Mapping) (mode : Mode) → p.dry_run ≡ true → HasDryRow p s m mode → (v : Verdict)
        × (verdict_of p s m ≡ Ok v) × Tells m mode v }
{}

/// A mapping by itself is told a rejecting mode exactly where that mode's row holds. It then has no
/// edit.
pub fn rejecting_modes_have_their_rows()
    ensures told { (p : Policy) (s : Spec) (m : Mapping)
        → IfOk (verdict_of p s m) (λ v. is_accepting v.mode ≡ false → Rejects p s m v.mode) }
    ensures holds { (p : Policy) (s : Spec) (m : Mapping) (mode : Mode) → Rejects p s m mode → verdict_of p s m ≡ Ok (nothing mode) }
{}

/// A reference that is checked out is told so, whether or not anything would change, and before it is
/// asked what the reference stands for.
pub fn checked_out_comes_first()
    ensures { (p : Policy) (s : Spec) (m : Mapping) (dirs : List (List ℕ)) → IsTaken p (value_of m.remote) → IsCheckedOut p m dirs
        → verdict_of p s m ≡ Ok (nothing (modes.RejectedCurrentlyCheckedOut dirs)) }
{}

/// A mapping is refused with an error exactly where that error's row holds.
pub fn refusals_have_their_rows()
    ensures { (p : Policy) (s : Spec) (m : Mapping) (e : Error) → (verdict_of p s m ≡ Err e) ↔ Refuses p m e }
{}

/// Each edit of a verdict writes what its mapping wants: the remote's id, or the name that an unborn
/// reference of the remote names.
pub fn edits_write_what_is_wanted()
    ensures { (p : Policy) (s : Spec) (m : Mapping) → IfOk (verdict_of p s m) (λ v. WritesOnly (value_of m.remote) v.edit) }
{}

// ---- all mappings

/// Outside a dry run, each update of an outcome tells an accepting mode exactly where its mapping is
/// accepted with that mode, among all mappings.
pub fn outcomes_accept_exactly()
    ensures { (p : Policy) (specs extra : List Spec) (mappings : List Mapping) (o : Outcome) → outcome_of p specs extra mappings ≡ Ok o
        → p.dry_run ≡ false → AcceptsExactly p specs extra mappings o }
{}

/// The same in a dry run.
pub fn dry_runs_guess_exactly()
    ensures { (p : Policy) (specs extra : List Spec) (mappings : List Mapping) (o : Outcome) → outcome_of p specs extra mappings ≡ Ok o
        → p.dry_run ≡ true → GuessesExactly p specs extra mappings o }
{}

/// Each update of an outcome tells a rejecting mode exactly where its mapping is rejected with that
/// mode, among all mappings.
pub fn outcomes_reject_exactly()
    ensures { (p : Policy) (specs extra : List Spec) (mappings : List Mapping) (o : Outcome) → outcome_of p specs extra mappings ≡ Ok o
        → RejectsExactly p specs extra mappings o }
{}

/// The whole is refused exactly where a mapping refuses, with what the first such mapping refuses with.
pub fn the_first_refusal_stands()
    ensures { (p : Policy) (specs extra : List Spec) (mappings : List Mapping) (e : Error)
        → (outcome_of p specs extra mappings ≡ Err e) ↔ IsRefusedWith p specs extra mappings e }
{}

/// An outcome has one update for each mapping whose refspec is found, in order.
pub fn outcomes_have_one_update_each()
    ensures { (p : Policy) (specs extra : List Spec) (mappings : List Mapping) (o : Outcome) → outcome_of p specs extra mappings ≡ Ok o
        → HasOneEach specs extra mappings o }
{}

/// The edits of an outcome are those that carry out its updates: each expects what was found, and
/// gives its reference what the remote has, or the value found.
pub fn edits_carry_out_updates()
    ensures { (p : Policy) (specs extra : List Spec) (mappings : List Mapping) (o : Outcome) → outcome_of p specs extra mappings ≡ Ok o
        → EditsCarryOut p mappings o }
{}

/// No edit of an outcome is refused over the references that the outcome was made over.
pub fn edits_find_what_they_expect()
    ensures { (p : Policy) (specs extra : List Spec) (mappings : List Mapping) (o : Outcome) → outcome_of p specs extra mappings ≡ Ok o
        → refusal_of p.names o.edits ≡ None }
{}

/// Outside a dry run, each id that an edit gives and that isn't the one found is stored.
pub fn new_ids_are_stored()
    ensures { (p : Policy) (specs extra : List Spec) (mappings : List Mapping) (o : Outcome) → outcome_of p specs extra mappings ≡ Ok o
        → p.dry_run ≡ false
        → (e : RefEdit) (id : ObjectId) → Contains o.edits e → gives e ≡ Some (Object id) → get p.names e.name ≢ Some (Object id)
        → IsTrue (is_stored p.graph id) }
{}

/// What reflogs get to say of each edit, by the row of its mapping.
pub fn edits_say_their_rows()
    ensures { (p : Policy) (specs extra : List Spec) (mappings : List Mapping) (o : Outcome) → outcome_of p specs extra mappings ≡ Ok o
        → EditsSay p specs extra mappings o }
{}

/// The change from symbolic to direct is told exactly with an edit that gives an id to a reference that
/// was symbolic, and the other change never.
pub fn type_changes_are_told()
    ensures { (p : Policy) (specs extra : List Spec) (mappings : List Mapping) (o : Outcome) → outcome_of p specs extra mappings ≡ Ok o
        → TellsTypeChanges p o }
{}
