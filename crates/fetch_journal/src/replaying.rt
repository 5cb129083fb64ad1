//! What a journal leaves of a repository.

ghost use Rattle.std.specs.Prelude.{◌≡◌, IfErr, IfOk, IsErrAnd, MatchOption, MatchResult, OnOk};
ghost use Rattle.std.specs.List.Sorted.{IsStrictlySortedBy};
ghost use Rattle.fetch_base.specs.Id.{id_cmp};
ghost use Rattle.fetch_refs.specs.Answers.{IsUnlessMemory};
ghost use Rattle.fetch_refs.specs.Expectations.{refusal_of};
ghost use Rattle.fetch_refs.specs.declared.error.RefError.TheVariants as causes;
ghost use Rattle.fetch_remote.specs.RepositoryValues.{RepositoryValue};
ghost use Rattle.fetch_journal.specs.Faults.{Shows, TellsFault, fault_at, left_by, unmet};
ghost use Rattle.fetch_journal.specs.Machine.{edited};
ghost use Rattle.fetch_journal.specs.Replays as spec;
ghost use Rattle.fetch_journal.specs.Replays.{AllMet, Outline, outline, played};
ghost use Rattle.fetch_journal.specs.Shared.{IsKept};
ghost use Rattle.fetch_journal.specs.declared.replaying.ReplayFault.TheVariants as faults;

use crate::editing::{deletions, nobody};
use crate::entry::Entry;
use crate::taking::merged;
use fetch_refs::{PackedRefs, RefEdit, RefError, Refs, Signature, Target};
use fetch_remote::Repository;
use fetch_store::{Border, List, NoMemory, ObjectId, ascending};
use std::alloc::Global;
use thiserror::Error;

/// What a journal leaves.
// Not copied: it is made anew from its journal.
#[derive(Drop)]
pub struct Replayed {
    /// The references, with their reflogs.
    pub refs: Refs,
    /// The ids of all that is stored, in ascending order.
    pub ids: List<ObjectId>,
    /// The commits whose parents are left aside.
    pub border: Border,
}

/// Why a journal doesn't replay.
// Not copied: it is told once, of one journal.
#[derive(Debug, Drop, Error)]
pub enum ReplayFault {
    /// An edit expects something else than what stands at its name.
    #[error("edit {index} of entry {place} expects another value")]
    Expectation {
        /// The place of the first such entry, from 0.
        place: u64,
        /// The place of the first such edit in it, from 0.
        index: usize,
        /// What stands at the edit's name, if anything does.
        found: Option<Target>,
    },
    /// Memory ran out.
    #[error("out of memory")]
    NoMemory,
}

/// What a journal leaves of the repository that it began with: its entries one after the other. `Expectation` comes exactly
/// where an edit doesn't find what it expects, with the first such entry and the first such edit in it; else the only error is
/// out of memory, and so for the journal of a shared repository that was closed.
pub fn replay(
    alloc: Global,
    opening: &Repository,
    journal: &[Entry],
) -> Result<Replayed, ReplayFault>
    ensures replayed { IfOk result (λ left. left ≡ left_by (spec.replay (outline opening.now) journal.now)) }
    ensures ascending { IfOk result (λ left. IsStrictlySortedBy id_cmp left.ids) }
    ensures met { OnOk result (AllMet (outline opening.now) journal.now) }
    ensures fault { IfErr result (λ e. TellsFault (outline opening.now) journal.now e) }
    ensures memory { AllMet (outline opening.now) journal.now → IfErr result (λ e. e ≡ faults.NoMemory) }
    ensures closed { (r : RepositoryValue) → IsKept (record { opening = opening.now; repository = r; journal = journal.now })
        → MatchResult result (λ left. left ≡ left_by (outline r)) (λ e. e ≡ faults.NoMemory) }
{
    let mut playing = Playing::of(alloc, opening)?;
    for (place, entry) in journal.iter().enumerate() {
        if let Err(cause) = playing.play(alloc, entry) {
            return Err(fault(place as u64, cause));
        }
    }
    Ok(playing.left())
}

/// A journal that is being played: references, ids and border so far.
#[derive(Drop)]
struct Playing {
    refs: Refs,
    ids: Vec<ObjectId>,
    border: Border,
    /// Whether the usual names are logged.
    logging: bool,
}

impl Playing {
    fn of(alloc: Global, opening: &Repository) -> Result<Playing, NoMemory>
        ensures { IfOk result (λ playing. Shows (outline opening.now) playing) }
    {
        let Ok(ids) = opening.store().ids(alloc) else {
            return Err(NoMemory);
        };
        Ok(Playing {
            refs: opening.refs().try_clone()?,
            ids,
            border: opening.border().try_clone()?,
            logging: opening.logs(),
        })
    }

    /// Plays one entry. After an error nothing is said of the rest.
    fn play(&mut self, alloc: Global, entry: &Entry) -> Result<(), RefError>
        ensures ok { OnOk result ((v : Outline) → Shows v self.old → Shows (played v entry.now) self.new) }
        ensures refusal { MatchOption (unmet self.old.refs.names entry.now) (IfErr result (λ e. e ≡ causes.NoMemory))
            (λ e. IsErrAnd result (IsUnlessMemory e)) }
    {
        match entry {
            Entry::Take {
                ids,
                shallow,
                unshallow,
                ..
            } => {
                self.ids.extend_from_slice(ids.as_slice())?;
                self.border = merged(
                    alloc,
                    &self.border,
                    shallow.as_slice(),
                    unshallow.as_slice(),
                )?;
                Ok(())
            }
            Entry::Commit {
                edits,
                committer,
                ..
            } => change(&mut self.refs, edits.as_slice(), committer, self.logging),
            Entry::Delete { names, .. } => {
                let edits = deletions(alloc, names.as_slice())?;
                match change(
                    &mut self.refs,
                    edits.as_slice(),
                    &nobody(alloc),
                    self.logging,
                ) {
                    Ok(()) => Ok(()),
                    Err(_) => Err(RefError::NoMemory),
                }
            }
        }
    }

    /// What is left.
    fn left(self) -> Replayed
        ensures left { (v : Outline) → Shows v self → result ≡ left_by v }
        ensures ascending { IsStrictlySortedBy id_cmp result.ids }
    {
        let Playing {
            refs,
            ids,
            border,
            ..
        } = self;
        Replayed {
            refs,
            ids: List::from(ascending(ids)),
            border,
        }
    }
}

/// Makes the edits, or none of them.
fn change(
    refs: &mut Refs,
    edits: &[RefEdit],
    committer: &Signature,
    logging: bool,
) -> Result<(), RefError>
    ensures ok { OnOk result (refs.new ≡ edited logging refs.old edits.now committer.now) }
    ensures refusal { MatchOption (refusal_of refs.old.names edits.now) (IfErr result (λ e. e ≡ causes.NoMemory))
        (λ e. IsErrAnd result (IsUnlessMemory e)) }
{
    let prepared = refs.prepare(edits, committer, logging, PackedRefs::Never)?;
    prepared.commit();
    Ok(())
}

/// What is told of an entry at this place that isn't played for this cause.
fn fault(place: u64, cause: RefError) -> ReplayFault
    ensures { result ≡ fault_at place cause }
{
    match cause {
        RefError::Expectation { index, found } => ReplayFault::Expectation {
            place,
            index,
            found,
        },
        _ => ReplayFault::NoMemory,
    }
}

impl From<NoMemory> for ReplayFault {
    ghost use Rattle.std.specs.Prelude.{◌≡◌};
    ghost use Rattle.fetch_journal.specs.declared.replaying.ReplayFault.TheVariants as faults;

    ghost from_gives = { λ _ e. e ≡ faults.NoMemory };

    fn from(_e: NoMemory) -> ReplayFault {
        ReplayFault::NoMemory
    }
}
