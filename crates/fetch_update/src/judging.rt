//! What becomes of one mapping.

ghost use Rattle.std.specs.Prelude.{◌≡◌, IfOk, OnErr, MatchOption, true, false, Err};
ghost use Rattle.std.specs.Option.{option_copied};
ghost use Rattle.std.specs.FinMap as map;
ghost use Rattle.fetch_base.specs.Answers.{AnswersUnless};
ghost use Rattle.fetch_refs.specs.Peeled.{peeled};
ghost use Rattle.fetch_refs.specs.Targets.{seen};
ghost use Rattle.fetch_specs.specs.Names.{is_full_name};
ghost use Rattle.fetch_update.specs.Policy as spec;
ghost use Rattle.fetch_update.specs.Policy.{is_memory, policy_of, place_in_code, value_in_code, value_of};
ghost use Rattle.fetch_update.specs.declared.update.Error.TheVariants as errors;

use crate::judge::{Judge, NewTarget, Place};
use crate::mode::Mode;
use crate::stored::{are_commits, is_ahead, is_stored};
use crate::trees::directories_at;
use crate::update::Error;
use crate::verdict::Verdict;
use crate::writing::{create, write};
use fetch_lines::{Ref, Source};
use fetch_map::Mapping;
use fetch_refs::{RefError, TargetRef};
use fetch_specs::{Category, FullName, RefSpec, Tags};
use fetch_store::{NoMemory, ObjectId, Objects, Text};
use std::alloc::Global;

fn new_target_of(source: &Source) -> NewTarget<'_>
    ensures { value_in_code result ≡ value_of source.now }
{
    match source {
        Source::ObjectId(id) => NewTarget::Id(*id),
        Source::Ref(Ref::Direct { object, .. }) => NewTarget::Id(*object),
        Source::Ref(Ref::Symbolic { tag: Some(tag), .. }) => NewTarget::Id(*tag),
        Source::Ref(
            Ref::Symbolic {
                tag: None,
                object,
                ..
            },
        ) => NewTarget::Id(*object),
        Source::Ref(Ref::Peeled { tag, .. }) => NewTarget::Id(*tag),
        Source::Ref(Ref::Unborn { target, .. }) => NewTarget::Name(target.as_bytes()),
    }
}

/// What becomes of a mapping that this refspec made.
#[tactic(auto, unfolding(crate::specs::Policy::verdict_of))]
pub(crate) fn judge_mapping<O: Objects>(
    judge: &Judge<'_>,
    objects: &O,
    refspec: &RefSpec,
    mapping: &Mapping,
) -> Result<Verdict, Error>
    ensures { AnswersUnless is_memory (spec.verdict_of (policy_of (O.graph objects.now) judge.now) refspec.now mapping.now) result }
{
    match unsent(judge, objects, new_target_of(&mapping.remote)) {
        Some(id) => Ok(Verdict::nothing(unsent_mode(judge, refspec, id))),
        None => at_destination(judge, objects, refspec, mapping),
    }
}

/// The id that isn't stored, where objects are tested.
#[tactic(auto, unfolding(crate::specs::Policy::unsent))]
fn unsent<O: Objects>(judge: &Judge<'_>, objects: &O, new_target: NewTarget<'_>) -> Option<ObjectId>
    ensures { result ≡ spec.unsent (policy_of (O.graph objects.now) judge.now) (value_in_code new_target.entry) }
{
    match new_target {
        NewTarget::Name(_) => None,
        NewTarget::Id(id) => {
            if judge.dry_run {
                return None;
            }
            if is_stored(objects, &id) {
                return None;
            }
            Some(id)
        }
    }
}

#[tactic(auto, unfolding(crate::specs::Policy::unsent_mode))]
fn unsent_mode(judge: &Judge<'_>, refspec: &RefSpec, id: ObjectId) -> Mode
    ensures { result ≡ spec.unsent_mode judge.now.tags refspec.now id }
{
    if is_included(judge.tags) {
        if refspec.is_all_tags() {
            return Mode::ImplicitTagNotSentByRemote;
        }
    }
    Mode::RejectedSourceObjectNotFound { id }
}

fn is_included(tags: Tags) -> bool
    ensures { result ≡ spec.is_included tags }
{
    match tags {
        Tags::Included => true,
        Tags::All | Tags::None => false,
    }
}

pub(crate) fn is_forced(refspec: &RefSpec) -> bool
    ensures { result ≡ spec.is_forced refspec.now.mode }
{
    refspec.allow_non_fast_forward()
}

#[tactic(auto, unfolding(crate::specs::Policy::at_destination))]
fn at_destination<O: Objects>(
    judge: &Judge<'_>,
    objects: &O,
    refspec: &RefSpec,
    mapping: &Mapping,
) -> Result<Verdict, Error>
    ensures { AnswersUnless is_memory (spec.at_destination
        (policy_of (O.graph objects.now) judge.now) refspec.now mapping.now mapping.now.local) result }
{
    let Some(text) = &mapping.local else {
        return Ok(Verdict::nothing(Mode::NoChangeNeeded));
    };
    match full_name(judge.alloc, text.as_bytes())? {
        Some(name) => at_name(judge, objects, refspec, mapping, name),
        None => no_name(text),
    }
}

fn no_name(text: &Text) -> Result<Verdict, Error>
    ensures { AnswersUnless is_memory (Err (errors.FindReference text.now)) result }
{
    Err(Error::FindReference {
        name: text.try_clone()?,
    })
}

/// The name that a text is, if it is one. Of a text that is none memory can't run out.
pub(crate) fn full_name(alloc: Global, text: &[u8]) -> Result<Option<FullName>, NoMemory>
    ensures found { IfOk result (λ found. MatchOption found (is_full_name text.now ≡ false) (λ name. (name ≡ text.now)
        × (is_full_name text.now ≡ true))) }
    ensures memory { OnErr result (is_full_name text.now ≡ true) }
{
    if !FullName::is_valid(text) {
        return Ok(None);
    }
    match FullName::new(alloc, text) {
        Ok(name) => Ok(Some(name)),
        Err(_) => Err(NoMemory),
    }
}

#[tactic(auto, unfolding(crate::specs::Policy::at_name))]
fn at_name<O: Objects>(
    judge: &Judge<'_>,
    objects: &O,
    refspec: &RefSpec,
    mapping: &Mapping,
    name: FullName,
) -> Result<Verdict, Error>
    ensures { AnswersUnless is_memory (spec.at_name (policy_of (O.graph objects.now) judge.now) refspec.now mapping.now name
        (map.get judge.now.refs.now.names name)) result }
{
    let new_target = new_target_of(&mapping.remote);
    let Some(found) = judge.refs.find(&name) else {
        return create(judge, new_target, name);
    };
    let place = Place {
        name,
        found,
        new_target,
        target: mapping.remote.as_target(),
        is_forced: is_forced(refspec),
    };
    at_place(judge, objects, place)
}

#[tactic(auto, unfolding(crate::specs::Policy::at_place))]
fn at_place<O: Objects>(judge: &Judge<'_>, objects: &O, place: Place<'_>) -> Result<Verdict, Error>
    ensures { AnswersUnless is_memory (spec.at_place (policy_of (O.graph objects.now) judge.now) (place_in_code place.entry)) result }
{
    match directories_at(judge.alloc, judge.worktrees, judge.directories, &place.name)? {
        Some(worktree_dirs) => Ok(Verdict::nothing(Mode::RejectedCurrentlyCheckedOut {
            worktree_dirs,
        })),
        None => at_local(judge, objects, place),
    }
}

#[tactic(auto, unfolding(crate::specs::Policy::at_local))]
fn at_local<O: Objects>(judge: &Judge<'_>, objects: &O, place: Place<'_>) -> Result<Verdict, Error>
    ensures { AnswersUnless is_memory (spec.at_local (policy_of (O.graph objects.now) judge.now) (place_in_code place.entry)
        (peeled judge.now.refs.now.names (O.graph objects.now) place.entry.name)) result }
{
    match judge.refs.peel(objects, &place.name) {
        Ok(id) => at_id(judge, objects, place, id),
        Err(RefError::Unborn { name: _ }) => at_unborn(judge, place),
        Err(RefError::NoMemory) => Err(Error::NoMemory),
        Err(cause) => Err(Error::PeelToId {
            name: place.name,
            cause,
        }),
    }
}

/// A symbolic reference whose way ends at an absent name.
#[tactic(auto, unfolding(crate::specs::Policy::change_unborn))]
fn at_unborn(judge: &Judge<'_>, place: Place<'_>) -> Result<Verdict, Error>
    ensures { AnswersUnless is_memory (spec.if_valid (value_in_code place.entry.new_target)
        (spec.written judge.now.message.now (place_in_code place.entry)
        (spec.unborn_mode (seen place.entry.found) (option_copied place.entry.target)) spec.change_unborn)) result }
{
    let mode = unborn_mode(place.found, place.target);
    write(judge, place, mode, b"change unborn ref")
}

fn unborn_mode(found: TargetRef<'_>, target: Option<&[u8]>) -> Mode
    ensures { result ≡ spec.unborn_mode (seen found.entry) (option_copied target.entry) }
{
    match (found, target) {
        (TargetRef::Symbolic(name), Some(target)) => {
            if name.as_bytes() == target {
                Mode::NoChangeNeeded
            } else {
                Mode::Forced
            }
        }
        (TargetRef::Symbolic(_), None) => Mode::Forced,
        (TargetRef::Object(_), _) => Mode::Forced,
    }
}

/// A reference that stands for an id.
#[tactic(auto, using(fetch_base::proofs::Orders::eq_is), unfolding(crate::specs::Policy::at_id, crate::specs::Policy::at_stored, crate::specs::Policy::no_update, crate::specs::Policy::updating_tag, crate::specs::Policy::guessed, crate::specs::Policy::fast_forward, crate::specs::Policy::forced_update))]
fn at_id<O: Objects>(
    judge: &Judge<'_>,
    objects: &O,
    place: Place<'_>,
    local: ObjectId,
) -> Result<Verdict, Error>
    ensures { AnswersUnless is_memory (spec.at_id (policy_of (O.graph objects.now) judge.now) (place_in_code place.entry) local
        (value_in_code place.entry.new_target)) result }
{
    let NewTarget::Id(remote) = place.new_target else {
        return Ok(Verdict::nothing(Mode::RejectedToReplaceWithUnborn));
    };
    if local == remote {
        let happened = b"no update will be performed";
        return write(judge, place, Mode::NoChangeNeeded, happened);
    }
    if is_tag(&place.name) {
        if place.is_forced {
            return write(judge, place, Mode::Forced, b"updating tag");
        }
        return Ok(Verdict::nothing(Mode::RejectedTagUpdate));
    }
    if judge.dry_run {
        let happened = b"fast-forward (guessed in dry-run)";
        return write(judge, place, Mode::FastForward, happened);
    }
    if !is_stored(objects, &local) {
        return Err(Error::FindCommit { id: local });
    }
    if !are_commits(objects, &local, &remote) {
        return write(judge, place, Mode::Forced, b"forced-update");
    }
    if is_ahead(judge.alloc, objects, &remote, &local)? {
        return write(judge, place, Mode::FastForward, b"fast-forward");
    }
    if place.is_forced {
        return write(judge, place, Mode::Forced, b"forced-update");
    }
    Ok(Verdict::nothing(Mode::RejectedNonFastForward))
}

fn is_tag(name: &FullName) -> bool
    ensures { result ≡ spec.is_tag name.now }
{
    match name.category() {
        Some(Category::Tag) => true,
        _ => false,
    }
}
