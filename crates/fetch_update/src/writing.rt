//! Edits of references.

ghost use Rattle.std.specs.Prelude.{◌≡◌, IfOk, Ok, Err};
ghost use Rattle.fetch_base.specs.Answers.{AnswersUnless};
ghost use Rattle.fetch_refs.specs.Targets.{seen};
ghost use Rattle.fetch_update.specs.Policy as spec;
ghost use Rattle.fetch_update.specs.Policy.{is_memory, place_in_code, value_in_code};
ghost use Rattle.fetch_update.specs.declared.update.Error.TheVariants as errors;

use crate::judge::{Judge, NewTarget, Place};
use crate::judging::full_name;
use crate::mode::{Mode, TypeChange};
use crate::update::Error;
use crate::verdict::Verdict;
use fetch_refs::{Change, LogChange, PreviousValue, RefEdit, RefLog, Target, TargetRef};
use fetch_specs::{Category, FullName};
use fetch_store::{NoMemory, Text};
use std::alloc::Global;

/// A reference that is absent gets the value.
pub(crate) fn create(
    judge: &Judge<'_>,
    new_target: NewTarget<'_>,
    name: FullName,
) -> Result<Verdict, Error>
    ensures { AnswersUnless is_memory (spec.if_valid (value_in_code new_target.entry)
        (spec.created judge.now.message.now name (value_in_code new_target.entry))) result }
{
    let value = target_of(judge.alloc, new_target)?;
    let happened = storing(&name);
    let expected = PreviousValue::ExistingMustMatch(value.try_clone()?);
    let edit = edit(judge, name, expected, value, happened)?;
    Ok(Verdict {
        mode: Mode::New,
        type_change: None,
        edit: Some(edit),
    })
}

/// A reference that has this value gets another, or the same again.
pub(crate) fn write(
    judge: &Judge<'_>,
    place: Place<'_>,
    mode: Mode,
    happened: &[u8],
) -> Result<Verdict, Error>
    ensures { AnswersUnless is_memory (spec.if_valid (value_in_code place.entry.new_target)
        (spec.written judge.now.message.now (place_in_code place.entry) mode happened.now)) result }
{
    let value = target_of(judge.alloc, place.new_target)?;
    let type_change = type_change_of(place.found, &value);
    let expected = PreviousValue::MustExistAndMatch(place.found.try_to_owned()?);
    let edit = edit(judge, place.name, expected, value, happened)?;
    Ok(Verdict {
        mode,
        type_change,
        edit: Some(edit),
    })
}

fn type_change_of(found: TargetRef<'_>, value: &Target) -> Option<TypeChange>
    ensures { result ≡ spec.type_change_of (seen found.entry) value.now }
{
    match (found, value) {
        (TargetRef::Symbolic(_), Target::Object(_)) => Some(TypeChange::SymbolicToDirect),
        (TargetRef::Symbolic(_), Target::Symbolic(_)) => None,
        (TargetRef::Object(_), _) => None,
    }
}

fn edit(
    judge: &Judge<'_>,
    name: FullName,
    expected: PreviousValue,
    new: Target,
    happened: &[u8],
) -> Result<RefEdit, NoMemory>
    ensures { IfOk result (λ edit. edit ≡ spec.edit_of judge.now.message.now name expected new happened.now) }
{
    let message = judge.message.compose(judge.alloc, happened)?;
    Ok(RefEdit {
        change: Change::Update {
            log: LogChange {
                mode: RefLog::AndReference,
                force_create_reflog: false,
                message,
            },
            expected,
            new,
        },
        name,
    })
}

/// The new value, if its name is one.
fn target_of(alloc: Global, new_target: NewTarget<'_>) -> Result<Target, Error>
    ensures { AnswersUnless is_memory (spec.checked (value_in_code new_target.entry)) result }
{
    match new_target {
        NewTarget::Id(id) => Ok(Target::Object(id)),
        NewTarget::Name(text) => match full_name(alloc, text)? {
            Some(name) => Ok(Target::Symbolic(name)),
            None => invalid(alloc, text),
        },
    }
}

fn invalid(alloc: Global, text: &[u8]) -> Result<Target, Error>
    ensures { AnswersUnless is_memory (Err (errors.InvalidRefName text.now)) result }
{
    Err(Error::InvalidRefName {
        name: Text::new(alloc, text)?,
    })
}

#[tactic(auto, unfolding(crate::specs::Policy::storing_tag, crate::specs::Policy::storing_head, crate::specs::Policy::storing_ref))]
fn storing(name: &FullName) -> &'static [u8]
    ensures { result.now ≡ spec.storing name.now }
{
    match name.category() {
        Some(Category::Tag) => b"storing tag",
        Some(Category::LocalBranch) => b"storing head",
        _ => b"storing ref",
    }
}
