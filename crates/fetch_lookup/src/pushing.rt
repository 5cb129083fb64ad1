//! What a branch is called on its remote.

ghost use Rattle.std.specs.Prelude.{◌≡◌, IfOk, List, ℕ, Option, Result};
ghost use Rattle.std.specs.Option.{option_copied};
ghost use Rattle.fetch_base.specs.Answers.{AnswersUnless};
ghost use Rattle.fetch_lookup.specs.Branches.{merge_of};
ghost use Rattle.fetch_lookup.specs.Pushed as spec;
ghost use Rattle.fetch_lookup.specs.Results.{AnswersMaybe};
ghost use Rattle.fetch_lookup.specs.declared.branch.Error.{Error as Refusal};

use crate::branch::Error;
use crate::branches::{destination, merge_text};
use crate::direction::Direction;
use crate::push;
use crate::push::default_choice;
use crate::remote::RemoteParts;
use fetch_base::{NoMemory, Text};
use fetch_config::File;
use fetch_specs::{FullName, NameError, RefSpec};
use std::alloc::Global;

/// What a branch is called on its remote. To fetch, that is its `branch.<short>.merge`. To push, it is the first
/// destination that the remote's refspecs give it, or, where there are none, what `push.default` says: an unknown
/// value is refused, unless that is passed over. None where nothing says it, and, to push, without a remote.
pub fn branch_remote_ref_name(
    alloc: Global,
    file: &File,
    remote: Option<&RemoteParts>,
    name: &FullName,
    direction: Direction,
    lenient: bool,
) -> Option<Result<FullName, Error>>
    ensures { AnswersMaybe spec.is_memory (spec.remote_name_in file.now.sections
        (option_copied remote.entry) name.now direction lenient) result }
{
    told(
        alloc,
        counterpart(alloc, file, remote, name, direction, lenient),
    )
}

/// The name that a text is, where there is one.
fn told(alloc: Global, text: Result<Option<Text>, Error>) -> Option<Result<FullName, Error>>
    ensures { (expected : Result (Option (List ℕ)) Refusal) → AnswersUnless spec.is_memory expected text
        → AnswersMaybe spec.is_memory (spec.told expected) result }
{
    match text {
        Ok(Some(text)) => Some(full_name(alloc, &text)),
        Ok(None) => None,
        Err(e) => Some(Err(e)),
    }
}

fn full_name(alloc: Global, text: &Text) -> Result<FullName, Error>
    ensures { AnswersUnless spec.is_memory (spec.named text.now) result }
{
    match FullName::new(alloc, text.as_bytes()) {
        Ok(name) => Ok(name),
        Err(NameError::Invalid { place }) => Err(Error::Name { place }),
        Err(NameError::NoMemory) => Err(Error::NoMemory),
    }
}

#[tactic(auto, unfolding(crate::specs::Pushed::counterpart_in))]
fn counterpart(
    alloc: Global,
    file: &File,
    remote: Option<&RemoteParts>,
    name: &FullName,
    direction: Direction,
    lenient: bool,
) -> Result<Option<Text>, Error>
    ensures { AnswersUnless spec.is_memory (spec.counterpart_in file.now.sections
        (option_copied remote.entry) name.now direction lenient) result }
{
    match direction {
        Direction::Fetch => Ok(merge_text(alloc, file, name)?),
        Direction::Push => match remote {
            Some(remote) => pushed(alloc, file, remote.push_specs.as_slice(), name, lenient),
            None => Ok(None),
        },
    }
}

#[tactic(auto, unfolding(crate::specs::Pushed::pushed_in))]
fn pushed(
    alloc: Global,
    file: &File,
    specs: &[RefSpec],
    name: &FullName,
    lenient: bool,
) -> Result<Option<Text>, Error>
    ensures { AnswersUnless spec.is_memory (spec.pushed_in file.now.sections specs.now name.now lenient) result }
{
    match specs {
        [_, ..] => Ok(destination(alloc, specs, name)?),
        [] => match default_choice(alloc, file, lenient) {
            Ok(choice) => Ok(target(alloc, file, choice, name)?),
            Err(push::Error::Unknown { value }) => Err(Error::PushDefault { value }),
            Err(push::Error::NoMemory) => Err(Error::NoMemory),
        },
    }
}

fn target(
    alloc: Global,
    file: &File,
    choice: push::Default,
    name: &FullName,
) -> Result<Option<Text>, NoMemory>
    ensures { IfOk result (λ text. text ≡ spec.target_by choice name.now (merge_of file.now.sections name.now)) }
{
    match choice {
        push::Default::Nothing => Ok(None),
        push::Default::Current | push::Default::Matching => {
            Ok(Some(Text::new(alloc, name.as_bytes())?))
        }
        push::Default::Upstream => merge_text(alloc, file, name),
        push::Default::Simple => Ok(where_same(name, merge_text(alloc, file, name)?)),
    }
}

fn where_same(name: &FullName, text: Option<Text>) -> Option<Text>
    ensures { result ≡ spec.where_same name.now text }
{
    match text {
        Some(text) => {
            if text.as_bytes() == name.as_bytes() {
                Some(text)
            } else {
                None
            }
        }
        None => None,
    }
}
